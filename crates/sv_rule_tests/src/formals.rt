//! An open array of any bits, and an actual of three vectors of five.
use dpi_shape::{Leaf, Range, Shape};
use std::rt::HostRuntime;
use std::test::Fail;
use sv_formals::formal_shape;
use sv_shapes::{FormalKind, OpenDims, OpenLeaf};

const ANY: FormalKind = FormalKind::Open {
    leaf: OpenLeaf::AnyBit { signed: false },
    dims: OpenDims::One([None]),
};

#[test]
fn an_open_dimension_takes_the_range_and_an_open_part_the_width(
    rt: HostRuntime,
) -> Result<(), Fail> {
    let dims = [Range { left: 7, right: 5 }];
    let packed = Range { left: 12, right: 8 };
    let actual = Shape::new(
        Leaf::BitVec {
            range: packed,
            signed: true,
        },
        &dims,
    )
    .ok_or("a shape")?;
    let wanted = Leaf::BitVec {
        range: Range { left: 4, right: 0 },
        signed: false,
    };
    assert_eq!(rt; formal_shape(ANY, &actual), Shape::new(wanted, &dims));
    Ok(())
}
