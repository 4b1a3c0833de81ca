//! Types at the boundary by the tables of IEEE 1800-2017, H.7.4, H.8 and H.10.
use c_base::{CBase, CType};
use dpi_boundary::{
    fits_formal, fits_result, fits_variable, is_small, same_formal_kind, same_kind,
};
use dpi_shape::{Leaf, Range, Shape};
use std::rt::HostRuntime;
use sv_shapes::{FormalKind, OpenDims, OpenLeaf, VarKind};
use sv_signatures::Returns;
use sv_tree::Direction;

const fn of(base_const: bool, base: CBase, stars: u8) -> CType {
    CType {
        base,
        base_const,
        stars,
        inner_const: false,
    }
}

const BYTE: Leaf = Leaf::Byte { signed: true };

const INT: Leaf = Leaf::Int { signed: true };

const FOUR: Range = Range { left: 3, right: 0 };

/// The types that go by value, and what they are in C.
const NUMBERS: [(Leaf, CBase); 11] = [
    (BYTE, CBase::Char),
    (BYTE, CBase::UnsignedChar),
    (Leaf::Byte { signed: false }, CBase::UnsignedChar),
    (Leaf::Short { signed: true }, CBase::Short),
    (Leaf::Short { signed: false }, CBase::UnsignedShort),
    (INT, CBase::Int),
    (Leaf::Int { signed: false }, CBase::UnsignedInt),
    (Leaf::Long { signed: true }, CBase::LongLong),
    (Leaf::Long { signed: false }, CBase::UnsignedLongLong),
    (Leaf::Bit { signed: false }, CBase::UnsignedChar),
    (Leaf::Logic { signed: false }, CBase::UnsignedChar),
];

#[test]
fn numbers_go_by_value_and_come_back_by_pointer(rt: HostRuntime) {
    for (leaf, base) in NUMBERS {
        let kind = VarKind::Cells(Shape::new(leaf, &[]).expect(&rt, "a shape"));
        let result = Returns::Value(Some(kind));
        assert!(rt;
            fits_variable(Direction::Input, kind, of(false, base, 0)),
            "{leaf:?}"
        );
        assert!(rt;
            fits_variable(Direction::Input, kind, of(true, base, 0)),
            "{leaf:?}"
        );
        assert!(rt;
            !fits_variable(Direction::Input, kind, of(true, base, 1)),
            "{leaf:?}"
        );
        assert!(rt;
            fits_variable(Direction::Output, kind, of(false, base, 1)),
            "{leaf:?}"
        );
        assert!(rt;
            !fits_variable(Direction::Output, kind, of(true, base, 1)),
            "{leaf:?}"
        );
        assert!(rt;
            !fits_variable(Direction::Inout, kind, of(false, base, 0)),
            "{leaf:?}"
        );
        assert!(rt; fits_result(result, false, of(false, base, 0)), "{leaf:?}");
        assert!(rt; !fits_result(result, false, of(false, base, 1)), "{leaf:?}");
        assert!(rt; is_small(result), "{leaf:?}");
    }
}

/// The cells of vectors and arrays: leaf, whether there is a dimension, and the C type of a cell.
const CELLS: [(Leaf, bool, CBase); 6] = [
    (
        Leaf::BitVec {
            range: FOUR,
            signed: false,
        },
        false,
        CBase::UnsignedInt,
    ),
    (
        Leaf::LogicVec {
            range: FOUR,
            signed: false,
        },
        false,
        CBase::LogicVec,
    ),
    (
        Leaf::LogicVec {
            range: FOUR,
            signed: true,
        },
        true,
        CBase::LogicVec,
    ),
    (BYTE, true, CBase::UnsignedChar),
    (INT, true, CBase::Int),
    (Leaf::Bit { signed: false }, true, CBase::UnsignedChar),
];

#[test]
fn vectors_and_arrays_go_by_a_pointer_to_cells(rt: HostRuntime) {
    for (leaf, array, base) in CELLS {
        let dims: &[Range] = if array { &[FOUR] } else { &[] };
        let kind = VarKind::Cells(Shape::new(leaf, dims).expect(&rt, "a shape"));
        assert!(rt;
            fits_variable(Direction::Input, kind, of(true, base, 1)),
            "{leaf:?}"
        );
        assert!(rt;
            fits_variable(Direction::Input, kind, of(false, base, 1)),
            "{leaf:?}"
        );
        assert!(rt;
            !fits_variable(Direction::Input, kind, of(false, base, 0)),
            "{leaf:?}"
        );
        assert!(rt;
            fits_variable(Direction::Inout, kind, of(false, base, 1)),
            "{leaf:?}"
        );
        assert!(rt;
            !fits_variable(Direction::Output, kind, of(true, base, 1)),
            "{leaf:?}"
        );
        assert!(rt; !is_small(Returns::Value(Some(kind))), "{leaf:?}");
    }
}

/// Texts, chandles and open arrays: formal, direction, C type, and whether it fits.
const OTHERS: [(FormalKind, Direction, (bool, CBase, u8), bool); 12] = [
    (
        FormalKind::Sized(VarKind::Text),
        Direction::Input,
        (true, CBase::Char, 1),
        true,
    ),
    (
        FormalKind::Sized(VarKind::Text),
        Direction::Input,
        (false, CBase::Char, 1),
        true,
    ),
    (
        FormalKind::Sized(VarKind::Text),
        Direction::Input,
        (true, CBase::UnsignedChar, 1),
        false,
    ),
    (
        FormalKind::Sized(VarKind::Text),
        Direction::Inout,
        (true, CBase::Char, 2),
        true,
    ),
    (
        FormalKind::Sized(VarKind::Text),
        Direction::Output,
        (false, CBase::Char, 2),
        false,
    ),
    (
        FormalKind::Sized(VarKind::Chandle),
        Direction::Input,
        (true, CBase::Void, 1),
        true,
    ),
    (
        FormalKind::Sized(VarKind::Chandle),
        Direction::Output,
        (false, CBase::Void, 2),
        true,
    ),
    (
        FormalKind::Sized(VarKind::Chandle),
        Direction::Output,
        (false, CBase::Void, 1),
        false,
    ),
    (OPEN, Direction::Input, (false, CBase::Handle, 0), true),
    (OPEN, Direction::Inout, (true, CBase::Handle, 0), true),
    (OPEN, Direction::Output, (false, CBase::Handle, 1), false),
    (OPEN, Direction::Input, (true, CBase::Int, 1), false),
];

const OPEN: FormalKind = FormalKind::Open {
    leaf: OpenLeaf::Leaf(INT),
    dims: OpenDims::One([None]),
};

#[test]
fn texts_chandles_and_handles_have_their_pointers(rt: HostRuntime) {
    for (formal, direction, (base_const, base, stars), fits) in OTHERS {
        let wanted = of(base_const, base, stars);
        assert_eq!(rt;
            fits_formal(direction, formal, wanted),
            fits,
            "{formal:?} {wanted:?}"
        );
    }
    let text = Returns::Value(Some(VarKind::Text));
    assert!(rt; fits_result(text, false, of(true, CBase::Char, 1)));
    assert!(rt; !fits_result(text, false, of(false, CBase::Char, 1)));
    assert!(rt; fits_result(Returns::Void, false, of(false, CBase::Void, 0)));
    assert!(rt; fits_result(Returns::Void, true, of(false, CBase::Int, 0)));
    assert!(rt; !fits_result(Returns::Void, true, of(false, CBase::Void, 0)));
}

const WORD: Leaf = Leaf::BitVec {
    range: Range { left: 7, right: 0 },
    signed: false,
};

const SHIFTED: Leaf = Leaf::BitVec {
    range: Range { left: 1, right: 8 },
    signed: false,
};

const WIDER: Leaf = Leaf::BitVec {
    range: Range { left: 8, right: 0 },
    signed: false,
};

const SINGLE: Leaf = Leaf::BitVec {
    range: Range { left: 0, right: 0 },
    signed: false,
};

/// Two leaf types, and whether they are equal in signatures (IEEE 1800-2017, 35.5.4).
const LEAVES: [(Leaf, Leaf, bool); 6] = [
    (WORD, SHIFTED, true),
    (WORD, WIDER, false),
    (WORD, Leaf::Byte { signed: false }, false),
    (SINGLE, Leaf::Bit { signed: false }, false),
    (INT, Leaf::Int { signed: false }, false),
    (
        Leaf::Bit { signed: false },
        Leaf::Logic { signed: false },
        false,
    ),
];

#[test]
fn equal_kinds_have_equal_leaves_and_sizes(rt: HostRuntime) {
    for (a, b, same) in LEAVES {
        let one = VarKind::Cells(Shape::new(a, &[]).expect(&rt, "a shape"));
        let other = VarKind::Cells(Shape::new(b, &[]).expect(&rt, "a shape"));
        assert_eq!(rt; same_kind(one, other), same, "{a:?} {b:?}");
    }
    let falling = VarKind::Cells(Shape::new(INT, &[FOUR]).expect(&rt, "a shape"));
    let rising = Range { left: 1, right: 4 };
    let array = VarKind::Cells(Shape::new(INT, &[rising]).expect(&rt, "a shape"));
    assert!(rt; same_kind(falling, array));
    assert!(rt; same_formal_kind(OPEN, OPEN));
    assert!(rt; !same_formal_kind(OPEN, FormalKind::Sized(array)));
}
