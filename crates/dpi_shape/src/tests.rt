//! Shapes whose numbers were worked out by hand.
use crate::{Leaf, Range, Shape};
use std::test::Fail;

const INT: Leaf = Leaf::Int { signed: true };

const LONG: Leaf = Leaf::Long { signed: true };

const BYTE: Leaf = Leaf::Byte { signed: false };

const SHORT: Leaf = Leaf::Short { signed: true };

const BIT: Leaf = Leaf::Bit { signed: false };

const LOGIC: Leaf = Leaf::Logic { signed: true };

const BIT_VEC_1: Leaf = Leaf::BitVec {
    range: Range { left: 0, right: 0 },
    signed: false,
};

const BIT_VEC_8: Leaf = Leaf::BitVec {
    range: Range { left: 8, right: 1 },
    signed: true,
};

const BIT_VEC_32: Leaf = Leaf::BitVec {
    range: Range { left: 0, right: 31 },
    signed: false,
};

const BIT_VEC_64: Leaf = Leaf::BitVec {
    range: Range { left: 63, right: 0 },
    signed: false,
};

const BIT_VEC_1024: Leaf = Leaf::BitVec {
    range: Range {
        left: 1023,
        right: 0,
    },
    signed: false,
};

const BIT_VEC_1025: Leaf = Leaf::BitVec {
    range: Range {
        left: 512,
        right: -512,
    },
    signed: false,
};

const LOGIC_VEC_33: Leaf = Leaf::LogicVec {
    range: Range { left: 32, right: 0 },
    signed: false,
};

const INTEGER: Leaf = Leaf::LogicVec {
    range: Range { left: 31, right: 0 },
    signed: true,
};

const ALL_BITS: Leaf = Leaf::LogicVec {
    range: Range {
        left: i32::MAX,
        right: i32::MIN,
    },
    signed: false,
};

const FALLING_10: Range = Range { left: 7, right: -2 };

const FALLING_2: Range = Range { left: 1, right: 0 };

const RISING_2: Range = Range { left: 5, right: 6 };

const RISING_3: Range = Range { left: 0, right: 2 };

const LAST_1: Range = Range {
    left: i32::MAX,
    right: i32::MAX,
};

const RISING_2048: Range = Range {
    left: 1,
    right: 2048,
};

const RISING_2049: Range = Range {
    left: 0,
    right: 2048,
};

const FALLING_65536: Range = Range {
    left: 65_535,
    right: 0,
};

const FALLING_65537: Range = Range {
    left: 65_536,
    right: 0,
};

const ALL_INDICES: Range = Range {
    left: i32::MIN,
    right: i32::MAX,
};

/// Leaf, dimensions, and the width, words, cells and bytes by hand; None past a limit.
const SHAPES: &[(Leaf, &[Range], Option<(u32, u32, u32, u32)>)] = &[
    (INT, &[FALLING_10], Some((32, 1, 10, 40))),
    (LOGIC_VEC_33, &[FALLING_2, RISING_3], Some((33, 2, 12, 96))),
    (BYTE, &[], Some((8, 1, 1, 1))),
    (SHORT, &[FALLING_2, LAST_1, RISING_3], Some((16, 1, 6, 12))),
    (LONG, &[RISING_2], Some((64, 1, 2, 16))),
    (BIT, &[RISING_3], Some((1, 1, 3, 3))),
    (LOGIC, &[], Some((1, 1, 1, 1))),
    (BIT_VEC_1, &[], Some((1, 1, 1, 4))),
    (BIT_VEC_32, &[], Some((32, 1, 1, 4))),
    (BIT_VEC_64, &[], Some((64, 2, 2, 8))),
    (INTEGER, &[], Some((32, 1, 1, 8))),
    (
        BIT_VEC_1024,
        &[RISING_2048],
        Some((1024, 32, 65_536, 262_144)),
    ),
    (BIT_VEC_1024, &[RISING_2049], None),
    (BIT_VEC_1025, &[], None),
    (ALL_BITS, &[], None),
    (BYTE, &[FALLING_65536], Some((8, 1, 65_536, 65_536))),
    (BYTE, &[FALLING_65537], None),
    (BYTE, &[FALLING_2, FALLING_65536], None),
    (BYTE, &[ALL_INDICES, ALL_INDICES, ALL_INDICES], None),
    (BYTE, &[LAST_1, LAST_1, LAST_1, LAST_1], None),
];

#[test]
fn sizes_are_those_by_hand_up_to_the_limits(rt: HostRuntime) {
    for &(leaf, dims, wanted) in SHAPES {
        let found = Shape::new(leaf, dims).map(|s| (s.width(), s.words(), s.cells(), s.bytes()));
        assert_eq!(rt; found, wanted, "{leaf:?} {dims:?}");
    }
}

/// Leaf, dimensions, indices, and the first cell that they name.
const PLACES: &[(Leaf, &[Range], &[i32], Option<u32>)] = &[
    (INT, &[FALLING_10], &[-2], Some(0)),
    (INT, &[FALLING_10], &[7], Some(9)),
    (INT, &[FALLING_10], &[8], None),
    (INT, &[FALLING_10], &[-3], None),
    (INT, &[FALLING_10], &[], Some(0)),
    (LOGIC_VEC_33, &[FALLING_2, RISING_3], &[1, 2], Some(10)),
    (LOGIC_VEC_33, &[FALLING_2, RISING_3], &[0, 2], Some(4)),
    (LOGIC_VEC_33, &[FALLING_2, RISING_3], &[1], Some(6)),
    (LOGIC_VEC_33, &[FALLING_2, RISING_3], &[2], None),
    (LOGIC_VEC_33, &[FALLING_2, RISING_3], &[1, 3], None),
    (LOGIC_VEC_33, &[FALLING_2, RISING_3], &[-1, 0], None),
    (
        SHORT,
        &[FALLING_2, LAST_1, RISING_3],
        &[1, i32::MAX, 1],
        Some(4),
    ),
    (
        SHORT,
        &[FALLING_2, LAST_1, RISING_3],
        &[1, i32::MIN, 1],
        None,
    ),
    (BIT_VEC_1024, &[RISING_2048], &[2048], Some(65_504)),
    (BYTE, &[], &[], Some(0)),
    (BYTE, &[FALLING_65536], &[65_535], Some(65_535)),
];

#[test]
fn indices_name_the_cell_by_rising_index(rt: HostRuntime) -> Result<(), Fail> {
    for &(leaf, dims, indices, wanted) in PLACES {
        let shape = Shape::new(leaf, dims).ok_or("a shape")?;
        assert!(rt; indices.len() <= shape.dims() as usize);
        assert_eq!(rt;
            shape.cell_at(indices),
            wanted,
            "{leaf:?} {dims:?} {indices:?}"
        );
    }
    Ok(())
}

/// Leaf, dimensions, cell, and its used bits.
const MASKS: &[(Leaf, &[Range], u32, u64)] = &[
    (LOGIC_VEC_33, &[FALLING_2, RISING_3], 11, 1),
    (LOGIC_VEC_33, &[FALLING_2, RISING_3], 10, 0xffff_ffff),
    (LOGIC_VEC_33, &[FALLING_2, RISING_3], 0, 0xffff_ffff),
    (BIT, &[RISING_3], 2, 1),
    (LOGIC, &[], 0, 1),
    (BYTE, &[RISING_3], 1, 0xff),
    (SHORT, &[], 0, 0xffff),
    (INT, &[FALLING_10], 9, 0xffff_ffff),
    (LONG, &[RISING_2], 1, u64::MAX),
    (BIT_VEC_1, &[], 0, 1),
    (BIT_VEC_8, &[], 0, 0xff),
    (BIT_VEC_64, &[], 1, 0xffff_ffff),
    (INTEGER, &[], 0, 0xffff_ffff),
];

#[test]
fn masks_are_the_bits_of_the_part(rt: HostRuntime) -> Result<(), Fail> {
    for &(leaf, dims, cell, wanted) in MASKS {
        let shape = Shape::new(leaf, dims).ok_or("a shape")?;
        assert!(rt; cell < shape.cells());
        assert_eq!(rt; shape.mask_at(cell), wanted, "{leaf:?} {dims:?} {cell}");
    }
    Ok(())
}

/// Two shapes, and whether the cells of the one can stand for those of the other.
const LAYOUTS: &[(Leaf, &[Range], Leaf, &[Range], bool)] = &[
    (BYTE, &[], BIT_VEC_8, &[], true),
    (INT, &[FALLING_2], BIT_VEC_32, &[FALLING_2], true),
    (LONG, &[], BIT_VEC_64, &[], false),
    (BIT, &[], BIT_VEC_1, &[], true),
    (BIT, &[], LOGIC, &[], false),
    (BIT_VEC_32, &[], INTEGER, &[], false),
    (INTEGER, &[RISING_3], INTEGER, &[RISING_3], true),
    (INT, &[FALLING_2], INT, &[RISING_2], false),
    (INT, &[FALLING_2], INT, &[RISING_3], false),
    (INT, &[FALLING_2], INT, &[], false),
    (
        INT,
        &[RISING_3, FALLING_2],
        INT,
        &[FALLING_2, RISING_3],
        false,
    ),
    (INT, &[LAST_1], INT, &[Range { left: 0, right: 0 }], true),
    (
        INT,
        &[FALLING_2],
        INT,
        &[Range {
            left: -7,
            right: -8,
        }],
        true,
    ),
    (BYTE, &[], SHORT, &[], false),
];

#[test]
fn layouts_are_alike_by_width_states_words_sizes_and_directions(
    rt: HostRuntime,
) -> Result<(), Fail> {
    for &(leaf, dims, other_leaf, other_dims, wanted) in LAYOUTS {
        let shape = Shape::new(leaf, dims).ok_or("a shape")?;
        let other = Shape::new(other_leaf, other_dims).ok_or("another shape")?;
        assert_eq!(rt; shape.same_layout(&other), wanted, "{shape:?} {other:?}");
        assert_eq!(rt; other.same_layout(&shape), wanted, "{other:?} {shape:?}");
    }
    Ok(())
}

#[test]
fn a_part_keeps_the_leaf_and_the_other_ranges(rt: HostRuntime) -> Result<(), Fail> {
    let whole = Shape::new(SHORT, &[FALLING_2, LAST_1, RISING_3]).ok_or("a shape")?;
    assert!(rt; 2 <= whole.dims());
    let part = whole.sub(2);
    assert_eq!(rt; Some(part), Shape::new(SHORT, &[RISING_3]));
    assert_eq!(rt;
        (part.leaf(), part.dims(), part.range(1)),
        (SHORT, 1, Some(RISING_3))
    );
    assert_eq!(rt; (part.range(0), part.range(2)), (None, None));
    assert_eq!(rt; whole.range(2), Some(LAST_1));
    Ok(())
}
