//! Uses of expressions with the rules that they break, by IEEE 1800-2017, worked by hand.

use dpi_rules::Violation;
use dpi_shape::{Leaf, Range, Shape};
use std::test::Fail;
use sv_contexts::{
    Shown, note_assigned, note_case, note_computed, note_condition, note_count, note_format,
    note_pattern, part_target,
};
use sv_tree::AssignOperator;
use sv_typing::{ExprType, Operand};

const BYTE: ExprType = ExprType::Bits {
    width: 8,
    signed: true,
    four: false,
};

const WIDE: ExprType = ExprType::Bits {
    width: 100,
    signed: false,
    four: true,
};

/// An expression of a type, with a `+` at token 9 of file 0.
fn sum(of: ExprType) -> Option<Operand> {
    Some(Operand {
        of,
        reach: Some(Violation {
            file: 0,
            token: 9,
            rule: 16,
        }),
    })
}

/// The token and the rule that were found, or 0 and 0.
fn place_of(found: Option<Violation>) -> (u32, u8) {
    match found {
        Some(violation) => (violation.token, violation.rule),
        None => (0, 0),
    }
}

/// A target, the type of a sum that is assigned to it, and what is found for the value's token 5.
const ASSIGNED: [(ExprType, ExprType, (u32, u8)); 6] = [
    (BYTE, BYTE, (0, 0)),
    (WIDE, BYTE, (9, 16)),
    (BYTE, ExprType::Text, (5, 17)),
    (ExprType::Text, ExprType::Text, (0, 0)),
    (ExprType::Chandle, BYTE, (5, 17)),
    (ExprType::Chandle, ExprType::Chandle, (0, 0)),
];

#[test]
fn assignments_widen_and_need_one_kind(rt: HostRuntime) {
    for &(target, value, place) in ASSIGNED.iter() {
        let mut found = None;
        note_assigned(0, 5, Some(target), sum(value), &mut found);
        assert_eq!(rt; place_of(found), place, "{target:?} {value:?}");
        let mut found = None;
        note_assigned(0, 5, Some(target), None, &mut found);
        assert_eq!(rt; found, None, "{target:?} of a value without a type");
    }
}

/// Elements and dimensions of two arrays, and whether they fit each other.
const ARRAYS: &[(Leaf, [i32; 2], Leaf, [i32; 2], bool)] = &[
    (
        Leaf::Byte { signed: true },
        [0, 3],
        Leaf::Byte { signed: true },
        [7, 4],
        true,
    ),
    (
        Leaf::Byte { signed: true },
        [0, 3],
        Leaf::Byte { signed: true },
        [0, 4],
        false,
    ),
    (
        Leaf::Byte { signed: true },
        [0, 3],
        Leaf::Byte { signed: false },
        [0, 3],
        false,
    ),
    (
        Leaf::Bit { signed: false },
        [0, 3],
        Leaf::Logic { signed: false },
        [0, 3],
        false,
    ),
    (
        Leaf::Int { signed: true },
        [0, 3],
        Leaf::Long { signed: true },
        [0, 3],
        false,
    ),
];

fn array(leaf: Leaf, bounds: [i32; 2]) -> Option<ExprType> {
    let range = Range {
        left: bounds[0],
        right: bounds[1],
    };
    match Shape::new(leaf, &[range]) {
        Some(shape) => Some(ExprType::Array { shape, taken: 0 }),
        None => None,
    }
}

#[test]
fn arrays_fit_by_size_and_element(rt: HostRuntime) {
    for &(leaf, bounds, other, others, fits) in ARRAYS {
        let value = match array(other, others) {
            Some(of) => Some(Operand { of, reach: None }),
            None => None,
        };
        let mut found = None;
        note_assigned(0, 5, array(leaf, bounds), value, &mut found);
        let place = if fits { (0, 0) } else { (5, 14) };
        assert_eq!(rt;
            place_of(found),
            place,
            "{leaf:?} {bounds:?} {other:?} {others:?}"
        );
    }
}

/// An assignment operator at token 3, its target and its value, a sum, and what is found.
const COMPUTED: [(AssignOperator, ExprType, ExprType, (u32, u8)); 5] = [
    (AssignOperator::Add, BYTE, BYTE, (0, 0)),
    (AssignOperator::Add, WIDE, BYTE, (3, 16)),
    (AssignOperator::Xor, WIDE, BYTE, (9, 16)),
    (AssignOperator::ShiftLeft, WIDE, BYTE, (0, 0)),
    (AssignOperator::Add, ExprType::Text, BYTE, (3, 15)),
];

#[test]
fn assignment_operators_compute(rt: HostRuntime) {
    for &(operator, target, value, place) in COMPUTED.iter() {
        let mut found = None;
        let target = Some(Operand {
            of: target,
            reach: None,
        });
        note_computed(0, 3, operator, target, sum(value), &mut found);
        assert_eq!(rt; place_of(found), place, "{operator:?} {target:?} {value:?}");
    }
}

/// Parts of a pattern at token 2 for an array of four bytes, and what is found.
#[test]
fn patterns_have_a_part_for_each_index(rt: HostRuntime) {
    let target = array(Leaf::Byte { signed: true }, [3, 0]);
    for &(parts, place) in [(4, (0, 0)), (3, (2, 30))].iter() {
        let mut found = None;
        note_pattern(0, 2, target, parts, &mut found);
        assert_eq!(rt; place_of(found), place, "{parts}");
    }
    assert_eq!(rt; part_target(target), Some(BYTE));
    let mut found = None;
    note_pattern(0, 2, Some(BYTE), 4, &mut found);
    assert_eq!(rt; place_of(found), (2, 30), "no array");
}

/// A type, and whether it can be a condition and a count.
const CONDITIONS: [(ExprType, bool, bool); 3] = [
    (WIDE, true, true),
    (ExprType::Chandle, true, false),
    (ExprType::Text, false, false),
];

#[test]
fn conditions_are_packed_or_chandles(rt: HostRuntime) {
    for &(of, condition, count) in CONDITIONS.iter() {
        let mut found = None;
        note_condition(0, 7, sum(of), &mut found);
        assert_eq!(rt; found.is_none(), condition, "{of:?}");
        let mut found = None;
        note_count(0, 7, sum(of), &mut found);
        assert_eq!(rt; found.is_none(), count, "{of:?}");
    }
}

/// The types of a case's expression, a sum, and of its items, and what is found at its token 1.
const CASES: [(ExprType, [Option<ExprType>; 2], (u32, u8)); 5] = [
    (BYTE, [Some(BYTE), Some(BYTE)], (0, 0)),
    (BYTE, [Some(BYTE), Some(WIDE)], (9, 16)),
    (ExprType::Text, [Some(ExprType::Text), None], (0, 0)),
    (BYTE, [Some(ExprType::Text), None], (1, 25)),
    (ExprType::Chandle, [Some(ExprType::Chandle), None], (1, 25)),
];

fn plain(of: Option<ExprType>) -> Option<Operand> {
    match of {
        Some(of) => Some(Operand { of, reach: None }),
        None => None,
    }
}

#[test]
fn cases_widen_all(rt: HostRuntime) {
    for &(expression, items, place) in CASES.iter() {
        let mut found = None;
        let values = [sum(expression), plain(items[0]), plain(items[1])];
        note_case(0, 1, &values, &mut found);
        assert_eq!(rt; place_of(found), place, "{expression:?} {items:?}");
    }
}

/// A format at token 4, the types of its arguments at tokens 6 and 8, and what is found.
const FORMATS: [(&[u8], [Option<ExprType>; 2], (u32, u8)); 6] = [
    (b"\"%d %s\"", [Some(BYTE), Some(ExprType::Text)], (0, 0)),
    (b"\"%h %0d\"", [Some(WIDE), Some(WIDE)], (8, 16)),
    (b"\"%d %d\"", [Some(ExprType::Text), None], (4, 24)),
    (b"\"%d\"", [Some(BYTE), Some(BYTE)], (4, 24)),
    (b"\"%d %q\"", [Some(BYTE), Some(BYTE)], (4, 24)),
    (b"\"%b %%%x\"", [None, Some(BYTE)], (0, 0)),
];

#[test]
fn formats_show_what_fits(rt: HostRuntime) -> Result<(), Fail> {
    for &(bytes, types, place) in FORMATS.iter() {
        let args = [
            Shown {
                token: 6,
                operand: plain(types[0]),
            },
            Shown {
                token: 8,
                operand: plain(types[1]),
            },
        ];
        let mut found = None;
        note_format(rt.alloc(), 0, 4, bytes, &args, &mut found)?;
        assert_eq!(rt; place_of(found), place, "{bytes:?} {types:?}");
    }
    Ok(())
}
