//! Types and violations of wholes by those of their parts, by IEEE 1800-2017, Table 11-21, worked by
//! hand.

use crate::selects::{is_part, select_bits, select_index, variable};
use crate::{
    Binary, ExprType, Joint, Operand, Part, Selected, concatenated, conditional, number_operand,
    operated, prefixed, repeated,
};
use dpi_chain::Chain;
use dpi_rules::Violation;
use dpi_shape::{Leaf, Range, Shape};
use std::test::Fail;
use sv_shapes::VarKind;
use sv_tree::{BinaryOperator, UnaryOperator};

/// Bits of a width, signed or not, of four states or two.
type Packed = (u32, bool, bool);

fn packed(bits: Packed) -> Option<Operand> {
    let (width, signed, four) = bits;
    Some(Operand {
        of: ExprType::Bits {
            width,
            signed,
            four,
        },
        reach: None,
    })
}

/// The rule that was found, or 0.
fn rule_of(found: Option<Violation>) -> u8 {
    match found {
        Some(violation) => violation.rule,
        None => 0,
    }
}

fn type_of(operand: Option<Operand>) -> Option<ExprType> {
    match operand {
        Some(operand) => Some(operand.of),
        None => None,
    }
}

/// An operator, its operands, and the type of the whole, or None and the rule that is broken.
const OPERATORS: &[(BinaryOperator, Packed, Packed, Option<Packed>, u8)] = &[
    (
        BinaryOperator::Plus,
        (8, true, false),
        (16, true, false),
        Some((16, true, false)),
        0,
    ),
    (
        BinaryOperator::Minus,
        (8, true, true),
        (8, false, false),
        Some((8, false, true)),
        0,
    ),
    (
        BinaryOperator::Star,
        (64, true, false),
        (65, true, false),
        None,
        16,
    ),
    (
        BinaryOperator::Slash,
        (8, false, false),
        (8, false, false),
        Some((8, false, true)),
        0,
    ),
    (
        BinaryOperator::And,
        (8, true, false),
        (100, true, false),
        Some((100, true, false)),
        0,
    ),
    (
        BinaryOperator::ShiftLeft,
        (8, true, false),
        (100, false, true),
        Some((8, true, true)),
        0,
    ),
    (
        BinaryOperator::Less,
        (64, true, false),
        (8, true, true),
        Some((1, false, true)),
        0,
    ),
    (
        BinaryOperator::Less,
        (65, true, false),
        (8, true, false),
        None,
        16,
    ),
    (
        BinaryOperator::Equal,
        (100, true, false),
        (8, true, false),
        Some((1, false, false)),
        0,
    ),
    (
        BinaryOperator::CaseEqual,
        (8, true, true),
        (8, true, true),
        Some((1, false, false)),
        0,
    ),
    (
        BinaryOperator::AndAnd,
        (100, true, false),
        (8, true, true),
        Some((1, false, true)),
        0,
    ),
    (
        BinaryOperator::Xor,
        (1, false, false),
        (1, true, false),
        Some((1, false, false)),
        0,
    ),
];

#[test]
fn operators_give_types(rt: HostRuntime) {
    for &(operator, left, right, whole, rule) in OPERATORS {
        let mut found = None;
        let binary = Binary {
            file: 0,
            token: 1,
            operator,
        };
        let result = operated(binary, packed(left), packed(right), &mut found);
        let expected = match whole {
            Some(bits) => packed(bits),
            None => None,
        };
        assert_eq!(rt;
            type_of(result),
            type_of(expected),
            "{operator:?} {left:?} {right:?}"
        );
        assert_eq!(rt; rule_of(found), rule, "{operator:?} {left:?} {right:?}");
    }
}

/// What stands behind `a + b` of 32 bits, whose `+` is token 1: an operator, token 3, and a width;
/// and the token at which rule 16 is broken.
const CHAINS: &[(BinaryOperator, u32, Option<u32>)] = &[
    (BinaryOperator::Plus, 32, None),
    // both operators work at 100 bits
    (BinaryOperator::Plus, 100, Some(1)),
    (BinaryOperator::And, 100, Some(1)),
    (BinaryOperator::Equal, 100, Some(1)),
    // neither a shift amount nor an operand of `&&` is a context
    (BinaryOperator::ShiftLeft, 100, None),
    (BinaryOperator::AndAnd, 100, None),
];

fn part(width: u32) -> Part {
    Part {
        found: None,
        value: packed((width, true, false)),
    }
}

#[test]
fn contexts_reach_arithmetic(rt: HostRuntime) -> Result<(), Fail> {
    let sum = Binary {
        file: 0,
        token: 1,
        operator: BinaryOperator::Plus,
    };
    for &(operator, width, token) in CHAINS {
        let second = Binary {
            file: 0,
            token: 3,
            operator,
        };
        let chain = Chain::new(rt.alloc(), part(32)).with(rt.alloc(), sum, part(32))?;
        let whole = chain
            .with(rt.alloc(), second, part(width))?
            .value(rt.alloc())?;
        let expected = match token {
            Some(token) => Some(Violation {
                file: 0,
                token,
                rule: 16,
            }),
            None => None,
        };
        assert_eq!(rt; whole.found, expected, "{operator:?} {width}");
    }
    Ok(())
}

/// A prefix, its operand, and the type of the whole, or None and the rule that is broken.
const PREFIXES: &[(UnaryOperator, Packed, Option<Packed>, u8)] = &[
    (
        UnaryOperator::Minus,
        (8, true, false),
        Some((8, true, false)),
        0,
    ),
    (UnaryOperator::Plus, (65, true, false), None, 16),
    (
        UnaryOperator::Tilde,
        (65, true, true),
        Some((65, true, true)),
        0,
    ),
    (
        UnaryOperator::Not,
        (65, true, true),
        Some((1, false, true)),
        0,
    ),
    (
        UnaryOperator::Xor,
        (65, true, false),
        Some((1, false, false)),
        0,
    ),
];

#[test]
fn prefixes_give_types(rt: HostRuntime) {
    for &(operator, operand, whole, rule) in PREFIXES {
        let mut found = None;
        let result = prefixed(0, 1, operator, packed(operand), &mut found);
        let expected = match whole {
            Some(bits) => packed(bits),
            None => None,
        };
        assert_eq!(rt;
            type_of(result),
            type_of(expected),
            "{operator:?} {operand:?}"
        );
        assert_eq!(rt; rule_of(found), rule, "{operator:?} {operand:?}");
    }
}

/// Branches of a conditional with a condition of four states, and its type.
#[test]
fn conditionals_have_the_wider_branch(rt: HostRuntime) {
    let mut found = None;
    let result = conditional(
        0,
        1,
        packed((1, false, true)),
        packed((8, true, false)),
        packed((70, true, false)),
        &mut found,
    );
    assert_eq!(rt; type_of(result), type_of(packed((70, true, true))));
    assert_eq!(rt; found, None);
}

/// Widths of parts, whether the last is a number without a size, a count, and the width or the rule.
const JOINTS: &[([u32; 2], bool, Option<u32>, Option<u32>, u8)] = &[
    ([8, 3], false, Some(1), Some(11), 0),
    ([8, 3], false, Some(3), Some(33), 0),
    ([1000, 24], false, Some(1), Some(1024), 0),
    ([1000, 25], false, Some(1), None, 19),
    ([8, 32], true, Some(1), None, 19),
    ([8, 8], false, None, None, 19),
];

#[test]
fn concatenations_have_the_sum(rt: HostRuntime) {
    for &(widths, bare, count, width, rule) in JOINTS {
        let parts = [
            Joint {
                operand: packed((widths[0], true, false)),
                bare: false,
            },
            Joint {
                operand: packed((widths[1], true, false)),
                bare,
            },
        ];
        let mut found = None;
        let result = repeated(0, 1, count, &parts, &mut found);
        let expected = match width {
            Some(width) => packed((width, false, false)),
            None => None,
        };
        assert_eq!(rt; result, expected, "{widths:?} {count:?}");
        assert_eq!(rt; rule_of(found), rule, "{widths:?} {count:?}");
    }
    let mut found = None;
    let parts = [
        Joint {
            operand: None,
            bare: false,
        },
        Joint {
            operand: packed((32, true, false)),
            bare: true,
        },
    ];
    assert_eq!(rt; concatenated(0, 1, &parts, &mut found), None);
    assert_eq!(rt; found, None, "a part has no type");
}

/// A declared range, the bounds of a part, and whether it can be selected.
const PARTS: &[([i32; 2], [i32; 2], bool)] = &[
    ([7, 0], [3, 0], true),
    ([7, 0], [0, 3], false),
    ([0, 7], [2, 5], true),
    ([0, 7], [5, 2], false),
    ([7, 0], [8, 4], false),
    ([7, 0], [4, 4], true),
    ([-1, -4], [-2, -4], true),
];

#[test]
fn parts_stand_in_the_declared_direction(rt: HostRuntime) {
    for &(range, bounds, fits) in PARTS {
        let range = Range {
            left: range[0],
            right: range[1],
        };
        let part = Range {
            left: bounds[0],
            right: bounds[1],
        };
        assert_eq!(rt; is_part(range, part), fits, "{range:?} {part:?}");
    }
}

/// How often a variable of 4 by 2 elements is indexed, and the type, or None and the rule.
const INDICES: [(u8, Option<ExprType>, u8); 3] = [
    (
        2,
        Some(ExprType::Bits {
            width: 16,
            signed: true,
            four: false,
        }),
        0,
    ),
    (
        3,
        Some(ExprType::Bits {
            width: 1,
            signed: false,
            four: false,
        }),
        0,
    ),
    (4, None, 18),
];

#[test]
fn indices_step_into_arrays_and_elements(rt: HostRuntime) {
    let dims = [Range { left: 0, right: 3 }, Range { left: 1, right: 0 }];
    let Some(shape) = Shape::new(Leaf::Short { signed: true }, &dims) else {
        assert!(rt; false, "a shape within the limits");
        return;
    };
    for (count, whole, rule) in INDICES {
        let mut found = None;
        let mut selected = Some(variable(&VarKind::Cells(shape)));
        for _ in 0..count {
            selected = select_index(0, 1, selected, number_index(), &mut found);
        }
        assert_eq!(rt; type_of(crate::read(selected)), whole, "{count}");
        assert_eq!(rt; rule_of(found), rule, "{count}");
    }
    let mut found = None;
    let scalar = Some(Selected::Text);
    assert_eq!(rt;
        select_bits(0, 1, scalar, number_index(), Some(4), &mut found),
        None
    );
    assert_eq!(rt; rule_of(found), 18, "a string has no parts");
}

fn number_index() -> Option<Operand> {
    Some(number_operand(b"2"))
}
