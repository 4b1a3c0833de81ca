//! Rows by the clauses of ISO C that each table names.
use c_base::{CBase, CType};
use c_tree::{AssignOperator, BinaryOperator, UnaryOperator};
use c_typing::{
    Form, Operand, Place, assignment, binary, cast, choice, converts, dot, index, number, step,
    unary,
};
use dpi_rules::Violation;

/// A base, whether it is const, and the stars.
type Row = (CBase, bool, u8);

const INT: Row = (CBase::Int, false, 0);

const UNSIGNED: Row = (CBase::UnsignedInt, false, 0);

const LONG: Row = (CBase::LongLong, false, 0);

const PAIR: Row = (CBase::LogicVec, false, 0);

const SCOPE: Row = (CBase::Scope, false, 0);

const HANDLE: Row = (CBase::Handle, false, 0);

const INTS: Row = (CBase::Int, false, 1);

const CONST_INTS: Row = (CBase::Int, true, 1);

const VOIDS: Row = (CBase::Void, false, 1);

const TEXTS: Row = (CBase::Char, false, 2);

const CONST_TEXTS: Row = (CBase::Char, true, 2);

fn of(row: Row) -> CType {
    CType {
        base: row.0,
        base_const: row.1,
        stars: row.2,
        inner_const: false,
    }
}

fn operand(row: Row, form: Form) -> Operand {
    Operand { of: of(row), form }
}

const PLACE: Place = Place { file: 2, token: 7 };

fn broken(rule: u8) -> Violation {
    Violation {
        file: 2,
        token: 7,
        rule,
    }
}

/// What an operation gives: a value, or a broken rule.
fn wanted(row: Option<Row>, rule: u8) -> (Option<Operand>, Option<Violation>) {
    match row {
        Some(row) => (Some(operand(row, Form::Value)), None),
        None => (None, Some(broken(rule))),
    }
}

/// The type of a value, the type to which it goes, and whether ISO C 6.5.16.1 lets it.
const CONVERSIONS: &[(Row, Row, bool)] = &[
    (INT, UNSIGNED, true),
    (INTS, CONST_INTS, true),
    (CONST_INTS, INTS, false),
    (CONST_INTS, VOIDS, false),
    (VOIDS, TEXTS, true),
    (TEXTS, CONST_TEXTS, false),
    (INT, INTS, false),
    (SCOPE, SCOPE, true),
    (SCOPE, HANDLE, false),
    (PAIR, PAIR, true),
];

#[test]
fn conversion_keeps_const_and_type(rt: HostRuntime) {
    for &(from, to, holds) in CONVERSIONS {
        let value = operand(from, Form::Value);
        assert!(rt; converts(value, of(to)) == holds, "{from:?} {to:?}");
    }
}

#[test]
fn zero_token_alone_is_null(rt: HostRuntime) {
    assert!(rt; converts(number(b"0x0uLL"), of(SCOPE)));
    assert!(rt; !converts(number(b"1"), of(SCOPE)));
    assert!(rt; !converts(c_typing::character(), of(INTS)));
    assert!(rt; converts(c_typing::null(), of(HANDLE)));
}

/// An operator, its operands, and the type that it gives, or None for rule 10
/// (ISO C 6.5.5 to 6.5.14).
const BINARIES: &[(BinaryOperator, Row, Row, Option<Row>)] = &[
    (BinaryOperator::Plus, INT, UNSIGNED, Some(UNSIGNED)),
    (BinaryOperator::Less, INT, UNSIGNED, Some(INT)),
    (BinaryOperator::Plus, INT, CONST_INTS, Some(CONST_INTS)),
    (BinaryOperator::Minus, INTS, CONST_INTS, Some(LONG)),
    (BinaryOperator::Minus, VOIDS, INT, None),
    (BinaryOperator::Less, INTS, VOIDS, None),
    (BinaryOperator::Equal, INTS, VOIDS, Some(INT)),
    (BinaryOperator::AndAnd, SCOPE, INT, None),
];

#[test]
fn operators_take_their_operands(rt: HostRuntime) {
    for &(operator, a, b, expected) in BINARIES {
        let mut found = None;
        let left = Some(operand(a, Form::Value));
        let right = Some(operand(b, Form::Value));
        let given = binary(PLACE, operator, left, right, &mut found);
        assert!(rt;
            (given, found) == wanted(expected, 10),
            "{operator:?} {a:?} {b:?}"
        );
    }
}

/// An operand, a prefix, and the rule that is broken, or 0 (ISO C 6.5.3).
const PREFIXES: &[(Row, Form, UnaryOperator, u8)] = &[
    (INTS, Form::Object(true), UnaryOperator::And, 0),
    (TEXTS, Form::Object(true), UnaryOperator::And, 22),
    (UNSIGNED, Form::Member(true), UnaryOperator::And, 14),
    (UNSIGNED, Form::Member(true), UnaryOperator::Increment, 0),
    (VOIDS, Form::Object(true), UnaryOperator::Increment, 10),
    (VOIDS, Form::Object(true), UnaryOperator::Star, 13),
];

#[test]
fn prefixes_refuse_by_their_rules(rt: HostRuntime) {
    for &(row, form, operator, rule) in PREFIXES {
        let mut found = None;
        let given = unary(PLACE, operator, Some(operand(row, form)), &mut found);
        let expected = if rule == 0 { None } else { Some(broken(rule)) };
        assert!(rt;
            given.is_some() == (rule == 0) && found == expected,
            "{row:?} {operator:?}"
        );
    }
}

#[test]
fn operand_without_type_is_passed_over(rt: HostRuntime) {
    let mut found = None;
    let text = Some(operand(TEXTS, Form::Value));
    assert!(rt; binary(PLACE, BinaryOperator::Star, text, None, &mut found).is_none());
    assert!(rt; index(PLACE, None, text, &mut found).is_none());
    assert!(rt; cast(PLACE, Some(of(SCOPE)), None, &mut found).is_none());
    assert!(rt; step(PLACE, None, &mut found).is_none());
    assert!(rt; dot(PLACE, b"x", None, &mut found).is_none());
    assert!(rt; found.is_none());
}

/// A target, an operator, the type of a value, and the rule that is broken, or 0 (ISO C 6.5.16).
const ASSIGNMENTS: &[(Row, Form, AssignOperator, Row, u8)] = &[
    (INT, Form::Object(true), AssignOperator::Plain, UNSIGNED, 0),
    (INTS, Form::Object(true), AssignOperator::Add, INT, 0),
    (INT, Form::Object(true), AssignOperator::Add, INTS, 10),
    (INTS, Form::Object(true), AssignOperator::Subtract, INTS, 10),
    (INT, Form::Value, AssignOperator::Plain, INT, 11),
    (INT, Form::Object(false), AssignOperator::Multiply, INT, 12),
];

#[test]
fn assignment_stores_into_objects(rt: HostRuntime) {
    for &(row, form, operator, value, rule) in ASSIGNMENTS {
        let mut found = None;
        let left = Some(operand(row, form));
        let right = Some(operand(value, Form::Value));
        let given = assignment(PLACE, PLACE, operator, left, right, &mut found);
        let expected = if rule == 0 { Some(row) } else { None };
        assert!(rt;
            (given, found) == wanted(expected, rule),
            "{row:?} {operator:?}"
        );
    }
}

/// Two branches, and the type of both, or None for rule 10 (ISO C 6.5.15).
const CHOICES: &[(Row, Row, Option<Row>)] = &[
    (INTS, CONST_INTS, Some(CONST_INTS)),
    (INTS, VOIDS, Some(VOIDS)),
    (SCOPE, SCOPE, Some(SCOPE)),
    (SCOPE, VOIDS, None),
];

#[test]
fn branches_go_together(rt: HostRuntime) {
    for &(a, b, expected) in CHOICES {
        let mut found = None;
        let condition = Some(operand(INT, Form::Value));
        let yes = Some(operand(a, Form::Value));
        let no = Some(operand(b, Form::Value));
        let given = choice(PLACE, PLACE, condition, yes, no, &mut found);
        assert!(rt; (given, found) == wanted(expected, 10), "{a:?} {b:?}");
    }
}
