//! Operators between two operands (ISO C 6.5.5 to 6.5.14).
ghost use Rattle.std.specs.Prelude.{◌≡◌};
ghost use Rattle.dpi_rules.specs.Least.{noted};
ghost use Rattle.c_typing.specs.Binary as spec;

use crate::conversions::same_opaque;
use crate::operand::{Operand, plain_value};
use crate::place::{Place, judged, unless};
use crate::pointers::{is_cell_pointer, is_opaque, is_scalar, is_void_pointer, points_alike};
use c_base::{CBase, CType};
use c_tree::BinaryOperator;
use dpi_rules::Violation;

/// How strongly an operator binds, from 1 for `||` up to 10 for `*` (ISO C 6.5).
pub fn rank(operator: BinaryOperator) -> u32
    ensures { result ≡ spec.rank operator }
{
    match operator {
        BinaryOperator::OrOr => 1,
        BinaryOperator::AndAnd => 2,
        BinaryOperator::Or => 3,
        BinaryOperator::Xor => 4,
        BinaryOperator::And => 5,
        BinaryOperator::Equal | BinaryOperator::NotEqual => 6,
        BinaryOperator::Less
        | BinaryOperator::LessOrEqual
        | BinaryOperator::Greater
        | BinaryOperator::GreaterOrEqual => 7,
        BinaryOperator::ShiftLeft | BinaryOperator::ShiftRight => 8,
        BinaryOperator::Plus | BinaryOperator::Minus => 9,
        BinaryOperator::Star | BinaryOperator::Slash | BinaryOperator::Percent => 10,
    }
}

pub(crate) fn both_numbers(s: CType, t: CType) -> bool
    ensures { result ≡ spec.both_numbers s t }
{
    s.is_number() && t.is_number()
}

fn moves(s: CType, t: CType) -> bool
    ensures { result ≡ spec.moves s t }
{
    is_cell_pointer(s) && t.is_number()
}

fn adds(s: CType, t: CType) -> bool
    ensures { result ≡ spec.adds s t }
{
    both_numbers(s, t) || moves(s, t) || moves(t, s)
}

fn subtracts_pointers(s: CType, t: CType) -> bool
    ensures { result ≡ spec.subtracts_pointers s t }
{
    is_cell_pointer(s) && is_cell_pointer(t) && points_alike(s, t)
}

fn subtracts(s: CType, t: CType) -> bool
    ensures { result ≡ spec.subtracts s t }
{
    both_numbers(s, t) || moves(s, t) || subtracts_pointers(s, t)
}

pub(crate) fn pointers_alike(s: CType, t: CType) -> bool
    ensures { result ≡ spec.pointers_alike s t }
{
    s.is_pointer() && t.is_pointer() && points_alike(s, t)
}

fn orders(s: CType, t: CType) -> bool
    ensures { result ≡ spec.orders s t }
{
    both_numbers(s, t) || pointers_alike(s, t)
}

/// Whether both are pointers, one of them to `void`.
pub(crate) fn meets_void(s: CType, t: CType) -> bool
    ensures { result ≡ spec.meets_void s t }
{
    let void = is_void_pointer(s) || is_void_pointer(t);
    s.is_pointer() && t.is_pointer() && void
}

fn null_with(a: Operand, t: CType) -> bool
    ensures { result ≡ spec.null_with a t }
{
    let takes = t.is_pointer() || is_opaque(t);
    a.is_null() && takes
}

fn equals(a: Operand, b: Operand) -> bool
    ensures { result ≡ spec.equals a b }
{
    let alike = orders(a.of, b.of) || meets_void(a.of, b.of);
    let nulls = null_with(a, b.of) || null_with(b, a.of);
    let others = same_opaque(a.of, b.of) || nulls;
    alike || others
}

fn both_scalars(s: CType, t: CType) -> bool
    ensures { result ≡ spec.both_scalars s t }
{
    is_scalar(s) && is_scalar(t)
}

/// Whether the operator takes these operands.
pub(crate) fn takes(operator: BinaryOperator, a: Operand, b: Operand) -> bool
    ensures { result ≡ spec.takes operator a b }
{
    match operator {
        BinaryOperator::Plus => adds(a.of, b.of),
        BinaryOperator::Minus => subtracts(a.of, b.of),
        BinaryOperator::Less
        | BinaryOperator::LessOrEqual
        | BinaryOperator::Greater
        | BinaryOperator::GreaterOrEqual => orders(a.of, b.of),
        BinaryOperator::Equal | BinaryOperator::NotEqual => equals(a, b),
        BinaryOperator::AndAnd | BinaryOperator::OrOr => both_scalars(a.of, b.of),
        _ => both_numbers(a.of, b.of),
    }
}

fn sum_type(a: Operand, b: Operand) -> Operand
    ensures { result ≡ spec.sum_type a b }
{
    if a.of.is_pointer() {
        Operand::value(a.of)
    } else if b.of.is_pointer() {
        Operand::value(b.of)
    } else {
        plain_value(a.of.base.common(b.of.base))
    }
}

fn difference_type(a: Operand, b: Operand) -> Operand
    ensures { result ≡ spec.difference_type a b }
{
    if b.of.is_pointer() {
        plain_value(CBase::LongLong)
    } else {
        sum_type(a, b)
    }
}

/// What the operator gives of operands that it takes.
fn gives(operator: BinaryOperator, a: Operand, b: Operand) -> Operand
    ensures { result ≡ spec.gives operator a b }
{
    match operator {
        BinaryOperator::Plus => sum_type(a, b),
        BinaryOperator::Minus => difference_type(a, b),
        BinaryOperator::ShiftLeft | BinaryOperator::ShiftRight => {
            plain_value(a.of.base.promoted())
        }
        BinaryOperator::Less
        | BinaryOperator::LessOrEqual
        | BinaryOperator::Greater
        | BinaryOperator::GreaterOrEqual
        | BinaryOperator::Equal
        | BinaryOperator::NotEqual
        | BinaryOperator::AndAnd
        | BinaryOperator::OrOr => plain_value(CBase::Int),
        _ => plain_value(a.of.base.common(b.of.base)),
    }
}

/// Two operands with an operator between, by the operator's place.
/// - `*`, `/`, `%`, `&`, `^` and `|` take numbers and give their common type; `<<` and `>>` give the
///   promoted type of the left one.
/// - `+` and `-` take numbers too, and a pointer to cells beside a number, which gives the pointer;
///   `-` also two pointers to cells of one type, which gives a `long long`.
/// - Orderings take two numbers, or two pointers to one type. Equalities take these too, two pointers
///   with a `void *` among them, an opaque type with itself, and 0 or NULL with a pointer or an
///   opaque type. `&&` and `||` take numbers and pointers. All these give an `int`.
///
/// Other operands break rule 10. None where it is broken, or an operand has no type
/// (ISO C 6.5.5 to 6.5.14).
pub fn binary(
    place: Place,
    operator: BinaryOperator,
    left: Option<Operand>,
    right: Option<Operand>,
    found: &mut Option<Violation>,
) -> Option<Operand>
    ensures value { result ≡ (spec.binary place operator left right).value }
    ensures found { found.new ≡ noted found.old (spec.binary place operator left right).found }
{
    let Some(a) = left else {
        return None;
    };
    let Some(b) = right else {
        return None;
    };
    judged(
        place,
        unless(takes(operator, a, b), 10),
        gives(operator, a, b),
        found,
    )
}
