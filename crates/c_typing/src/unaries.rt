//! Prefixes of an operand (ISO C 6.5.3).
ghost use Rattle.std.specs.Prelude.{◌≡◌};
ghost use Rattle.dpi_rules.specs.Least.{noted};
ghost use Rattle.c_typing.specs.Operands.{target};
ghost use Rattle.c_typing.specs.Unary as spec;

use crate::operand::{Operand, plain_value};
use crate::place::{Place, judged, or_else, unless};
use crate::pointers::{bare, is_cell_pointer, is_scalar, pointed, pointer_to, points_to_const};
use c_base::{CBase, CType};
use c_tree::UnaryOperator;
use dpi_rules::Violation;

/// The rule that a store into the operand breaks: 11 where it is no object, 12 where it is const.
pub(crate) fn store_rule(a: Operand) -> Option<u8>
    ensures { result ≡ spec.store_rule a }
{
    or_else(unless(a.is_object(), 11), unless(a.is_writable(), 12))
}

fn is_steppable(of: CType) -> bool
    ensures { result ≡ spec.is_steppable of }
{
    of.is_number() || is_cell_pointer(of)
}

/// The rule that `++` or `--` of the operand breaks.
fn step_rule(a: Operand) -> Option<u8>
    ensures { result ≡ spec.step_rule a }
{
    or_else(unless(is_steppable(a.of), 10), store_rule(a))
}

/// `++` or `--`, before or behind its operand, by the place of the operator: a value of the
/// object's type (ISO C 6.5.2.4 and 6.5.3.1). Rule 10 is broken at anything but a number and a
/// pointer to cells, rule 11 at what isn't an object, rule 12 at a const one. None where a rule is
/// broken or the operand has no type.
pub fn step(
    place: Place,
    operand: Option<Operand>,
    found: &mut Option<Violation>,
) -> Option<Operand>
    ensures value { result ≡ (spec.step place operand).value }
    ensures found { found.new ≡ noted found.old (spec.step place operand).found }
{
    let Some(a) = operand else {
        return None;
    };
    judged(place, step_rule(a), Operand::value(bare(a.of)), found)
}

fn member_rule(a: Operand) -> Option<u8>
    ensures { result ≡ spec.member_rule a }
{
    unless(!a.is_member(), 14)
}

/// The rule that `&` of the operand breaks.
fn address_rule(a: Operand) -> Option<u8>
    ensures { result ≡ spec.address_rule a }
{
    let stars = unless(a.of.stars != 2, 22);
    or_else(unless(a.is_object(), 11), or_else(member_rule(a), stars))
}

fn address_of(a: Operand) -> Operand
    ensures { result ≡ spec.address_of a }
{
    Operand::value(pointer_to(a.of, !a.is_writable()))
}

/// The object that a pointer points to.
pub(crate) fn target(of: CType) -> Operand
    ensures { result ≡ target of }
{
    Operand::object(pointed(of), points_to_const(of))
}

fn unary_rule(operator: UnaryOperator, a: Operand) -> Option<u8>
    ensures { result ≡ spec.unary_rule operator a }
{
    match operator {
        UnaryOperator::Plus | UnaryOperator::Minus | UnaryOperator::Tilde => {
            unless(a.of.is_number(), 10)
        }
        UnaryOperator::Not => unless(is_scalar(a.of), 10),
        UnaryOperator::Star => unless(is_cell_pointer(a.of), 13),
        UnaryOperator::And => address_rule(a),
        UnaryOperator::Increment | UnaryOperator::Decrement => step_rule(a),
    }
}

fn unary_value(operator: UnaryOperator, a: Operand) -> Operand
    ensures { result ≡ spec.unary_value operator a }
{
    match operator {
        UnaryOperator::Plus | UnaryOperator::Minus | UnaryOperator::Tilde => {
            plain_value(a.of.base.promoted())
        }
        UnaryOperator::Not => plain_value(CBase::Int),
        UnaryOperator::Star => target(a.of),
        UnaryOperator::And => address_of(a),
        UnaryOperator::Increment | UnaryOperator::Decrement => Operand::value(bare(a.of)),
    }
}

/// An operand behind one prefix, by the place of the prefix.
/// - `+`, `-` and `~` take a number and give its promoted type, `!` takes a number or a pointer and
///   gives an `int`; another operand breaks rule 10.
/// - `*` takes a pointer to cells and gives the object that it points to; another operand breaks
///   rule 13.
/// - `&` takes an object and gives the pointer to it, one to const where the object may not be stored
///   into. What isn't an object breaks rule 11, a member rule 14, an object with two stars rule 22.
/// - `++` and `--` are as in `step`.
///
/// None where a rule is broken or the operand has no type (ISO C 6.5.3).
pub fn unary(
    place: Place,
    operator: UnaryOperator,
    operand: Option<Operand>,
    found: &mut Option<Violation>,
) -> Option<Operand>
    ensures value { result ≡ (spec.unary place operator operand).value }
    ensures found { found.new ≡ noted found.old (spec.unary place operator operand).found }
{
    let Some(a) = operand else {
        return None;
    };
    judged(
        place,
        unary_rule(operator, a),
        unary_value(operator, a),
        found,
    )
}
