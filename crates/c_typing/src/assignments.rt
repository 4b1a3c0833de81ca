//! Assignments (ISO C 6.5.16).
ghost use Rattle.std.specs.Prelude.{◌≡◌};
ghost use Rattle.dpi_rules.specs.Least.{noted};
ghost use Rattle.c_typing.specs.Assigning as spec;

use crate::conversions::converts;
use crate::operand::Operand;
use crate::place::{Place, judged, note_rule, or_else, unless};
use crate::pointers::{bare, is_cell_pointer};
use crate::unaries::store_rule;
use c_base::CType;
use c_tree::AssignOperator;
use dpi_rules::Violation;

/// What an assignment to the operand gives.
fn assigned(a: Operand) -> Operand
    ensures { result ≡ spec.assigned a }
{
    Operand::value(bare(a.of))
}

/// `=`, by its place and that of the first token of the value.
fn stored(
    place: Place,
    at: Place,
    a: Operand,
    b: Operand,
    found: &mut Option<Violation>,
) -> Option<Operand>
    ensures value { result ≡ (spec.stored place at a b).value }
    ensures found { found.new ≡ noted found.old (spec.stored place at a b).found }
{
    let conversion = unless(converts(b, a.of), 9);
    note_rule(place, store_rule(a), found);
    note_rule(at, conversion, found);
    match or_else(store_rule(a), conversion) {
        None => Some(assigned(a)),
        Some(_) => None,
    }
}

fn is_additive(operator: AssignOperator) -> bool
    ensures { result ≡ spec.is_additive operator }
{
    matches!(operator, AssignOperator::Add | AssignOperator::Subtract)
}

fn takes_into(operator: AssignOperator, s: CType, t: CType) -> bool
    ensures { result ≡ spec.takes_into operator s t }
{
    let takes = s.is_number() || (is_additive(operator) && is_cell_pointer(s));
    t.is_number() && takes
}

/// The rule that `op=` breaks.
fn update_rule(operator: AssignOperator, a: Operand, b: Operand) -> Option<u8>
    ensures { result ≡ spec.update_rule operator a b }
{
    or_else(unless(takes_into(operator, a.of, b.of), 10), store_rule(a))
}

fn assigned_by(
    place: Place,
    at: Place,
    operator: AssignOperator,
    a: Operand,
    b: Operand,
    found: &mut Option<Violation>,
) -> Option<Operand>
    ensures value { result ≡ (spec.assigned_by place at operator a b).value }
    ensures found { found.new ≡ noted found.old (spec.assigned_by place at operator a b).found }
{
    match operator {
        AssignOperator::Plain => stored(place, at, a, b, found),
        _ => judged(place, update_rule(operator, a, b), assigned(a), found),
    }
}

/// One assignment, by the places of its operator and of the first token of its value: a value of the
/// left side's type, without its const. At the operator, rule 11 is broken where the left side is no
/// object, rule 12 where it is const, and rule 10 by `op=` of anything but two numbers or, at `+=` and
/// `-=`, a pointer to cells and a number. At the value, rule 9 is broken by `=` of one that doesn't
/// convert. None where a rule is broken, or a side has no type; then nothing is looked at
/// (ISO C 6.5.16).
pub fn assignment(
    place: Place,
    at: Place,
    operator: AssignOperator,
    left: Option<Operand>,
    right: Option<Operand>,
    found: &mut Option<Violation>,
) -> Option<Operand>
    ensures value { result ≡ (spec.assignment place at operator left right).value }
    ensures found { found.new ≡ noted found.old (spec.assignment place at operator left right).found }
{
    let Some(a) = left else {
        return None;
    };
    let Some(b) = right else {
        return None;
    };
    assigned_by(place, at, operator, a, b, found)
}
