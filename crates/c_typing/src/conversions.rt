//! Conversions of a value without a cast, and conditions (ISO C 6.3 and 6.5.16.1).
ghost use Rattle.std.specs.Prelude.{◌≡◌};
ghost use Rattle.dpi_rules.specs.Least.{noted};
ghost use Rattle.c_typing.specs.Conversions as spec;

use crate::operand::Operand;
use crate::place::{Place, note_rule, unless};
use crate::pointers::{
    is_base, is_opaque, is_scalar, is_void_pointer, points_alike, points_to_const,
};
use c_base::{CBase, CType};
use dpi_rules::Violation;

/// Whether what is pointed to is const where it was.
pub(crate) fn keeps_const(s: CType, t: CType) -> bool
    ensures { result ≡ spec.keeps_const s t }
{
    !points_to_const(s) || points_to_const(t)
}

fn pointer_converts(s: CType, t: CType) -> bool
    ensures { result ≡ spec.pointer_converts s t }
{
    let fits = points_alike(s, t) || is_void_pointer(s) || is_void_pointer(t);
    keeps_const(s, t) && fits
}

/// Whether both are `svScope`, or both `svOpenArrayHandle`.
pub(crate) fn same_opaque(s: CType, t: CType) -> bool
    ensures { result ≡ spec.same_opaque s t }
{
    let handles = is_base(CBase::Handle, s) && is_base(CBase::Handle, t);
    handles || (is_base(CBase::Scope, s) && is_base(CBase::Scope, t))
}

/// Whether both are pairs.
pub(crate) fn both_pairs(s: CType, t: CType) -> bool
    ensures { result ≡ spec.both_pairs s t }
{
    is_base(CBase::LogicVec, s) && is_base(CBase::LogicVec, t)
}

fn type_converts(s: CType, t: CType) -> bool
    ensures { result ≡ spec.type_converts s t }
{
    if s.is_number() {
        return t.is_number();
    }
    if s.is_pointer() {
        return t.is_pointer() && pointer_converts(s, t);
    }
    same_opaque(s, t) || both_pairs(s, t)
}

fn takes_null(t: CType) -> bool
    ensures { result ≡ spec.takes_null t }
{
    t.is_pointer() || is_opaque(t)
}

/// Whether a value converts to the type without a cast: a number to a number; a pointer to one of
/// the same type, the const of what is pointed to aside, or from and to `void *`, where no const is
/// dropped; 0 and NULL to a pointer and an opaque type; a pair and an opaque type to itself
/// (ISO C 6.3.2.3 and 6.5.16.1).
pub fn converts(value: Operand, to: CType) -> bool
    ensures { result ≡ spec.converts value to }
{
    (value.is_null() && takes_null(to)) || type_converts(value.of, to)
}

/// Notes rule 9 at the first token of a value that doesn't convert to the type. Nothing is looked at
/// where either has no type.
pub fn note_conversion(
    place: Place,
    value: Option<Operand>,
    to: Option<CType>,
    found: &mut Option<Violation>,
)
    ensures { found.new ≡ noted found.old (spec.conversion place value to) }
{
    if let (Some(value), Some(to)) = (value, to) {
        note_rule(place, unless(converts(value, to), 9), found);
    }
}

/// Notes rule 25 at the first token of a condition that is neither a number nor a pointer
/// (ISO C 6.8.4.1, 6.8.5 and 6.5.15).
pub fn note_condition(place: Place, condition: Option<Operand>, found: &mut Option<Violation>)
    ensures { found.new ≡ noted found.old (spec.condition place condition) }
{
    if let Some(condition) = condition {
        note_rule(place, unless(is_scalar(condition.of), 25), found);
    }
}
