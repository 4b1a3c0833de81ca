//! Casts (ISO C 6.5.4).
ghost use Rattle.std.specs.Prelude.{◌≡◌};
ghost use Rattle.dpi_rules.specs.Least.{noted};
ghost use Rattle.c_typing.specs.Casts as spec;

use crate::conversions::keeps_const;
use crate::operand::Operand;
use crate::place::{Place, judged, unless};
use crate::pointers::{bare, is_base};
use c_base::{CBase, CType};
use dpi_rules::Violation;

/// Whether the base below two stars on both sides is const where it was.
fn keeps_base_const(s: CType, t: CType) -> bool
    ensures { result ≡ spec.keeps_base_const s t }
{
    let both = s.stars == 2 && t.stars == 2;
    !both || !s.base_const || t.base_const
}

fn scalar_casts(s: CType, t: CType) -> bool
    ensures { result ≡ spec.scalar_casts s t }
{
    let numbers = s.is_number() && t.is_number();
    let pointers = s.is_pointer() && t.is_pointer();
    let keeps = keeps_const(s, t) && keeps_base_const(s, t);
    numbers || (pointers && keeps)
}

fn is_uncastable(of: CType) -> bool
    ensures { result ≡ spec.is_uncastable of }
{
    is_base(CBase::LogicVec, of) || is_base(CBase::Void, of)
}

fn cast_rule(s: CType, t: CType) -> Option<u8>
    ensures { result ≡ spec.cast_rule s t }
{
    if is_base(CBase::Void, t) {
        return None;
    }
    if is_uncastable(s) || is_base(CBase::LogicVec, t) {
        return Some(10);
    }
    unless(scalar_casts(s, t), 18)
}

/// A cast, by the place of its `(`: a value of the type, without a const of its own. Numbers are
/// cast to numbers, pointers to pointers where no const is dropped, at what is pointed to and, with
/// two stars on both sides, at the base; anything to `void`. Rule 10 is broken by any other cast
/// from or to a pair and of a `void` value, rule 18 by one between pointer and number, to or from an
/// opaque type, or one that drops const. None where a rule is broken, or where the type or the value
/// has none; then nothing is looked at.
pub fn cast(
    place: Place,
    to: Option<CType>,
    value: Option<Operand>,
    found: &mut Option<Violation>,
) -> Option<Operand>
    ensures value { result ≡ (spec.cast place to value).value }
    ensures found { found.new ≡ noted found.old (spec.cast place to value).found }
{
    let Some(to) = to else {
        return None;
    };
    let Some(value) = value else {
        return None;
    };
    judged(
        place,
        cast_rule(value.of, to),
        Operand::value(bare(to)),
        found,
    )
}
