//! Suffixes of an operand: indices and members (ISO C 6.5.2).
ghost use Rattle.std.specs.Prelude.{◌≡◌};
ghost use Rattle.dpi_rules.specs.Least.{noted};
ghost use Rattle.c_typing.specs.Postfix as spec;

use crate::operand::{Form, Operand};
use crate::place::{Place, judged, or_else, unless};
use crate::pointers::{is_base, is_cell_pointer};
use crate::unaries::target;
use c_base::{CBase, CType};
use dpi_rules::Violation;

fn index_rule(a: Operand, i: Operand) -> Option<u8>
    ensures { result ≡ spec.index_rule a i }
{
    or_else(
        unless(i.of.is_number(), 10),
        unless(is_cell_pointer(a.of), 13),
    )
}

/// An operand with an index behind it, by the place of the `[`: the cell (ISO C 6.5.2.1). Rule 10 is
/// broken where the index is no number, rule 13 where the operand is no pointer to cells. None where
/// a rule is broken, or either has no type.
pub fn index(
    place: Place,
    operand: Option<Operand>,
    index: Option<Operand>,
    found: &mut Option<Violation>,
) -> Option<Operand>
    ensures value { result ≡ (spec.index place operand index).value }
    ensures found { found.new ≡ noted found.old (spec.index place operand index).found }
{
    let Some(a) = operand else {
        return None;
    };
    let Some(i) = index else {
        return None;
    };
    judged(place, index_rule(a, i), target(a.of), found)
}

/// Whether the name is that of a member of a pair.
pub(crate) fn is_member_name(name: &[u8]) -> bool
    ensures { result ≡ spec.is_member_name name.now }
{
    name == b"aval".as_slice() || name == b"bval".as_slice()
}

fn member_form(form: Form) -> Form
    ensures { result ≡ spec.member_form form }
{
    match form {
        Form::Object(writable) => Form::Member(writable),
        _ => Form::Value,
    }
}

fn member_of(a: Operand) -> Operand
    ensures { result ≡ spec.member_of a }
{
    let of = CType {
        base: CBase::UnsignedInt,
        base_const: a.of.base_const,
        stars: 0,
        inner_const: false,
    };
    Operand {
        of,
        form: member_form(a.form),
    }
}

fn dot_rule(name: &[u8], a: Operand) -> Option<u8>
    ensures { result ≡ spec.dot_rule name.now a }
{
    unless(is_member_name(name) && is_base(CBase::LogicVec, a.of), 14)
}

/// An operand with `.` and a name behind it, by the place of the name: a member of the pair, an
/// `unsigned int` (ISO C 6.5.2.3). Rule 14 is broken by another name than `aval` and `bval`, and
/// where the operand is no pair. None where it is broken, or the operand has no type.
pub fn dot(
    place: Place,
    name: &[u8],
    operand: Option<Operand>,
    found: &mut Option<Violation>,
) -> Option<Operand>
    ensures value { result ≡ (spec.dot place name.now operand).value }
    ensures found { found.new ≡ noted found.old (spec.dot place name.now operand).found }
{
    let Some(a) = operand else {
        return None;
    };
    judged(place, dot_rule(name, a), member_of(a), found)
}

fn is_pair_pointer(of: CType) -> bool
    ensures { result ≡ spec.is_pair_pointer of }
{
    of.stars == 1 && of.base == CBase::LogicVec
}

fn arrow_rule(name: &[u8], a: Operand) -> Option<u8>
    ensures { result ≡ spec.arrow_rule name.now a }
{
    unless(is_member_name(name) && is_pair_pointer(a.of), 14)
}

/// An operand with `->` and a name behind it, by the place of the name: a member of the pair that
/// is pointed to (ISO C 6.5.2.3). Rule 14 is broken by another name than `aval` and `bval`, and where
/// the operand is no pointer to pairs. None where it is broken, or the operand has no type.
pub fn arrow(
    place: Place,
    name: &[u8],
    operand: Option<Operand>,
    found: &mut Option<Violation>,
) -> Option<Operand>
    ensures value { result ≡ (spec.arrow place name.now operand).value }
    ensures found { found.new ≡ noted found.old (spec.arrow place name.now operand).found }
{
    let Some(a) = operand else {
        return None;
    };
    judged(place, arrow_rule(name, a), member_of(target(a.of)), found)
}
