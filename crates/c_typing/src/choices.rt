//! Conditionals (ISO C 6.5.15).
ghost use Rattle.std.specs.Prelude.{◌≡◌};
ghost use Rattle.dpi_rules.specs.Least.{noted};
ghost use Rattle.c_typing.specs.Choices as spec;

use crate::binaries::{both_numbers, meets_void, pointers_alike};
use crate::conversions::{both_pairs, note_condition, same_opaque};
use crate::operand::Operand;
use crate::place::{Place, note_rule};
use crate::pointers::{is_base, is_scalar, pointed, pointer_to, points_alike, points_to_const};
use c_base::{CBase, CType};
use dpi_rules::Violation;

fn both_void(s: CType, t: CType) -> bool
    ensures { result ≡ spec.both_void s t }
{
    is_base(CBase::Void, s) && is_base(CBase::Void, t)
}

fn both_whole(s: CType, t: CType) -> bool
    ensures { result ≡ spec.both_whole s t }
{
    both_pairs(s, t) || same_opaque(s, t) || both_void(s, t)
}

/// The type of two pointers that point to one type, or of which one is a `void *`.
fn merged(s: CType, t: CType) -> CType
    ensures { result ≡ spec.merged s t }
{
    let constant = points_to_const(s) || points_to_const(t);
    if points_alike(s, t) {
        pointer_to(pointed(s), constant)
    } else {
        pointer_to(CType::plain(CBase::Void), constant)
    }
}

fn pointer_type(a: Operand, b: Operand) -> Option<CType>
    ensures { result ≡ spec.pointer_type a b }
{
    if a.is_null() && b.of.is_pointer() {
        return Some(b.of);
    }
    if b.is_null() && a.of.is_pointer() {
        return Some(a.of);
    }
    if pointers_alike(a.of, b.of) || meets_void(a.of, b.of) {
        return Some(merged(a.of, b.of));
    }
    None
}

fn branch_type(a: Operand, b: Operand) -> Option<CType>
    ensures { result ≡ spec.branch_type a b }
{
    if both_numbers(a.of, b.of) {
        return Some(CType::plain(a.of.base.common(b.of.base)));
    }
    if both_whole(a.of, b.of) {
        return Some(CType::plain(a.of.base));
    }
    pointer_type(a, b)
}

/// A value of the type of both branches, or rule 10 where they have none.
fn branches(place: Place, of: Option<CType>, found: &mut Option<Violation>) -> Option<Operand>
    ensures value { result ≡ (spec.branches place of).value }
    ensures found { found.new ≡ noted found.old (spec.branches place of).found }
{
    match of {
        None => {
            note_rule(place, Some(10), found);
            None
        }
        Some(of) => Some(Operand::value(of)),
    }
}

fn both_branches(
    place: Place,
    yes: Option<Operand>,
    no: Option<Operand>,
    found: &mut Option<Violation>,
) -> Option<Operand>
    ensures value { result ≡ (spec.both_branches place yes no).value }
    ensures found { found.new ≡ noted found.old (spec.both_branches place yes no).found }
{
    let Some(a) = yes else {
        return None;
    };
    let Some(b) = no else {
        return None;
    };
    branches(place, branch_type(a, b), found)
}

/// The branches, where the condition has a type.
fn chosen(
    place: Place,
    condition: Option<Operand>,
    yes: Option<Operand>,
    no: Option<Operand>,
    found: &mut Option<Violation>,
) -> Option<Operand>
    ensures value { result ≡ (spec.chosen place condition yes no).value }
    ensures found { found.new ≡ noted found.old (spec.chosen place condition yes no).found }
{
    let Some(c) = condition else {
        return None;
    };
    let value = both_branches(place, yes, no, found);
    if is_scalar(c.of) { value } else { None }
}

/// A conditional, by the places of its condition's first token and of its `?`. At the former, rule 25
/// is broken by a condition that is neither a number nor a pointer. At the latter, rule 10 is broken
/// by branches that don't go together: these are two numbers, which give their common type; two
/// pointers to one type, and a `void *` with any pointer, which give the pointer to it, to const where
/// either is; a pointer with 0 or NULL; a pair, an opaque type or a void value beside itself. None
/// where a rule is broken, or a part has no type (ISO C 6.5.15).
pub fn choice(
    at: Place,
    place: Place,
    condition: Option<Operand>,
    yes: Option<Operand>,
    no: Option<Operand>,
    found: &mut Option<Violation>,
) -> Option<Operand>
    ensures value { result ≡ (spec.choice at place condition yes no).value }
    ensures found { found.new ≡ noted found.old (spec.choice at place condition yes no).found }
{
    note_condition(at, condition, found);
    chosen(place, condition, yes, no, found)
}
