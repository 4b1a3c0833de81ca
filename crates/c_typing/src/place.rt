//! Places, and the rules that are broken there.
ghost use Rattle.std.specs.Prelude.{◌≡◌};
ghost use Rattle.dpi_rules.specs.Least.{noted};
ghost use Rattle.c_typing.specs.Judged as spec;

use crate::operand::Operand;
use dpi_rules::{Violation, note};

/// A token of a file.
#[derive(Clone, Copy, Debug, PartialEq, Eq)]
pub struct Place {
    /// The number of the file, from 0.
    pub file: u32,
    /// The number of the token in its file, from 0.
    pub token: u32,
}

/// The rule, unless what it asks for holds.
pub(crate) fn unless(holds: bool, rule: u8) -> Option<u8>
    ensures { result ≡ spec.unless holds rule }
{
    if holds { None } else { Some(rule) }
}

/// The first rule, where it is broken, else the other.
pub(crate) fn or_else(first: Option<u8>, other: Option<u8>) -> Option<u8>
    ensures { result ≡ spec.or_else first other }
{
    match first {
        None => other,
        Some(rule) => Some(rule),
    }
}

/// Notes the rule at the place, where one is broken.
pub(crate) fn note_rule(place: Place, rule: Option<u8>, found: &mut Option<Violation>)
    ensures { found.new ≡ noted found.old (spec.rule_at place rule) }
{
    if let Some(rule) = rule {
        let violation = Violation {
            file: place.file,
            token: place.token,
            rule,
        };
        note(found, violation);
    }
}

/// The operand, where no rule is broken; else the rule is noted at the place.
pub(crate) fn judged(
    place: Place,
    rule: Option<u8>,
    operand: Operand,
    found: &mut Option<Violation>,
) -> Option<Operand>
    ensures value { result ≡ (spec.judged place rule operand).value }
    ensures found { found.new ≡ noted found.old (spec.judged place rule operand).found }
{
    note_rule(place, rule, found);
    match rule {
        None => Some(operand),
        Some(_) => None,
    }
}
