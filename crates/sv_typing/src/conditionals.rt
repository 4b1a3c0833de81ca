//! Conditionals (IEEE 1800-2017, 11.4.11).
ghost use Rattle.std.specs.Prelude.{◌≡◌, ◌&&◌};
ghost use Rattle.dpi_rules.specs.Least.{noted};
ghost use Rattle.sv_typing.specs.Conditionals as spec;
ghost use Rattle.sv_typing.specs.Types.{is_packed, is_condition};

use crate::judged::kind_broken;
use crate::operators::{both_reached, combined, either_four};
use crate::types::Operand;
use dpi_rules::{Violation, note};

fn are_taken(condition: Operand, first: Operand, second: Operand) -> bool
    ensures { result ≡ (is_condition condition.of && (is_packed first.of && is_packed second.of)) }
{
    condition.of.is_condition() && (first.of.is_packed() && second.of.is_packed())
}

/// A conditional of three operands.
fn chosen(
    file: u32,
    token: u32,
    condition: Operand,
    first: Operand,
    second: Operand,
    found: &mut Option<Violation>,
) -> Option<Operand>
    ensures value { result ≡ (spec.chosen file token condition first second).value }
    ensures found { found.new ≡ noted found.old (spec.chosen file token condition first second).found }
{
    if are_taken(condition, first, second) {
        let reach = both_reached(first.reach, second.reach);
        let four = condition.of.is_four() || either_four(first.of, second.of);
        combined(first.of, second.of, reach, four, found)
    } else {
        note(found, kind_broken(file, token));
        None
    }
}

/// What a conditional is, by the token of its `?`: as wide as the wider branch, and signed where both
/// are. The branches are each other's context, and the condition stands alone. Rule 15 is noted at
/// the `?` where the condition is neither packed nor a chandle or a branch isn't packed, and rule 16
/// at the first arithmetic that a width past 64 bits reaches. None where a part has no type or a rule
/// is broken.
pub fn conditional(
    file: u32,
    token: u32,
    condition: Option<Operand>,
    first: Option<Operand>,
    second: Option<Operand>,
    found: &mut Option<Violation>,
) -> Option<Operand>
    ensures value { result ≡ (spec.conditional file token condition first second).value }
    ensures found { found.new ≡ noted found.old (spec.conditional file token condition first second).found }
{
    let condition = condition?;
    let first = first?;
    let second = second?;
    chosen(file, token, condition, first, second, found)
}
