//! Conditions of `if` and loops, and counts of `repeat` (IEEE 1800-2017, 12.4 and 12.7).
ghost use Rattle.std.specs.Prelude.{◌≡◌};
ghost use Rattle.dpi_rules.specs.Least.{noted};
ghost use Rattle.sv_contexts.specs.Conditions as spec;

use dpi_rules::{Violation, note};
use sv_typing::Operand;

/// The rule on conditions and counts.
const CONDITION_RULE: u8 = 28;

fn condition_broken(file: u32, token: u32) -> Violation
    ensures { result ≡ spec.condition_broken file token }
{
    Violation {
        file,
        token,
        rule: CONDITION_RULE,
    }
}

/// Notes rule 28 at the first token of a condition that is neither packed nor a chandle. One without
/// a type is passed over.
pub fn note_condition(
    file: u32,
    token: u32,
    condition: Option<Operand>,
    found: &mut Option<Violation>,
)
    ensures { found.new ≡ noted found.old (spec.condition_violations file token condition) }
{
    if let Some(condition) = condition {
        if !condition.of.is_condition() {
            note(found, condition_broken(file, token));
        }
    }
}

/// Notes rule 28 at the first token of a count of `repeat` that isn't packed. One without a type is
/// passed over.
pub fn note_count(file: u32, token: u32, count: Option<Operand>, found: &mut Option<Violation>)
    ensures { found.new ≡ noted found.old (spec.count_violations file token count) }
{
    if let Some(count) = count {
        if !count.of.is_packed() {
            note(found, condition_broken(file, token));
        }
    }
}
