//! Assignment patterns (IEEE 1800-2017, 10.9).
ghost use Rattle.std.specs.Prelude.{◌≡◌, [], ◌∷◌};
ghost use Rattle.dpi_rules.specs.Least.{noted};
ghost use Rattle.sv_contexts.specs.Patterns as spec;

use dpi_rules::{Violation, note};
use dpi_shape::Range;
use sv_typing::{ExprType, inner_type, range_left};

/// The rule on patterns.
const PATTERN_RULE: u8 = 30;

fn note_broken(file: u32, token: u32, found: &mut Option<Violation>)
    ensures { found.new ≡ noted found.old (spec.pattern_broken file token ∷ []) }
{
    let violation = Violation {
        file,
        token,
        rule: PATTERN_RULE,
    };
    note(found, violation);
}

/// Notes rule 30 where the parts aren't as many as the indices.
fn note_counted(
    file: u32,
    token: u32,
    parts: usize,
    range: Option<Range>,
    found: &mut Option<Violation>,
)
    ensures { found.new ≡ noted found.old (spec.counted file token parts range) }
{
    match range {
        Some(range) if range.size() == parts as u64 => {}
        _ => note_broken(file, token, found),
    }
}

/// Notes rule 30 at the `'{` of a pattern of so many parts that is for something else than an array
/// with as many indices in its first dimension. For what has no type nothing is noted.
pub fn note_pattern(
    file: u32,
    token: u32,
    target: Option<ExprType>,
    parts: usize,
    found: &mut Option<Violation>,
)
    ensures { found.new ≡ noted found.old (spec.pattern_violations file token target parts) }
{
    match target {
        None => {}
        Some(ExprType::Array { shape, taken }) => {
            note_counted(file, token, parts, range_left(&shape, taken, 0), found);
        }
        Some(_) => note_broken(file, token, found),
    }
}

/// What each part of a pattern for this is assigned to: an element of the array, or an array of one
/// dimension less. None where the pattern is for something else.
pub fn part_target(target: Option<ExprType>) -> Option<ExprType>
    ensures { result ≡ spec.part_target target }
{
    match target {
        Some(ExprType::Array { shape, taken }) => Some(inner_type(&shape, taken)),
        _ => None,
    }
}
