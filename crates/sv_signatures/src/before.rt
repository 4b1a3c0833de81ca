//! What the formals of a list take over from those before them.
ghost use Rattle.std.specs.Prelude.{◌≡◌};
ghost use Rattle.dpi_rules.specs.Least.{noted};
ghost use Rattle.sv_signatures.specs.Before as spec;

use dpi_rules::{Violation, note};
use sv_tree::{Direction, Way};

/// The rule on formals without a type.
const TYPE_RULE: u8 = 10;

/// The rule on the number of formals.
const COUNT_RULE: u8 = 27;

/// The most formals.
pub(crate) const MOST_FORMALS: usize = 64;

/// The direction that is written, else that of the formal before.
pub(crate) fn direction_of(way: &Option<Way>, before: Direction) -> Direction
    ensures { result ≡ spec.direction_of way.now before }
{
    match way {
        Some(way) => way.direction,
        None => before,
    }
}

/// Notes rule 10 at the name of a formal that writes no type and is the first one or writes a
/// direction.
pub(crate) fn note_type_missing(
    file: u32,
    name: u32,
    way: &Option<Way>,
    typed: bool,
    first: bool,
    found: &mut Option<Violation>,
)
    ensures { found.new ≡ noted found.old (spec.missing_violations file name way.now typed first) }
{
    if !typed && (first || way.is_some()) {
        let violation = Violation {
            file,
            token: name,
            rule: TYPE_RULE,
        };
        note(found, violation);
    }
}

/// Notes rule 27 at the name of the 65th formal, if there is one.
pub(crate) fn note_count(file: u32, name: Option<u32>, found: &mut Option<Violation>)
    ensures { found.new ≡ noted found.old (spec.count_violations file name) }
{
    if let Some(token) = name {
        let violation = Violation {
            file,
            token,
            rule: COUNT_RULE,
        };
        note(found, violation);
    }
}
