//! Formals of type `integer`, which doesn't cross the boundary (IEEE 1800-2017, 35.5.6).
ghost use Rattle.std.specs.Prelude.{◌≡◌, false};
ghost use Rattle.dpi_rules.specs.Least.{noted};
ghost use Rattle.dpi_items.specs.Integers as spec;

use dpi_rules::{Violation, note};
use sqlite_items::Items;
use sv_tree::{DataType, Formal, ImportFormal, ImportType};

/// The rule on formals of type `integer`.
const INTEGER_RULE: u8 = 4;

fn is_integer(kind: &DataType) -> bool
    ensures { result ≡ spec.is_integer kind.now }
{
    matches!(kind, DataType::Integer(_))
}

fn is_import_integer(kind: &ImportType) -> bool
    ensures { result ≡ spec.is_import_integer kind.now }
{
    match kind {
        ImportType::Data(kind) => is_integer(kind),
        ImportType::Unsized(_, _, _, _) => false,
    }
}

/// Whether a formal is an `integer`, where the one before it is one or isn't.
fn is_integer_formal(formal: &Formal, before: bool) -> bool
    ensures { result ≡ spec.is_integer_formal formal.now before }
{
    match &formal.kind {
        Some(kind) => is_integer(kind),
        None => before && formal.way.is_none(),
    }
}

/// Whether a formal of an import is an `integer`, where the one before it is one or isn't.
fn is_integer_import_formal(formal: &ImportFormal, before: bool) -> bool
    ensures { result ≡ spec.is_integer_import_formal formal.now before }
{
    match &formal.kind {
        Some(kind) => is_import_integer(kind),
        None => before && formal.way.is_none(),
    }
}

/// Notes rule 4 at the name of an `integer` formal.
fn note_integer(file: u32, token: u32, integer: bool, found: &mut Option<Violation>)
    ensures { found.new ≡ noted found.old (spec.integer_violations file token integer) }
{
    if integer {
        let violation = Violation {
            file,
            token,
            rule: INTEGER_RULE,
        };
        note(found, violation);
    }
}

fn note_integers(file: u32, formals: &[Formal], found: &mut Option<Violation>)
    ensures { found.new ≡ noted found.old (spec.integers_behind file false formals.now) }
{
    let mut integer = false;
    for formal in formals {
        integer = is_integer_formal(formal, integer);
        note_integer(file, formal.name.token, integer, found);
    }
}

fn note_import_integers(file: u32, formals: &[ImportFormal], found: &mut Option<Violation>)
    ensures { found.new ≡ noted found.old (spec.import_integers_behind file false formals.now) }
{
    let mut integer = false;
    for formal in formals {
        integer = is_integer_import_formal(formal, integer);
        note_integer(file, formal.name.token, integer, found);
    }
}

/// Notes rule 4 at each `integer` among the formals between parentheses.
pub(crate) fn note_integer_formals(
    file: u32,
    formals: &Option<Items<Formal>>,
    found: &mut Option<Violation>,
)
    ensures { found.new ≡ noted found.old (spec.formals_violations file formals.now) }
{
    if let Some(formals) = formals {
        note_integers(file, formals.as_slice(), found);
    }
}

/// Notes rule 4 at each `integer` among the formals of an import between parentheses.
pub(crate) fn note_integer_import_formals(
    file: u32,
    formals: &Option<Items<ImportFormal>>,
    found: &mut Option<Violation>,
)
    ensures { found.new ≡ noted found.old (spec.import_formals_violations file formals.now) }
{
    if let Some(formals) = formals {
        note_import_integers(file, formals.as_slice(), found);
    }
}
