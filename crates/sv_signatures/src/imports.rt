//! Formals of imports (IEEE 1800-2017, 35.5.6).
ghost use Rattle.std.specs.Prelude.{◌≡◌, IfOk};
ghost use Rattle.std.specs.Option.{option_copied};
ghost use Rattle.dpi_rules.specs.Least.{noted};
ghost use Rattle.sv_signatures.specs.Before.{start, type_of};
ghost use Rattle.sv_signatures.specs.Imports as spec;

use crate::before::{MOST_FORMALS, direction_of, note_count, note_type_missing};
use dpi_ports::NoMemory;
use dpi_rules::Violation;
use sqlite_items::Items;
use std::alloc::Global;
use sv_shapes::{FormalKind, formal_kind, note_formal, note_formal_dimensions};
use sv_tree::{Direction, ImportType};

/// A formal of an import.
#[derive(Clone, Copy, Debug, PartialEq, Eq)]
pub struct ImportFormal {
    /// The number of its name's token.
    pub token: u32,
    /// Its direction.
    pub direction: Direction,
    /// Its kind. None where it is refused or has no type.
    pub kind: Option<FormalKind>,
}

/// What the formals before come to.
#[derive(Clone, Copy)]
struct ImportBefore<'t> {
    first: bool,
    direction: Direction,
    kind: Option<&'t ImportType>,
}

/// The type of a formal, where the one before it has this type.
fn type_in_force<'t>(
    formal: &'t sv_tree::ImportFormal,
    before: Option<&'t ImportType>,
) -> Option<&'t ImportType>
    ensures { option_copied result ≡ type_of formal.now.way formal.now.kind (option_copied before.entry) }
{
    match &formal.kind {
        Some(kind) => Some(kind),
        None => match formal.way {
            Some(_) => None,
            None => before,
        },
    }
}

/// What a formal of this name, type and dimensions is, and what it violates.
fn kind_noted(
    file: u32,
    formal: &sv_tree::ImportFormal,
    kind: Option<&ImportType>,
    found: &mut Option<Violation>,
) -> Option<FormalKind>
    ensures kind { result ≡ spec.kind_by (option_copied kind.entry) formal.now }
    ensures violations { found.new ≡ noted found.old (spec.kind_violations_by file (option_copied kind.entry) formal.now) }
{
    let dimensions = formal.dimensions.as_slice();
    match kind {
        Some(kind) => {
            note_formal(file, formal.name.token, kind, dimensions, found);
            formal_kind(kind, dimensions)
        }
        None => {
            note_formal_dimensions(file, dimensions, found);
            None
        }
    }
}

/// What the next formal takes over from this one.
fn behind<'t>(formal: &'t sv_tree::ImportFormal, before: ImportBefore<'t>) -> ImportBefore<'t>
    ensures { spec.told result ≡ spec.after formal.now (spec.told before.entry) }
{
    ImportBefore {
        first: false,
        direction: direction_of(&formal.way, before.direction),
        kind: type_in_force(formal, before.kind),
    }
}

/// A formal that stands behind these, with what it violates noted.
fn formal_behind(
    file: u32,
    formal: &sv_tree::ImportFormal,
    before: ImportBefore<'_>,
    found: &mut Option<Violation>,
) -> ImportFormal
    ensures formal { result ≡ spec.formal_of (spec.told before.entry) formal.now }
    ensures violations { found.new ≡ noted found.old (spec.formal_violations file (spec.told before.entry) formal.now) }
{
    let token = formal.name.token;
    note_type_missing(
        file,
        token,
        &formal.way,
        formal.kind.is_some(),
        before.first,
        found,
    );
    let kind = type_in_force(formal, before.kind);
    ImportFormal {
        token,
        direction: direction_of(&formal.way, before.direction),
        kind: kind_noted(file, formal, kind, found),
    }
}

/// The formals of a list, with what each violates noted.
fn listed_formals(
    alloc: Global,
    file: u32,
    formals: &[sv_tree::ImportFormal],
    found: &mut Option<Violation>,
) -> Result<Items<ImportFormal>, NoMemory>
    ensures { IfOk result (λ r. (r ≡ spec.formals_of formals.now) × (found.new ≡ noted found.old (spec.violations_behind file start formals.now))) }
{
    let mut before = ImportBefore {
        first: true,
        direction: Direction::Input,
        kind: None,
    };
    let mut listed = Items::new(alloc);
    for formal in formals {
        listed.push(formal_behind(file, formal, before, found))?;
        before = behind(formal, before);
    }
    Ok(listed)
}

/// The name of the first formal too many, if there is one.
fn name_too_many(formals: &[sv_tree::ImportFormal]) -> Option<u32>
    ensures { result ≡ spec.name_too_many formals.now }
{
    match formals.get(MOST_FORMALS) {
        Some(formal) => Some(formal.name.token),
        None => None,
    }
}

/// The formals of a list, with what they violate noted. NoMemory where no memory was found.
pub(crate) fn import_formals_of(
    alloc: Global,
    file: u32,
    formals: &[sv_tree::ImportFormal],
    found: &mut Option<Violation>,
) -> Result<Items<ImportFormal>, NoMemory>
    ensures { IfOk result (λ r. (r ≡ spec.formals_of formals.now) × (found.new ≡ noted found.old (spec.formals_violations file formals.now))) }
{
    let listed = listed_formals(alloc, file, formals, found)?;
    note_count(file, name_too_many(formals), found);
    Ok(listed)
}
