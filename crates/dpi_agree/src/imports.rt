//! Imports of one name in C (IEEE 1800-2017, 35.5.4).
ghost use Rattle.std.specs.Prelude.{◌≡◌, OnOk, ℕ, List};
ghost use Rattle.dpi_rules.specs.Least.{noted};
ghost use Rattle.dpi_agree.specs.Firsts.{added, told};
ghost use Rattle.dpi_agree.specs.Imports as spec;

use dpi_boundary::same_import;
use dpi_ports::NoMemory;
use dpi_rules::{Violation, note};
use std::alloc::Global;
use std::collections::BTreeMap;
use sv_signatures::ImportSignature;

/// The rule on imports of one name.
const UNEQUAL_RULE: u8 = 5;

/// An import of some module, by what C knows of it.
#[derive(Clone, Copy)]
pub struct LinkedImport<'a> {
    /// The number of its file, from 0.
    pub file: u32,
    /// The number of its name's token.
    pub token: u32,
    /// Its name in C.
    pub name: &'a [u8],
    /// Its signature.
    pub signature: &'a ImportSignature,
}

/// Notes rule 5 at an import whose signature isn't that of the first one of its name.
fn note_unequal(
    first: Option<LinkedImport<'_>>,
    import: LinkedImport<'_>,
    found: &mut Option<Violation>,
)
    ensures { found.new ≡ noted found.old (spec.unequal_violations first.entry import.entry) }
{
    if let Some(first) = first {
        if !same_import(first.signature, import.signature) {
            let violation = Violation {
                file: import.file,
                token: import.token,
                rule: UNEQUAL_RULE,
            };
            note(found, violation);
        }
    }
}

/// One more import, which is the first of its name unless there is one.
fn add<'a>(
    firsts: &mut BTreeMap<&'a [u8], LinkedImport<'a>>,
    import: LinkedImport<'a>,
) -> Result<(), NoMemory>
    ensures { OnOk result ((q : List ℕ) → told firsts.new q ≡ added (told firsts.old) import.entry.name.now import.entry q) }
{
    if firsts.get(import.name).is_none() {
        firsts.insert(import.name, import)?;
    }
    Ok(())
}

/// Notes rule 5 at the name of each import whose signature isn't equal to that of the first import of
/// its name in C; `same_import` of `dpi_boundary` says which are equal (IEEE 1800-2017, 35.5.4).
/// NoMemory where no memory was found.
pub fn note_unequal_imports(
    alloc: Global,
    imports: &[LinkedImport<'_>],
    found: &mut Option<Violation>,
) -> Result<(), NoMemory>
    ensures { OnOk result (found.new ≡ noted found.old (spec.imports_violations imports.now)) }
{
    let mut firsts = BTreeMap::new(alloc);
    for import in imports {
        note_unequal(firsts.get(import.name).copied(), *import, found);
        add(&mut firsts, *import)?;
    }
    Ok(())
}
