//! Exports of one name in C (IEEE 1800-2017, 35.5.5).
ghost use Rattle.std.specs.Prelude.{◌≡◌, OnOk, ℕ, List};
ghost use Rattle.dpi_rules.specs.Least.{noted};
ghost use Rattle.dpi_agree.specs.Firsts.{added, told};
ghost use Rattle.dpi_agree.specs.Exports as spec;

use dpi_boundary::same_export;
use dpi_ports::NoMemory;
use dpi_rules::{Violation, note};
use std::alloc::Global;
use std::collections::BTreeMap;
use sv_signatures::Signature;

/// The rule on a second export in a module.
const SECOND_RULE: u8 = 9;

/// The rule on exports of one name.
const UNEQUAL_RULE: u8 = 10;

/// An export of some module, by what C knows of it.
#[derive(Clone, Copy)]
pub struct LinkedExport<'a> {
    /// The number of its file, from 0.
    pub file: u32,
    /// The number of its name's token.
    pub token: u32,
    /// Its name in C.
    pub name: &'a [u8],
    /// The signature of the exported subroutine. None where the name isn't one.
    pub signature: Option<&'a Signature>,
}

/// Whether two signatures are equal; one that isn't known equals every other.
fn agree(a: Option<&Signature>, b: Option<&Signature>) -> bool
    ensures { result ≡ spec.agree a.entry b.entry }
{
    match a {
        Some(a) => match b {
            Some(b) => same_export(a, b),
            None => true,
        },
        None => true,
    }
}

/// Notes rule 10 at an export whose signature isn't that of the first one of its name.
fn note_unequal(
    first: Option<LinkedExport<'_>>,
    export: LinkedExport<'_>,
    found: &mut Option<Violation>,
)
    ensures { found.new ≡ noted found.old (spec.unequal_violations first.entry export.entry) }
{
    if let Some(first) = first {
        if !agree(first.signature, export.signature) {
            let violation = Violation {
                file: export.file,
                token: export.token,
                rule: UNEQUAL_RULE,
            };
            note(found, violation);
        }
    }
}

/// Notes rule 9 at an export that isn't the first one of its name.
fn note_second(
    first: Option<LinkedExport<'_>>,
    export: LinkedExport<'_>,
    found: &mut Option<Violation>,
)
    ensures { found.new ≡ noted found.old (spec.second_violations first.entry export.entry) }
{
    if first.is_some() {
        let violation = Violation {
            file: export.file,
            token: export.token,
            rule: SECOND_RULE,
        };
        note(found, violation);
    }
}

/// One more export, which is the first of its name unless there is one.
fn add<'a>(
    firsts: &mut BTreeMap<&'a [u8], LinkedExport<'a>>,
    export: LinkedExport<'a>,
) -> Result<(), NoMemory>
    ensures { OnOk result ((q : List ℕ) → told firsts.new q ≡ added (told firsts.old) export.entry.name.now export.entry q) }
{
    if firsts.get(export.name).is_none() {
        firsts.insert(export.name, export)?;
    }
    Ok(())
}

/// Notes rule 10 at the name of each export whose signature isn't equal to that of the first export of
/// its name in C; `same_export` of `dpi_boundary` says which are equal (IEEE 1800-2017, 35.5.5).
/// NoMemory where no memory was found.
pub fn note_unequal_exports(
    alloc: Global,
    exports: &[LinkedExport<'_>],
    found: &mut Option<Violation>,
) -> Result<(), NoMemory>
    ensures { OnOk result (found.new ≡ noted found.old (spec.exports_violations exports.now)) }
{
    let mut firsts = BTreeMap::new(alloc);
    for export in exports {
        note_unequal(firsts.get(export.name).copied(), *export, found);
        add(&mut firsts, *export)?;
    }
    Ok(())
}

/// Notes rule 9 at the name of each of these exports of one module that has the name in C of an
/// earlier one (IEEE 1800-2017, 35.5.5). NoMemory where no memory was found.
pub fn note_second_exports(
    alloc: Global,
    exports: &[LinkedExport<'_>],
    found: &mut Option<Violation>,
) -> Result<(), NoMemory>
    ensures { OnOk result (found.new ≡ noted found.old (spec.seconds_violations exports.now)) }
{
    let mut firsts = BTreeMap::new(alloc);
    for export in exports {
        note_second(firsts.get(export.name).copied(), *export, found);
        add(&mut firsts, *export)?;
    }
    Ok(())
}
