//! What exports violate (IEEE 1800-2017, 35.4 and 35.5.5).
ghost use Rattle.std.specs.Prelude.{◌≡◌, map, flat_map, option_map, OnOk};
ghost use Rattle.dpi_rules.specs.Least.{noted};
ghost use Rattle.dpi_links.specs.Functions.{bodies_of};
ghost use Rattle.dpi_links.specs.Exports as spec;

use crate::exports::{PlacedExport, all_named, module_named};
use crate::functions::Bodies;
use dpi_agree::{note_second_exports, note_unequal_exports};
use dpi_items::{export_c_name, note_export, note_exported_function, note_exported_task};
use dpi_ports::NoMemory;
use dpi_rules::{Violation, note};
use sqlite_items::Items;
use std::alloc::Global;
use sv_signatures::Signature;
use sv_tree::Item;

/// The rule on what an export's name means.
const MEANING_RULE: u8 = 8;

/// The rule on an export's name in C.
const NAME_RULE: u8 = 14;

fn is_item(task: bool, item: &Item) -> bool
    ensures { result ≡ spec.is_item task item.now }
{
    match item {
        Item::Function(_) => !task,
        Item::Task(_) => task,
        _ => false,
    }
}

/// Whether a name means a task, or else a function.
fn is_meant(task: bool, item: Option<&Item>) -> bool
    ensures { result ≡ spec.is_meant task (option_map spec.item_of item.entry) }
{
    match item {
        None => false,
        Some(item) => is_item(task, item),
    }
}

fn note_meaning(export: &PlacedExport<'_>, found: &mut Option<Violation>)
    ensures { found.new ≡ noted found.old (spec.meaning_violations (spec.told export.now)) }
{
    if !is_meant(export.tree.task, export.item) {
        let violation = Violation {
            file: export.file,
            token: export.tree.name.token,
            rule: MEANING_RULE,
        };
        note(found, violation);
    }
}

fn note_signed(
    file: u32,
    name: u32,
    item: &Item,
    signature: &Signature,
    found: &mut Option<Violation>,
)
    ensures { found.new ≡ noted found.old (spec.signed_violations file name item.now signature.now) }
{
    match item {
        Item::Function(function) => {
            note_exported_function(file, name, function, signature, found)
        }
        Item::Task(task) => note_exported_task(file, task, found),
        _ => {}
    }
}

/// Notes what the function or task violates that is exported at this name, if there is one.
fn note_subroutine(
    file: u32,
    name: u32,
    item: Option<&Item>,
    signature: &Option<Signature>,
    found: &mut Option<Violation>,
)
    ensures { found.new ≡ noted found.old (spec.subroutine_violations file name (option_map spec.item_of item.entry) signature.now) }
{
    if let Some(item) = item {
        if let Some(signature) = signature {
            note_signed(file, name, item, signature, found);
        }
    }
}

/// Notes rule 14 where the name in C has a body.
fn note_body(bodies: &Bodies<'_>, export: &PlacedExport<'_>, found: &mut Option<Violation>)
    ensures { found.new ≡ noted found.old (spec.body_violations (bodies_of bodies.now) (spec.told export.now)) }
{
    if bodies.get(export_c_name(export.tree)).is_some() {
        let violation = Violation {
            file: export.file,
            token: export.tree.name.token,
            rule: NAME_RULE,
        };
        note(found, violation);
    }
}

fn note_one(bodies: &Bodies<'_>, export: &PlacedExport<'_>, found: &mut Option<Violation>)
    ensures { found.new ≡ noted found.old (spec.one_violations (bodies_of bodies.now) (spec.told export.now)) }
{
    let name = export.tree.name.token;
    note_export(export.file, export.tree, found);
    note_meaning(export, found);
    note_subroutine(export.file, name, export.item, &export.signature, found);
    note_body(bodies, export, found);
}

fn note_each(bodies: &Bodies<'_>, exports: &[PlacedExport<'_>], found: &mut Option<Violation>)
    ensures { found.new ≡ noted found.old (flat_map (spec.one_violations (bodies_of bodies.now)) (map spec.told exports.now)) }
{
    for export in exports {
        note_one(bodies, export, found);
    }
}

/// Notes rule 9 at each export of a module that isn't the first one of its name in C.
fn note_seconds(
    alloc: Global,
    exports: &[PlacedExport<'_>],
    found: &mut Option<Violation>,
) -> Result<(), NoMemory>
    ensures { OnOk result (found.new ≡ noted found.old (spec.second_exports (map spec.told exports.now))) }
{
    let list = module_named(alloc, exports)?;
    note_second_exports(alloc, list.as_slice(), found)
}

/// Notes rule 10 at each export whose signature isn't that of the first one of its name in C.
fn note_unequal(
    alloc: Global,
    table: &[Items<PlacedExport<'_>>],
    found: &mut Option<Violation>,
) -> Result<(), NoMemory>
    ensures { OnOk result (found.new ≡ noted found.old (spec.unequal_exports (map (map spec.told) table.now))) }
{
    let list = all_named(alloc, table)?;
    note_unequal_exports(alloc, list.as_slice(), found)
}

fn note_module(
    alloc: Global,
    bodies: &Bodies<'_>,
    exports: &[PlacedExport<'_>],
    found: &mut Option<Violation>,
) -> Result<(), NoMemory>
    ensures { OnOk result (found.new ≡ noted found.old (spec.module_violations (bodies_of bodies.now) (map spec.told exports.now))) }
{
    note_each(bodies, exports, found);
    note_seconds(alloc, exports, found)?;
    Ok(())
}

fn note_modules(
    alloc: Global,
    bodies: &Bodies<'_>,
    table: &[Items<PlacedExport<'_>>],
    found: &mut Option<Violation>,
) -> Result<(), NoMemory>
    ensures { OnOk result (found.new ≡ noted found.old (flat_map (spec.module_violations (bodies_of bodies.now)) (map (map spec.told) table.now))) }
{
    for exports in table {
        note_module(alloc, bodies, exports.as_slice(), found)?;
    }
    Ok(())
}

/// Notes what the exports of each module violate: each by itself and with the function or task that
/// it exports, rule 8 where its name means none of its word, rule 9 where its module has exported
/// the name in C before, rule 10 beside the first one of its name in C, and rule 14 where that name
/// has a body. NoMemory where no memory was found.
pub(crate) fn note_exports(
    alloc: Global,
    bodies: &Bodies<'_>,
    table: &[Items<PlacedExport<'_>>],
    found: &mut Option<Violation>,
) -> Result<(), NoMemory>
    ensures { OnOk result (found.new ≡ noted found.old (spec.exports_violations (bodies_of bodies.now) (map (map spec.told) table.now))) }
{
    note_modules(alloc, bodies, table, found)?;
    note_unequal(alloc, table, found)?;
    Ok(())
}
