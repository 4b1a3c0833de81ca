//! Imports, with the C functions that they call (IEEE 1800-2017, 35.4 and 35.5.4).
ghost use Rattle.std.specs.Prelude.{◌≡◌, [], ◌∷◌, ◌++◌, map, flat_map, option_map, IfOk, OnOk};
ghost use Rattle.dpi_rules.specs.Least.{noted};
ghost use Rattle.sv_instances.specs.Modules as placed_modules;
ghost use Rattle.c_functions.specs.Declarations as functions;
ghost use Rattle.dpi_links.specs.Functions.{bodies_of};
ghost use Rattle.dpi_links.specs.Imports as spec;

use crate::functions::Bodies;
use c_functions::{Declaration, function_type};
use dpi_agree::{LinkedImport, note_unequal_imports};
use dpi_boundary::fits_import;
use dpi_items::{import_c_name, note_import};
use dpi_ports::NoMemory;
use dpi_rules::{Violation, note};
use sqlite_items::Items;
use std::alloc::Global;
use sv_instances::Placed;
use sv_signatures::{ImportSignature, import_signature};
use sv_tree::{Import, Item};

/// The rule on imports without a body.
const BODY_RULE: u8 = 6;

/// The rule on imports whose C function has another type.
const TYPE_RULE: u8 = 7;

/// An import, with the file that it stands in.
#[derive(Drop)]
pub(crate) struct PlacedImport<'a> {
    /// The number of the file, from 0.
    file: u32,
    /// The import.
    tree: &'a Import,
    /// Its signature.
    signature: ImportSignature,
}

fn add_import<'a>(
    alloc: Global,
    list: &mut Items<PlacedImport<'a>>,
    file: u32,
    tree: &'a Import,
) -> Result<(), NoMemory>
    ensures { OnOk result (map spec.told list.new ≡ map spec.told list.old ++ spec.imported file tree.now ∷ []) }
{
    let mut found = None;
    let signature = import_signature(alloc, file, tree, &mut found)?;
    list.push(PlacedImport {
        file,
        tree,
        signature,
    })?;
    Ok(())
}

fn add_item<'a>(
    alloc: Global,
    list: &mut Items<PlacedImport<'a>>,
    file: u32,
    item: &'a Item,
) -> Result<(), NoMemory>
    ensures { OnOk result (map spec.told list.new ≡ map spec.told list.old ++ spec.item_imports file item.now) }
{
    match item {
        Item::Import(tree) => add_import(alloc, list, file, tree),
        _ => Ok(()),
    }
}

fn add_module<'a>(
    alloc: Global,
    list: &mut Items<PlacedImport<'a>>,
    placed: Placed<'a>,
) -> Result<(), NoMemory>
    ensures { OnOk result (map spec.told list.new ≡ map spec.told list.old ++ spec.module_imports (placed_modules.told placed.entry)) }
{
    for item in placed.tree.items.as_slice() {
        add_item(alloc, list, placed.file, item)?;
    }
    Ok(())
}

/// The imports of these modules, in text order. NoMemory where no memory was found.
pub(crate) fn imports_of<'a>(
    alloc: Global,
    modules: &[Placed<'a>],
) -> Result<Items<PlacedImport<'a>>, NoMemory>
    ensures { IfOk result (λ list. map spec.told list ≡ spec.imports_in (map placed_modules.told modules.now)) }
{
    let mut list = Items::new(alloc);
    for placed in modules {
        add_module(alloc, &mut list, *placed)?;
    }
    Ok(list)
}

/// An import by its name in C.
fn named<'a>(import: &'a PlacedImport<'_>) -> LinkedImport<'a>
    ensures { spec.named_told result ≡ spec.named (spec.told import.now) }
{
    LinkedImport {
        file: import.file,
        token: import.tree.name.token,
        name: import_c_name(import.tree),
        signature: &import.signature,
    }
}

fn all_named<'a>(
    alloc: Global,
    imports: &'a [PlacedImport<'_>],
) -> Result<Items<LinkedImport<'a>>, NoMemory>
    ensures { IfOk result (λ list. map spec.named_told list ≡ map spec.named (map spec.told imports.now)) }
{
    let mut list = Items::new(alloc);
    for import in imports {
        list.push(named(import))?;
    }
    Ok(list)
}

/// Notes rule 5 at each import whose signature isn't that of the first one of its name in C.
fn note_unequal(
    alloc: Global,
    imports: &[PlacedImport<'_>],
    found: &mut Option<Violation>,
) -> Result<(), NoMemory>
    ensures { OnOk result (found.new ≡ noted found.old (spec.unequal_imports (map spec.told imports.now))) }
{
    let list = all_named(alloc, imports)?;
    note_unequal_imports(alloc, list.as_slice(), found)
}

fn note_own(imports: &[PlacedImport<'_>], found: &mut Option<Violation>)
    ensures { found.new ≡ noted found.old (flat_map spec.own_violations (map spec.told imports.now)) }
{
    for import in imports {
        note_import(import.file, import.tree, &import.signature, found);
    }
}

fn type_rule(
    alloc: Global,
    signature: &ImportSignature,
    body: Declaration<'_>,
) -> Result<Option<u8>, NoMemory>
    ensures { IfOk result (λ r. r ≡ spec.type_rule signature.now (functions.told body.entry).of) }
{
    if !body.is_known {
        return Ok(None);
    }
    let of = function_type(alloc, body.function)?;
    if fits_import(signature, &of) {
        Ok(None)
    } else {
        Ok(Some(TYPE_RULE))
    }
}

/// The rule that an import breaks whose C function has this body.
fn body_rule(
    alloc: Global,
    signature: &ImportSignature,
    body: Option<Declaration<'_>>,
) -> Result<Option<u8>, NoMemory>
    ensures { IfOk result (λ r. r ≡ spec.body_rule signature.now (option_map functions.told body.entry)) }
{
    match body {
        None => Ok(Some(BODY_RULE)),
        Some(body) => type_rule(alloc, signature, body),
    }
}

fn note_rule(file: u32, token: u32, rule: Option<u8>, found: &mut Option<Violation>)
    ensures { found.new ≡ noted found.old (spec.broken file token rule) }
{
    if let Some(rule) = rule {
        note(found, Violation { file, token, rule });
    }
}

fn note_body(
    alloc: Global,
    bodies: &Bodies<'_>,
    import: &PlacedImport<'_>,
    found: &mut Option<Violation>,
) -> Result<(), NoMemory>
    ensures { OnOk result (found.new ≡ noted found.old (spec.body_violations (bodies_of bodies.now) (spec.told import.now))) }
{
    let body = bodies.get(import_c_name(import.tree));
    let rule = body_rule(alloc, &import.signature, body)?;
    note_rule(import.file, import.tree.name.token, rule, found);
    Ok(())
}

fn note_bodies(
    alloc: Global,
    bodies: &Bodies<'_>,
    imports: &[PlacedImport<'_>],
    found: &mut Option<Violation>,
) -> Result<(), NoMemory>
    ensures { OnOk result (found.new ≡ noted found.old (flat_map (spec.body_violations (bodies_of bodies.now)) (map spec.told imports.now))) }
{
    for import in imports {
        note_body(alloc, bodies, import, found)?;
    }
    Ok(())
}

/// Notes what these imports violate: each by itself, rule 5 beside the first one of its name in C,
/// rule 6 where no such function has a body, and rule 7 where its type doesn't fit. NoMemory where
/// no memory was found.
pub(crate) fn note_imports(
    alloc: Global,
    bodies: &Bodies<'_>,
    imports: &[PlacedImport<'_>],
    found: &mut Option<Violation>,
) -> Result<(), NoMemory>
    ensures { OnOk result (found.new ≡ noted found.old (spec.imports_violations (bodies_of bodies.now) (map spec.told imports.now))) }
{
    note_own(imports, found);
    note_unequal(alloc, imports, found)?;
    note_bodies(alloc, bodies, imports, found)?;
    Ok(())
}
