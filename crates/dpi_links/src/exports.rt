//! Exports, with what they export (IEEE 1800-2017, 35.4 and 35.5.5).
ghost use Rattle.std.specs.Prelude.{◌≡◌, [], ◌∷◌, ◌++◌, map, filter, flat_map, option_map, IfOk, OnOk};
ghost use Rattle.dpi_rules.specs.Least.{noted};
ghost use Rattle.sv_instances.specs.Modules as placed_modules;
ghost use Rattle.sv_names.specs.Names.{names_of};
ghost use Rattle.dpi_links.specs.Exports as spec;

use dpi_agree::LinkedExport;
use dpi_items::export_c_name;
use dpi_ports::NoMemory;
use sqlite_items::Items;
use std::alloc::Global;
use sv_instances::Placed;
use sv_names::{Scope, exported, module_scope};
use sv_signatures::{Signature, function_signature, task_signature};
use sv_tree::{Export, Item};

/// An export, with the file that it stands in.
#[derive(Drop)]
pub(crate) struct PlacedExport<'a> {
    /// The number of the file, from 0.
    pub(crate) file: u32,
    /// The export.
    pub(crate) tree: &'a Export,
    /// The function or task of its module that its name means. None where it means neither.
    pub(crate) item: Option<&'a Item>,
    /// The signature of that.
    pub(crate) signature: Option<Signature>,
}

fn is_subroutine(item: &Item) -> bool
    ensures { result ≡ spec.is_subroutine item.now }
{
    matches!(item, Item::Function(_) | Item::Task(_))
}

fn add_subroutine<'a>(list: &mut Items<&'a Item>, item: &'a Item) -> Result<(), NoMemory>
    ensures { OnOk result (map spec.item_of list.new ≡ map spec.item_of list.old ++ filter spec.is_subroutine (item.now ∷ [])) }
{
    if is_subroutine(item) {
        list.push(item)?;
    }
    Ok(())
}

/// The functions and tasks among the items of a module.
fn subroutines_of<'a>(alloc: Global, items: &'a [Item]) -> Result<Items<&'a Item>, NoMemory>
    ensures { IfOk result (λ list. map spec.item_of list ≡ filter spec.is_subroutine items.now) }
{
    let mut list = Items::new(alloc);
    for item in items {
        add_subroutine(&mut list, item)?;
    }
    Ok(list)
}

fn numbered<'a>(subroutines: &[&'a Item], number: Option<usize>) -> Option<&'a Item>
    ensures { option_map spec.item_of result ≡ spec.numbered (map spec.item_of subroutines.now) number }
{
    match number {
        None => None,
        Some(number) => subroutines.get(number).copied(),
    }
}

/// The function or task that a name of the module means.
fn meant<'a>(scope: &Scope<'_>, subroutines: &[&'a Item], name: &[u8]) -> Option<&'a Item>
    ensures { option_map spec.item_of result ≡ spec.meant (names_of scope.now) (map spec.item_of subroutines.now) name.now }
{
    numbered(subroutines, exported(scope.get(name)))
}

fn item_signature(alloc: Global, file: u32, item: &Item) -> Result<Option<Signature>, NoMemory>
    ensures { IfOk result (λ r. r ≡ spec.item_signature item.now) }
{
    let mut found = None;
    match item {
        Item::Function(function) => {
            Ok(Some(function_signature(alloc, file, function, &mut found)?))
        }
        Item::Task(task) => Ok(Some(task_signature(alloc, file, task, &mut found)?)),
        _ => Ok(None),
    }
}

fn signature_of(
    alloc: Global,
    file: u32,
    item: Option<&Item>,
) -> Result<Option<Signature>, NoMemory>
    ensures { IfOk result (λ r. r ≡ spec.signature_of (option_map spec.item_of item.entry)) }
{
    match item {
        None => Ok(None),
        Some(item) => item_signature(alloc, file, item),
    }
}

fn add_export<'a>(
    alloc: Global,
    list: &mut Items<PlacedExport<'a>>,
    file: u32,
    tree: &'a Export,
    item: Option<&'a Item>,
) -> Result<(), NoMemory>
    ensures { OnOk result (map spec.told list.new ≡ map spec.told list.old ++ spec.exported_as file tree.now (option_map spec.item_of item.entry) ∷ []) }
{
    let signature = signature_of(alloc, file, item)?;
    list.push(PlacedExport {
        file,
        tree,
        item,
        signature,
    })?;
    Ok(())
}

fn add_item<'a>(
    alloc: Global,
    list: &mut Items<PlacedExport<'a>>,
    scope: &Scope<'_>,
    subroutines: &[&'a Item],
    file: u32,
    item: &'a Item,
) -> Result<(), NoMemory>
    ensures { OnOk result (map spec.told list.new ≡ map spec.told list.old ++ spec.item_exports (names_of scope.now) (map spec.item_of subroutines.now) file item.now) }
{
    match item {
        Item::Export(tree) => {
            let meant = meant(scope, subroutines, tree.name.bytes.as_slice());
            add_export(alloc, list, file, tree, meant)
        }
        _ => Ok(()),
    }
}

fn listed<'a>(
    alloc: Global,
    scope: &Scope<'_>,
    subroutines: &[&'a Item],
    file: u32,
    items: &'a [Item],
) -> Result<Items<PlacedExport<'a>>, NoMemory>
    ensures { IfOk result (λ list. map spec.told list ≡ flat_map (spec.item_exports (names_of scope.now) (map spec.item_of subroutines.now) file) items.now) }
{
    let mut list = Items::new(alloc);
    for item in items {
        add_item(alloc, &mut list, scope, subroutines, file, item)?;
    }
    Ok(list)
}

fn module_exports<'a>(
    alloc: Global,
    placed: Placed<'a>,
) -> Result<Items<PlacedExport<'a>>, NoMemory>
    ensures { IfOk result (λ list. map spec.told list ≡ spec.module_exports (placed_modules.told placed.entry)) }
{
    let items = placed.tree.items.as_slice();
    let mut found = None;
    let scope = module_scope(alloc, placed.file, placed.tree, &mut found)?;
    let subroutines = subroutines_of(alloc, items)?;
    listed(alloc, &scope, subroutines.as_slice(), placed.file, items)
}

/// The exports of each of these modules, in text order. NoMemory where no memory was found.
pub(crate) fn exports_of<'a>(
    alloc: Global,
    modules: &[Placed<'a>],
) -> Result<Items<Items<PlacedExport<'a>>>, NoMemory>
    ensures { IfOk result (λ table. map (map spec.told) table ≡ spec.exports_in (map placed_modules.told modules.now)) }
{
    let mut table = Items::new(alloc);
    for placed in modules {
        table.push(module_exports(alloc, *placed)?)?;
    }
    Ok(table)
}

/// An export by its name in C.
fn named<'a>(export: &'a PlacedExport<'_>) -> LinkedExport<'a>
    ensures { spec.named_told result ≡ spec.named (spec.told export.now) }
{
    LinkedExport {
        file: export.file,
        token: export.tree.name.token,
        name: export_c_name(export.tree),
        signature: export.signature.as_ref(),
    }
}

fn add_named<'a>(
    list: &mut Items<LinkedExport<'a>>,
    exports: &'a [PlacedExport<'_>],
) -> Result<(), NoMemory>
    ensures { OnOk result (map spec.named_told list.new ≡ map spec.named_told list.old ++ map spec.named (map spec.told exports.now)) }
{
    for export in exports {
        list.push(named(export))?;
    }
    Ok(())
}

/// The exports of one module by their names in C. NoMemory where no memory was found.
pub(crate) fn module_named<'a>(
    alloc: Global,
    exports: &'a [PlacedExport<'_>],
) -> Result<Items<LinkedExport<'a>>, NoMemory>
    ensures { IfOk result (λ list. map spec.named_told list ≡ map spec.named (map spec.told exports.now)) }
{
    let mut list = Items::new(alloc);
    add_named(&mut list, exports)?;
    Ok(list)
}

/// The exports of all modules by their names in C. NoMemory where no memory was found.
pub(crate) fn all_named<'a>(
    alloc: Global,
    table: &'a [Items<PlacedExport<'_>>],
) -> Result<Items<LinkedExport<'a>>, NoMemory>
    ensures { IfOk result (λ list. map spec.named_told list ≡ spec.all_named (map (map spec.told) table.now)) }
{
    let mut list = Items::new(alloc);
    for exports in table {
        add_named(&mut list, exports.as_slice())?;
    }
    Ok(list)
}
