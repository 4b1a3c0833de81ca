//! Exports by module and name in C (IEEE 1800-2017, 35.5.5).
ghost use Rattle.std.specs.Prelude.{◌≡◌, ◌≤◌, ◌++◌, length, map, flat_map, IfOk, OnOk};
ghost use Rattle.dpi_table.specs.Files.{in_file};
ghost use Rattle.sv_instances.specs.Modules.{told, modules_in};
ghost use Rattle.dpi_decl.specs.Exports as spec;

use dpi_items::export_c_name;
use dpi_numbered::next;
use dpi_ports::NoMemory;
use dpi_table::Tables;
use sqlite_items::Items;
use std::alloc::Global;
use sv_design::Export;
use sv_instances::{Placed, modules_of};
use sv_tree::{Item, SvFile};

/// A name in C that a module exports.
#[derive(Drop)]
pub struct ExportName {
    /// The name.
    pub name: Items<u8>,
    /// The number of the export.
    pub number: u32,
}

/// The numbers of exports by file and token: of several at one token the first counts.
fn numbers_of(alloc: Global, exports: &[Export]) -> Result<Tables<u32>, NoMemory>
    ensures { IfOk result (λ numbers. in_file numbers ≡ spec.numbers_in exports.now) }
{
    let mut numbers = Tables::new(alloc);
    let mut number = 0;
    for export in exports {
        numbers.put(alloc, export.file, export.token, number)?;
        number = next(number)?;
    }
    Ok(numbers)
}

/// Adds a name in C, whose export has this number.
fn add_name(
    alloc: Global,
    name: &[u8],
    number: Option<u32>,
    list: &mut Items<ExportName>,
) -> Result<(), NoMemory>
    ensures { OnOk result (list.new ≡ list.old ++ spec.export_name name.now number) }
{
    match number {
        None => Ok(()),
        Some(number) => {
            list.push(ExportName {
                name: Items::from_slice(alloc, name)?,
                number,
            })?;
            Ok(())
        }
    }
}

/// Adds the name of an item that is an export.
fn add_item(
    alloc: Global,
    numbers: &Tables<u32>,
    file: u32,
    item: &Item,
    list: &mut Items<ExportName>,
) -> Result<(), NoMemory>
    ensures { OnOk result (list.new ≡ list.old ++ spec.item_names (in_file numbers.now) file item.now) }
{
    match item {
        Item::Export(export) => {
            let number = numbers.get(file, export.name.token);
            add_name(alloc, export_c_name(export), number, list)
        }
        _ => Ok(()),
    }
}

/// The names that a module exports, in text order.
fn module_names(
    alloc: Global,
    numbers: &Tables<u32>,
    placed: Placed<'_>,
) -> Result<Items<ExportName>, NoMemory>
    ensures { IfOk result (λ r. r ≡ spec.module_names (in_file numbers.now) (told placed.entry)) }
{
    let mut list = Items::new(alloc);
    for item in placed.tree.items.as_slice() {
        add_item(alloc, numbers, placed.file, item, &mut list)?;
    }
    Ok(list)
}

/// The names that each module exports, by the number of the module.
fn all_names(
    alloc: Global,
    numbers: &Tables<u32>,
    modules: &[Placed<'_>],
) -> Result<Items<Items<ExportName>>, NoMemory>
    ensures { IfOk result (λ r. r ≡ map (spec.module_names (in_file numbers.now)) (map told modules.now)) }
{
    let mut table = Items::new(alloc);
    for placed in modules {
        table.push(module_names(alloc, numbers, *placed)?)?;
    }
    Ok(table)
}

/// The names in C that each module exports, by the number of the module over all files, each with the
/// position of its export in the list. There are at most 1,000 files. NoMemory where no memory was
/// found.
pub fn exported_names(
    alloc: Global,
    files: &[SvFile],
    exports: &[Export],
) -> Result<Items<Items<ExportName>>, NoMemory>
    requires { length files.now ≤ 1000 }
    ensures { IfOk result (λ r. r ≡ spec.names_of (modules_in files.now) exports.now) }
{
    let modules = modules_of(alloc, files)?;
    let numbers = numbers_of(alloc, exports)?;
    let table = all_names(alloc, &numbers, &modules)?;
    Ok(table)
}

/// The names that the module of this number exports.
pub fn names_at(table: &[Items<ExportName>], number: usize) -> &[ExportName]
    ensures { result.now ≡ spec.names_at table.now number }
{
    match table.get(number) {
        Some(list) => list.as_slice(),
        None => &[],
    }
}

/// The number of the first export of this name.
pub fn number_named(names: &[ExportName], name: &[u8]) -> Option<u32>
    ensures { result ≡ spec.number_named name.now names.now }
{
    for export in names {
        if export.name.as_slice() == name {
            return Some(export.number);
        }
    }
    None
}
