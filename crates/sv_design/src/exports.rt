//! Exports (IEEE 1800-2017, 35.5.5).
ghost use Rattle.std.specs.Prelude.{◌≡◌, ◌≤◌, ◌++◌, IfOk, OnOk, flat_map, map, length};
ghost use Rattle.sv_instances.specs.Modules.{told};
ghost use Rattle.sv_design.specs.Exports as spec;

use crate::imports::c_name_of;
use crate::numbers::next;
use dpi_ports::NoMemory;
use sqlite_items::Items;
use std::alloc::Global;
use sv_instances::{Placed, modules_of};
use sv_tree::{Item, SvFile};

/// An exported function or task.
#[derive(Drop)]
pub struct Export {
    /// The number of the file.
    pub file: u32,
    /// The number of the token of the last name of its item.
    pub token: u32,
    /// Its name in C: where none is written, its name (35.4).
    pub c_name: Items<u8>,
    /// Whether it says that it is a task.
    pub is_task: bool,
    /// The number of the function or task of its module that has its name. None where none has.
    pub subroutine: Option<u32>,
}

/// Whether an item is a function or a task of this name.
fn is_named(item: &Item, name: &[u8]) -> bool
    ensures { result ≡ spec.is_named name.now item.now }
{
    match item {
        Item::Function(function) => function.name.bytes.as_slice() == name,
        Item::Task(task) => task.name.bytes.as_slice() == name,
        _ => false,
    }
}

/// The number behind an item, where this one is the next of a function or a task.
fn behind_item(number: u32, item: &Item) -> Result<u32, NoMemory>
    ensures { IfOk result (λ r. r ≡ spec.behind_item number item.now) }
{
    match item {
        Item::Function(_) | Item::Task(_) => next(number),
        _ => Ok(number),
    }
}

/// The number behind items, where this one is the next of a function or a task.
fn behind_items(number: u32, items: &[Item]) -> Result<u32, NoMemory>
    ensures { IfOk result (λ r. r ≡ spec.behind_items number items.now) }
{
    let mut behind = number;
    for item in items {
        behind = behind_item(behind, item)?;
    }
    Ok(behind)
}

/// The number of the first function or task of this name among items, counted from this number on.
fn subroutine_named(first: u32, items: &[Item], name: &[u8]) -> Result<Option<u32>, NoMemory>
    ensures { IfOk result (λ r. r ≡ spec.subroutine_named name.now first items.now) }
{
    let mut number = first;
    for item in items {
        if is_named(item, name) {
            return Ok(Some(number));
        }
        number = behind_item(number, item)?;
    }
    Ok(None)
}

/// An export of a module of these items, of which the first function or task has this number.
fn export_of(
    alloc: Global,
    file: u32,
    first: u32,
    items: &[Item],
    tree: &sv_tree::Export,
) -> Result<Export, NoMemory>
    ensures { IfOk result (λ r. r ≡ spec.export_of file first items.now tree.now) }
{
    let c_name = c_name_of(alloc, &tree.c_name, &tree.name)?;
    let subroutine = subroutine_named(first, items, tree.name.bytes.as_slice())?;
    Ok(Export {
        file,
        token: tree.name.token,
        c_name,
        is_task: tree.task,
        subroutine,
    })
}

/// Adds the export that an item is, if it is one.
fn add_export(
    alloc: Global,
    file: u32,
    first: u32,
    items: &[Item],
    item: &Item,
    list: &mut Vec<Export>,
) -> Result<(), NoMemory>
    ensures { OnOk result (list.new.items ≡ list.old.items ++ spec.item_exports file first items.now item.now) }
{
    if let Item::Export(tree) = item {
        list.push(export_of(alloc, file, first, items, tree)?)?;
    }
    Ok(())
}

/// Adds the exports of a module of these items.
fn add_exports(
    alloc: Global,
    file: u32,
    first: u32,
    items: &[Item],
    list: &mut Vec<Export>,
) -> Result<(), NoMemory>
    ensures { OnOk result (list.new.items ≡ list.old.items ++ flat_map (spec.item_exports file first items.now) items.now) }
{
    for item in items {
        add_export(alloc, file, first, items, item, list)?;
    }
    Ok(())
}

/// Adds the exports of modules.
fn add_module_exports(
    alloc: Global,
    modules: &[Placed<'_>],
    list: &mut Vec<Export>,
) -> Result<(), NoMemory>
    ensures { OnOk result (list.new.items ≡ list.old.items ++ spec.exports_from 0 (map told modules.now)) }
{
    let mut first = 0;
    for placed in modules {
        let items = placed.tree.items.as_slice();
        add_exports(alloc, placed.file, first, items, list)?;
        first = behind_items(first, items)?;
    }
    Ok(())
}

/// The exports of a design in text order. Numbers of functions and tasks are positions in what
/// `subroutines_of` lists. There are at most 1,000 files. NoMemory where no memory was found, or a
/// number has more than 32 bits.
pub fn exports_of(alloc: Global, files: &[SvFile]) -> Result<Vec<Export>, NoMemory>
    requires { length files.now ≤ 1000 }
    ensures { IfOk result (λ list. list.items ≡ spec.exports_in files.now) }
{
    let modules = modules_of(alloc, files)?;
    let mut list = Vec::new(alloc);
    add_module_exports(alloc, &modules, &mut list)?;
    Ok(list)
}
