//! Initial blocks and named blocks by number (IEEE 1800-2017, 9.2.1 and 9.3.4).
ghost use Rattle.std.specs.Prelude.{◌≡◌, ◌≤◌, ◌++◌, IfOk, OnOk, flat_map, map, length};
ghost use Rattle.sv_instances.specs.Modules.{told};
ghost use Rattle.sv_design.specs.Places as spec;

use crate::blocks::{add_stmt, add_stmts};
use dpi_ports::NoMemory;
use std::alloc::Global;
use sv_instances::{Placed, modules_of};
use sv_tree::{Item, SvFile};

/// A token of a file.
#[derive(Clone, Copy, Debug, PartialEq, Eq)]
pub struct Place {
    /// The number of the file.
    pub file: u32,
    /// The number of the token.
    pub token: u32,
}

/// Adds the initial block that an item is, if it is one.
fn add_initial(file: u32, item: &Item, list: &mut Vec<Place>) -> Result<(), NoMemory>
    ensures { OnOk result (list.new.items ≡ list.old.items ++ spec.item_initials file item.now) }
{
    if let Item::Initial(token, _) = item {
        list.push(Place {
            file,
            token: *token,
        })?;
    }
    Ok(())
}

/// Adds the initial blocks among items.
fn add_initials(file: u32, items: &[Item], list: &mut Vec<Place>) -> Result<(), NoMemory>
    ensures { OnOk result (list.new.items ≡ list.old.items ++ flat_map (spec.item_initials file) items.now) }
{
    for item in items {
        add_initial(file, item, list)?;
    }
    Ok(())
}

/// Adds the initial blocks of modules.
fn add_module_initials(modules: &[Placed<'_>], list: &mut Vec<Place>) -> Result<(), NoMemory>
    ensures { OnOk result (list.new.items ≡ list.old.items ++ flat_map spec.module_initials (map told modules.now)) }
{
    for placed in modules {
        add_initials(placed.file, placed.tree.items.as_slice(), list)?;
    }
    Ok(())
}

/// The initial blocks of a design in text order, each at its `initial`. There are at most 1,000
/// files. NoMemory where no memory was found.
pub fn initials_of(alloc: Global, files: &[SvFile]) -> Result<Vec<Place>, NoMemory>
    requires { length files.now ≤ 1000 }
    ensures { IfOk result (λ list. list.items ≡ spec.initials_in files.now) }
{
    let modules = modules_of(alloc, files)?;
    let mut list = Vec::new(alloc);
    add_module_initials(&modules, &mut list)?;
    Ok(list)
}

/// Adds the named blocks of an item.
fn add_item_blocks(file: u32, item: &Item, list: &mut Vec<Place>) -> Result<(), NoMemory>
    ensures { OnOk result (list.new.items ≡ list.old.items ++ spec.item_blocks file item.now) }
{
    match item {
        Item::Function(function) => add_stmts(file, function.body.statements.as_slice(), list),
        Item::Task(task) => add_stmts(file, task.body.statements.as_slice(), list),
        Item::Initial(_, stmt) => add_stmt(file, stmt, list),
        _ => Ok(()),
    }
}

/// Adds the named blocks of items.
fn add_blocks(file: u32, items: &[Item], list: &mut Vec<Place>) -> Result<(), NoMemory>
    ensures { OnOk result (list.new.items ≡ list.old.items ++ flat_map (spec.item_blocks file) items.now) }
{
    for item in items {
        add_item_blocks(file, item, list)?;
    }
    Ok(())
}

/// Adds the named blocks of modules.
fn add_module_blocks(modules: &[Placed<'_>], list: &mut Vec<Place>) -> Result<(), NoMemory>
    ensures { OnOk result (list.new.items ≡ list.old.items ++ flat_map spec.module_blocks (map told modules.now)) }
{
    for placed in modules {
        add_blocks(placed.file, placed.tree.items.as_slice(), list)?;
    }
    Ok(())
}

/// The named blocks of a design in text order, each at its name, before those inside it. There are
/// at most 1,000 files. NoMemory where no memory was found.
pub fn blocks_of(alloc: Global, files: &[SvFile]) -> Result<Vec<Place>, NoMemory>
    requires { length files.now ≤ 1000 }
    ensures { IfOk result (λ list. list.items ≡ spec.blocks_in files.now) }
{
    let modules = modules_of(alloc, files)?;
    let mut list = Vec::new(alloc);
    add_module_blocks(&modules, &mut list)?;
    Ok(list)
}
