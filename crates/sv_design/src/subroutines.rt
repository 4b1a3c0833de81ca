//! Functions and tasks by number (IEEE 1800-2017, 13.3 and 13.4).
ghost use Rattle.std.specs.Prelude.{◌≡◌, ◌≤◌, ◌++◌, IfOk, OnOk, flat_map, map, length};
ghost use Rattle.sv_instances.specs.Modules.{told};
ghost use Rattle.sv_design.specs.Items.{item_declarations, module_declarations};
ghost use Rattle.sv_design.specs.Counted.{counted};
ghost use Rattle.sv_design.specs.Subroutines as spec;

use crate::declarations::{Declaration, is_automatic};
use crate::items::add_item;
use crate::numbers::{next, number_of};
use dpi_ports::NoMemory;
use sqlite_items::Items;
use std::alloc::Global;
use sv_instances::{Placed, modules_of};
use sv_shapes::VarKind;
use sv_signatures::{Returns, Signature, function_signature, task_signature};
use sv_tree::{Direction, Function, Item, SvFile, Task};

/// A formal of a function or a task.
#[derive(Clone, Copy, Debug, PartialEq, Eq)]
pub struct Formal {
    /// Its direction.
    pub dir: Direction,
    /// The number of its declaration.
    pub declaration: u32,
}

/// A function or a task.
#[derive(Drop)]
pub struct Subroutine {
    /// The number of the file.
    pub file: u32,
    /// The number of its name's token.
    pub token: u32,
    /// Whether it is a task.
    pub is_task: bool,
    /// Whether it is automatic (13.3.1, 13.4.2).
    pub automatic: bool,
    /// The number of its result's declaration. None for a task and a void function.
    pub result: Option<u32>,
    /// Its formals, in order.
    pub formals: Items<Formal>,
}

/// The number behind a name of this kind that may have this number.
fn behind(number: u32, kind: Option<VarKind>) -> Result<u32, NoMemory>
    ensures { IfOk result (λ r. r ≡ spec.behind number kind) }
{
    match kind {
        None => Ok(number),
        Some(_) => next(number),
    }
}

/// The number behind what a function gives.
fn behind_result(number: u32, returns: Returns) -> Result<u32, NoMemory>
    ensures { IfOk result (λ r. r ≡ spec.behind_result number returns) }
{
    match returns {
        Returns::Void => Ok(number),
        Returns::Value(kind) => behind(number, kind),
    }
}

/// The number of a result's declaration, if there is one.
fn result_number(number: u32, returns: Returns) -> Option<u32>
    ensures { result ≡ spec.result_number number returns }
{
    match returns {
        Returns::Void | Returns::Value(None) => None,
        Returns::Value(Some(_)) => Some(number),
    }
}

/// Adds a formal whose declaration has this number, unless its kind is refused.
fn add_formal(
    number: u32,
    formal: &sv_signatures::Formal,
    list: &mut Items<Formal>,
) -> Result<(), NoMemory>
    ensures { OnOk result (list.new ≡ list.old ++ spec.formal number formal.now.direction formal.now.kind) }
{
    if formal.kind.is_some() {
        list.push(Formal {
            dir: formal.direction,
            declaration: number,
        })?;
    }
    Ok(())
}

/// Formals whose declarations are numbered from this number on.
fn numbered_formals(
    alloc: Global,
    first: u32,
    formals: &[sv_signatures::Formal],
) -> Result<Items<Formal>, NoMemory>
    ensures { IfOk result (λ r. r ≡ spec.formals_from first formals.now) }
{
    let mut list = Items::new(alloc);
    let mut number = first;
    for formal in formals {
        add_formal(number, formal, &mut list)?;
        number = behind(number, formal.kind)?;
    }
    Ok(list)
}

/// A function or a task whose declarations are numbered from this number on.
fn subroutine_of(
    alloc: Global,
    file: u32,
    first: u32,
    automatic: bool,
    signature: &Signature,
) -> Result<Subroutine, NoMemory>
    ensures { IfOk result (λ r. r ≡ spec.subroutine_of file first automatic signature.now) }
{
    let behind = behind_result(first, signature.result)?;
    let formals = numbered_formals(alloc, behind, signature.formals.as_slice())?;
    Ok(Subroutine {
        file,
        token: signature.token,
        is_task: signature.is_task,
        automatic,
        result: result_number(first, signature.result),
        formals,
    })
}

fn function_subroutine(
    alloc: Global,
    file: u32,
    first: u32,
    function: &Function,
) -> Result<Subroutine, NoMemory>
    ensures { IfOk result (λ r. r ≡ spec.function_subroutine file first function.now) }
{
    let signature = function_signature(alloc, file, function, &mut None)?;
    subroutine_of(alloc, file, first, is_automatic(&function.life), &signature)
}

fn task_subroutine(
    alloc: Global,
    file: u32,
    first: u32,
    task: &Task,
) -> Result<Subroutine, NoMemory>
    ensures { IfOk result (λ r. r ≡ spec.task_subroutine file first task.now) }
{
    let signature = task_signature(alloc, file, task, &mut None)?;
    subroutine_of(alloc, file, first, is_automatic(&task.life), &signature)
}

/// Adds the function or the task that an item declares, if it does; so many declarations stand
/// before it.
fn add_subroutine(
    alloc: Global,
    file: u32,
    first: u32,
    item: &Item,
    list: &mut Vec<Subroutine>,
) -> Result<(), NoMemory>
    ensures { OnOk result (list.new.items ≡ list.old.items ++ spec.item_subroutines file first item.now) }
{
    match item {
        Item::Function(function) => {
            list.push(function_subroutine(alloc, file, first, function)?)?;
        }
        Item::Task(task) => {
            list.push(task_subroutine(alloc, file, first, task)?)?;
        }
        _ => {}
    }
    Ok(())
}

/// Adds the functions and tasks of items, and what the items declare.
fn add_subroutines(
    alloc: Global,
    file: u32,
    items: &[Item],
    declared: &mut Vec<Declaration>,
    list: &mut Vec<Subroutine>,
) -> Result<(), NoMemory>
    ensures { OnOk result ((declared.new.items ≡ declared.old.items ++ flat_map (item_declarations file) items.now) × (list.new.items ≡ list.old.items ++ counted (item_declarations file) (spec.item_subroutines file) (length declared.old.items) items.now)) }
{
    for item in items {
        let first = number_of(declared.len())?;
        add_subroutine(alloc, file, first, item, list)?;
        add_item(alloc, file, item, declared)?;
    }
    Ok(())
}

/// Adds the functions and tasks of modules, and what the modules declare.
fn add_module_subroutines(
    alloc: Global,
    modules: &[Placed<'_>],
    declared: &mut Vec<Declaration>,
    list: &mut Vec<Subroutine>,
) -> Result<(), NoMemory>
    ensures { OnOk result (list.new.items ≡ list.old.items ++ counted module_declarations spec.module_subroutines (length declared.old.items) (map told modules.now)) }
{
    for placed in modules {
        add_subroutines(
            alloc,
            placed.file,
            placed.tree.items.as_slice(),
            declared,
            list,
        )?;
    }
    Ok(())
}

/// The functions and tasks of a design in text order. Numbers of declarations are positions in what
/// `declarations_of` lists; a formal whose kind is refused is left out. There are at most 1,000
/// files. NoMemory where no memory was found, or a number has more than 32 bits.
pub fn subroutines_of(alloc: Global, files: &[SvFile]) -> Result<Vec<Subroutine>, NoMemory>
    requires { length files.now ≤ 1000 }
    ensures { IfOk result (λ list. list.items ≡ spec.subroutines_in files.now) }
{
    let modules = modules_of(alloc, files)?;
    let mut declared = Vec::new(alloc);
    let mut list = Vec::new(alloc);
    add_module_subroutines(alloc, &modules, &mut declared, &mut list)?;
    Ok(list)
}
