//! Declarations of modules, functions and tasks (IEEE 1800-2017, 13.3, 13.4 and 23.2).
ghost use Rattle.std.specs.Prelude.{◌≡◌, ◌≤◌, ◌++◌, IfOk, OnOk, flat_map, map, length};
ghost use Rattle.sv_instances.specs.Modules.{told};
ghost use Rattle.sv_design.specs.Items as spec;

use crate::declarations::{
    Declaration, Owner, add_all_variables, add_declaration, add_variables, owner_of,
};
use crate::statements::{add_stmt, add_stmts};
use dpi_ports::NoMemory;
use std::alloc::Global;
use sv_instances::{Placed, modules_of};
use sv_signatures::{Formal, Returns, Signature, function_signature, task_signature};
use sv_tree::{Body, Function, Item, SvFile, Task};

/// Adds the result of a function with a value, at its name.
fn add_result(
    file: u32,
    owner: Owner,
    token: u32,
    returns: Returns,
    list: &mut Vec<Declaration>,
) -> Result<(), NoMemory>
    ensures { OnOk result (list.new.items ≡ list.old.items ++ spec.result_declarations file owner token returns) }
{
    match returns {
        Returns::Void => Ok(()),
        Returns::Value(kind) => add_declaration(file, owner, token, kind, list),
    }
}

/// Adds the formals.
fn add_formals(
    file: u32,
    owner: Owner,
    formals: &[Formal],
    list: &mut Vec<Declaration>,
) -> Result<(), NoMemory>
    ensures { OnOk result (list.new.items ≡ list.old.items ++ flat_map (spec.formal_declarations file owner) formals.now) }
{
    for formal in formals {
        add_declaration(file, owner, formal.token, formal.kind, list)?;
    }
    Ok(())
}

/// Adds the result and the formals.
fn add_signature(
    file: u32,
    owner: Owner,
    signature: &Signature,
    list: &mut Vec<Declaration>,
) -> Result<(), NoMemory>
    ensures { OnOk result (list.new.items ≡ list.old.items ++ spec.signature_declarations file owner signature.now) }
{
    add_result(file, owner, signature.token, signature.result, list)?;
    add_formals(file, owner, signature.formals.as_slice(), list)
}

/// Adds the variables of a body, and what its statements declare.
fn add_body(
    file: u32,
    owner: Owner,
    body: &Body,
    list: &mut Vec<Declaration>,
) -> Result<(), NoMemory>
    ensures { OnOk result (list.new.items ≡ list.old.items ++ spec.body_declarations file owner body.now) }
{
    add_all_variables(file, owner, body.variables.as_slice(), list)?;
    add_stmts(file, owner, body.statements.as_slice(), list)
}

fn add_function(
    alloc: Global,
    file: u32,
    function: &Function,
    list: &mut Vec<Declaration>,
) -> Result<(), NoMemory>
    ensures { OnOk result (list.new.items ≡ list.old.items ++ spec.function_declarations file function.now) }
{
    let owner = owner_of(&function.life);
    let signature = function_signature(alloc, file, function, &mut None)?;
    add_signature(file, owner, &signature, list)?;
    add_body(file, owner, &function.body, list)
}

fn add_task(
    alloc: Global,
    file: u32,
    task: &Task,
    list: &mut Vec<Declaration>,
) -> Result<(), NoMemory>
    ensures { OnOk result (list.new.items ≡ list.old.items ++ spec.task_declarations file task.now) }
{
    let owner = owner_of(&task.life);
    let signature = task_signature(alloc, file, task, &mut None)?;
    add_signature(file, owner, &signature, list)?;
    add_body(file, owner, &task.body, list)
}

/// Adds what an item of a module declares.
pub(crate) fn add_item(
    alloc: Global,
    file: u32,
    item: &Item,
    list: &mut Vec<Declaration>,
) -> Result<(), NoMemory>
    ensures { OnOk result (list.new.items ≡ list.old.items ++ spec.item_declarations file item.now) }
{
    match item {
        Item::Variables(variables) => add_variables(file, Owner::Instance, variables, list),
        Item::Function(function) => add_function(alloc, file, function, list),
        Item::Task(task) => add_task(alloc, file, task, list),
        Item::Initial(_, stmt) => add_stmt(file, Owner::Instance, stmt, list),
        Item::Import(_) | Item::Export(_) | Item::Instance(..) => Ok(()),
    }
}

/// Adds what items declare.
fn add_items(
    alloc: Global,
    file: u32,
    items: &[Item],
    list: &mut Vec<Declaration>,
) -> Result<(), NoMemory>
    ensures { OnOk result (list.new.items ≡ list.old.items ++ flat_map (spec.item_declarations file) items.now) }
{
    for item in items {
        add_item(alloc, file, item, list)?;
    }
    Ok(())
}

/// Adds what modules declare.
fn add_modules(
    alloc: Global,
    modules: &[Placed<'_>],
    list: &mut Vec<Declaration>,
) -> Result<(), NoMemory>
    ensures { OnOk result (list.new.items ≡ list.old.items ++ flat_map spec.module_declarations (map told modules.now)) }
{
    for placed in modules {
        add_items(alloc, placed.file, placed.tree.items.as_slice(), list)?;
    }
    Ok(())
}

/// The declarations of a design in text order: the variables of modules and blocks, those of `for`,
/// and of each function and task its result, if it has one, its formals and its variables. The
/// result stands at the function's name (IEEE 1800-2017, 13.4.1). A declaration whose kind is
/// refused is left out. There are at most 1,000 files. NoMemory where no memory was found.
pub fn declarations_of(alloc: Global, files: &[SvFile]) -> Result<Vec<Declaration>, NoMemory>
    requires { length files.now ≤ 1000 }
    ensures { IfOk result (λ list. list.items ≡ spec.declarations_in files.now) }
{
    let modules = modules_of(alloc, files)?;
    let mut list = Vec::new(alloc);
    add_modules(alloc, &modules, &mut list)?;
    Ok(list)
}
