//! Items of modules (IEEE 1800-2017, 6.8, 9.2.1, 13, 23.3.2 and 35).
ghost use Rattle.std.specs.Prelude.{◌≡◌, ◌++◌, IfOk, OnOk, flat_map};
ghost use Rattle.sv_names.specs.Scopes.{scopes_of};
ghost use Rattle.sv_names.specs.Names.{no_names, names_of};
ghost use Rattle.sv_names.specs.Declaring.{with_all};
ghost use Rattle.sv_inside.specs.Seen.{here, here_in, inner_of_function, inner_of_task};
ghost use Rattle.sv_meanings.specs.Declarations.{declares};
ghost use Rattle.sv_meanings.specs.Items as spec;

use crate::declarations::{add_declared, add_meant, add_variables};
use crate::statements::{add_body, add_stmt};
use dpi_ports::NoMemory;
use sqlite_items::Items;
use std::alloc::Global;
use sv_facts::{Fact, Meant, add_name};
use sv_inside::kinds_of;
use sv_names::{Scope, Scopes, function_scope, task_scope};
use sv_signatures::{function_signature, task_signature};
use sv_tree::{Body, Export, Formal, Function, Item, Task};
use sv_walk::Around;

/// Adds that formals are declared.
fn add_each_formal(formals: &[Formal], list: &mut Vec<Fact>) -> Result<(), NoMemory>
    ensures { OnOk result (list.new.items ≡ list.old.items ++ flat_map (λ f. declares f.name) formals.now) }
{
    for formal in formals {
        add_declared(&formal.name, list)?;
    }
    Ok(())
}

/// Adds that the formals are declared that are written.
fn add_formals(formals: &Option<Items<Formal>>, list: &mut Vec<Fact>) -> Result<(), NoMemory>
    ensures { OnOk result (list.new.items ≡ list.old.items ++ spec.formals_facts formals.now) }
{
    match formals {
        None => Ok(()),
        Some(formals) => add_each_formal(formals.as_slice(), list),
    }
}

/// The scope of a function.
fn inner_of<'a>(alloc: Global, file: u32, function: &'a Function) -> Result<Scope<'a>, NoMemory>
    ensures { IfOk result (λ s. names_of s ≡ with_all no_names (inner_of_function function.now)) }
{
    let signature = function_signature(alloc, file, function, &mut None)?;
    let kinds = kinds_of(alloc, signature.formals.as_slice())?;
    function_scope(alloc, file, function, &kinds, &mut None)
}

/// The scope of a task.
fn inner_of_the_task<'a>(alloc: Global, file: u32, task: &'a Task) -> Result<Scope<'a>, NoMemory>
    ensures { IfOk result (λ s. names_of s ≡ with_all no_names (inner_of_task task.now)) }
{
    let signature = task_signature(alloc, file, task, &mut None)?;
    let kinds = kinds_of(alloc, signature.formals.as_slice())?;
    task_scope(alloc, file, task, &kinds, &mut None)
}

/// Adds what the variables and statements of a body tell inside this scope.
fn add_inside<'a>(
    alloc: Global,
    around: &Around<'_>,
    scopes: &mut Scopes<'a>,
    scope: Scope<'a>,
    body: &'a Body,
    list: &mut Vec<Fact>,
) -> Result<(), NoMemory>
    ensures { OnOk result ((scopes_of scopes.new ≡ scopes_of scopes.old) × (list.new.items ≡ list.old.items ++ spec.body_facts (here_in around.now scopes.old scope.entry) body.now)) }
{
    scopes.enter(scope)?;
    add_body(
        alloc,
        around,
        scopes,
        body.variables.as_slice(),
        body.statements.as_slice(),
        list,
    )?;
    scopes.leave();
    Ok(())
}

/// Adds what a function tells: its name, its formals, and what stands inside its scope.
fn add_function<'a>(
    alloc: Global,
    around: &Around<'_>,
    scopes: &mut Scopes<'a>,
    function: &'a Function,
    list: &mut Vec<Fact>,
) -> Result<(), NoMemory>
    ensures { OnOk result ((scopes_of scopes.new ≡ scopes_of scopes.old) × (list.new.items ≡ list.old.items ++ spec.function_facts (here around.now scopes.old) function.now)) }
{
    let name = &function.name;
    add_meant(name, Meant::Subroutine(name.token), list)?;
    add_formals(&function.formals, list)?;
    let scope = inner_of(alloc, around.file, function)?;
    let inner = Around {
        in_function: true,
        ..*around
    };
    add_inside(alloc, &inner, scopes, scope, &function.body, list)
}

/// Adds what a task tells: its name, its formals, and what stands inside its scope.
fn add_task<'a>(
    alloc: Global,
    around: &Around<'_>,
    scopes: &mut Scopes<'a>,
    task: &'a Task,
    list: &mut Vec<Fact>,
) -> Result<(), NoMemory>
    ensures { OnOk result ((scopes_of scopes.new ≡ scopes_of scopes.old) × (list.new.items ≡ list.old.items ++ spec.task_facts (here around.now scopes.old) task.now)) }
{
    let name = &task.name;
    add_meant(name, Meant::Subroutine(name.token), list)?;
    add_formals(&task.formals, list)?;
    let scope = inner_of_the_task(alloc, around.file, task)?;
    let inner = Around {
        in_function: false,
        ..*around
    };
    add_inside(alloc, &inner, scopes, scope, &task.body, list)
}

/// Adds what an export names in the scopes of its module.
fn add_export(scopes: &Scopes<'_>, export: &Export, list: &mut Vec<Fact>) -> Result<(), NoMemory>
    ensures { OnOk result (list.new.items ≡ list.old.items ++ spec.export_facts (scopes_of scopes.now) export.now) }
{
    let name = &export.name;
    add_name(name.token, scopes.find(name.bytes.as_slice()), list)
}

/// Adds what an item of a module tells inside the scopes of the module, which are the same when it
/// is done.
pub(crate) fn add_item<'a>(
    alloc: Global,
    around: &Around<'_>,
    scopes: &mut Scopes<'a>,
    item: &'a Item,
    list: &mut Vec<Fact>,
) -> Result<(), NoMemory>
    ensures { OnOk result ((scopes_of scopes.new ≡ scopes_of scopes.old) × (list.new.items ≡ list.old.items ++ spec.item_facts (here around.now scopes.old) item.now)) }
{
    match item {
        Item::Variables(variables) => add_variables(alloc, around, scopes, variables, list),
        Item::Import(import) => { add_meant(&import.name, Meant::Import(import.name.token), list) }
        Item::Export(export) => add_export(scopes, export, list),
        Item::Function(function) => add_function(alloc, around, scopes, function, list),
        Item::Task(task) => add_task(alloc, around, scopes, task, list),
        Item::Initial(_, stmt) => add_stmt(alloc, around, scopes, stmt, list),
        Item::Instance(name, _) => add_meant(name, Meant::Module, list),
    }
}
