//! Items of modules (IEEE 1800-2017, 6.8, 9.2.1, 13 and 35).
ghost use Rattle.std.specs.Prelude.{◌≡◌, OnOk};
ghost use Rattle.dpi_rules.specs.Least.{noted};
ghost use Rattle.sv_names.specs.Scopes.{scopes_of};
ghost use Rattle.sv_signatures.specs.Signatures.{import_violations};
ghost use Rattle.sv_judge.specs.Calls.{target_of};
ghost use Rattle.sv_inside.specs.Seen.{here, here_in};
ghost use Rattle.sv_check.specs.Modules as spec;

use dpi_ports::NoMemory;
use dpi_rules::Violation;
use std::alloc::Global;
use sv_inside::kinds_of;
use sv_names::{Scope, Scopes, function_scope, note_export, task_scope};
use sv_shapes::VarKind;
use sv_signatures::{Returns, function_signature, import_signature, task_signature};
use sv_tree::{Body, Export, Function, Import, Item, Task};
use sv_typing::{ExprType, kind_type};
use sv_walk::{Around, walk_body, walk_statement, walk_variables};

/// The type of a variable of this kind.
fn type_of(kind: Option<VarKind>) -> Option<ExprType>
    ensures { result ≡ target_of kind }
{
    match kind {
        Some(kind) => Some(kind_type(&kind)),
        None => None,
    }
}

/// The type that `return` gives in what gives this.
fn result_type(given: Returns) -> Option<ExprType>
    ensures { result ≡ spec.result_type given }
{
    match given {
        Returns::Void => None,
        Returns::Value(kind) => type_of(kind),
    }
}

/// Notes what the variables and statements of a body violate inside this scope. NoMemory where no
/// memory was found.
fn note_body<'a>(
    alloc: Global,
    around: &Around<'_>,
    scopes: &mut Scopes<'a>,
    scope: Scope<'a>,
    body: &'a Body,
    found: &mut Option<Violation>,
) -> Result<(), NoMemory>
    ensures kept { OnOk result (scopes_of scopes.new ≡ scopes_of scopes.old) }
    ensures broken { OnOk result (found.new ≡ noted found.old (spec.body_violations (here_in around.now scopes.old scope.entry) body.now)) }
{
    scopes.enter(scope)?;
    walk_body(
        alloc,
        around,
        scopes,
        body.variables.as_slice(),
        body.statements.as_slice(),
        found,
    )?;
    scopes.leave();
    Ok(())
}

/// Notes what a function violates: its signature, rule 4 in its scope, and its body inside that scope.
/// NoMemory where no memory was found.
fn note_function<'a>(
    alloc: Global,
    around: &Around<'_>,
    scopes: &mut Scopes<'a>,
    function: &'a Function,
    found: &mut Option<Violation>,
) -> Result<(), NoMemory>
    ensures kept { OnOk result (scopes_of scopes.new ≡ scopes_of scopes.old) }
    ensures broken { OnOk result (found.new ≡ noted found.old (spec.function_violations (here around.now scopes.old) function.now)) }
{
    let signature = function_signature(alloc, around.file, function, found)?;
    let kinds = kinds_of(alloc, signature.formals.as_slice())?;
    let scope = function_scope(alloc, around.file, function, &kinds, found)?;
    let inner = Around {
        in_function: true,
        result: result_type(signature.result),
        ..*around
    };
    note_body(alloc, &inner, scopes, scope, &function.body, found)
}

/// Notes what a task violates: its signature, rule 4 in its scope, and its body inside that scope.
/// NoMemory where no memory was found.
fn note_task<'a>(
    alloc: Global,
    around: &Around<'_>,
    scopes: &mut Scopes<'a>,
    task: &'a Task,
    found: &mut Option<Violation>,
) -> Result<(), NoMemory>
    ensures kept { OnOk result (scopes_of scopes.new ≡ scopes_of scopes.old) }
    ensures broken { OnOk result (found.new ≡ noted found.old (spec.task_violations (here around.now scopes.old) task.now)) }
{
    let signature = task_signature(alloc, around.file, task, found)?;
    let kinds = kinds_of(alloc, signature.formals.as_slice())?;
    let scope = task_scope(alloc, around.file, task, &kinds, found)?;
    let inner = Around {
        in_function: false,
        result: None,
        ..*around
    };
    note_body(alloc, &inner, scopes, scope, &task.body, found)
}

/// Notes what the signature of an import violates. NoMemory where no memory was found.
fn note_import(
    alloc: Global,
    file: u32,
    import: &Import,
    found: &mut Option<Violation>,
) -> Result<(), NoMemory>
    ensures { OnOk result (found.new ≡ noted found.old (import_violations file import.now)) }
{
    import_signature(alloc, file, import, found)?;
    Ok(())
}

/// Notes rule 5 at the name of an export, where the scopes of its module have no such name.
fn note_exported(file: u32, scopes: &Scopes<'_>, export: &Export, found: &mut Option<Violation>)
    ensures { found.new ≡ noted found.old (spec.exported_violations file (scopes_of scopes.now) export.now) }
{
    let name = &export.name;
    note_export(file, name.token, scopes.find(name.bytes.as_slice()), found);
}

/// Notes what an item of a module violates, inside the scopes of the module. NoMemory where no memory
/// was found.
pub(crate) fn note_item<'a>(
    alloc: Global,
    around: &Around<'_>,
    scopes: &mut Scopes<'a>,
    item: &'a Item,
    found: &mut Option<Violation>,
) -> Result<(), NoMemory>
    ensures kept { OnOk result (scopes_of scopes.new ≡ scopes_of scopes.old) }
    ensures broken { OnOk result (found.new ≡ noted found.old (spec.item_violations (here around.now scopes.old) item.now)) }
{
    match item {
        Item::Variables(variables) => walk_variables(alloc, around, scopes, variables, found),
        Item::Import(import) => note_import(alloc, around.file, import, found),
        Item::Export(export) => {
            note_exported(around.file, scopes, export, found);
            Ok(())
        }
        Item::Function(function) => note_function(alloc, around, scopes, function, found),
        Item::Task(task) => note_task(alloc, around, scopes, task, found),
        Item::Initial(_, statement) => walk_statement(alloc, around, scopes, statement, found),
        Item::Instance(_, _) => Ok(()),
    }
}
