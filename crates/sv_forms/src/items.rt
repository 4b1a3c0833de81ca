//! Items of modules, modules and files (IEEE 1800-2017, 13 and 23.2).
ghost use Rattle.std.specs.Prelude.{◌≡◌, map};
ghost use Rattle.dpi_rules.specs.Least.{noted};
ghost use Rattle.sv_forms.specs.Calls.{all_of};
ghost use Rattle.sv_forms.specs.Items as spec;

use crate::around::{Around, Surroundings};
use crate::calls::note_init;
use crate::labels::note_end;
use crate::statements::{note_locals, note_stmt, note_stmts};
use dpi_rules::Violation;
use sv_tree::{
    Body, Declarator, Function, Initializer, Item, Life, Lifetime, Module, Outcome, SvFile, Task,
    Variables,
};

/// Whether a subroutine with this lifetime is automatic; without one it is static (13.3.1).
fn is_automatic(life: &Option<Life>) -> bool
    ensures { result ≡ spec.is_automatic life.now }
{
    match life {
        None => false,
        Some(life) => matches!(life.lifetime, Lifetime::Automatic),
    }
}

fn surroundings(outcome: &Outcome) -> Surroundings
    ensures { result ≡ spec.surroundings_of outcome.now }
{
    match outcome {
        Outcome::Data(_) => Surroundings::Valued,
        Outcome::Void(_) => Surroundings::Plain,
    }
}

/// Where a statement stands that is part of this body alone.
fn outside(body: Surroundings, automatic: bool) -> Around
    ensures { result ≡ spec.outside body automatic }
{
    Around {
        body,
        automatic,
        looped: false,
    }
}

fn note_body(file: u32, around: Around, body: &Body, found: &mut Option<Violation>)
    ensures { found.new ≡ noted found.old (spec.body_violations file around body.now) }
{
    note_locals(file, around, body.variables.as_slice(), found);
    note_stmts(file, around, body.statements.as_slice(), found);
}

fn note_function(file: u32, function: &Function, found: &mut Option<Violation>)
    ensures { found.new ≡ noted found.old (spec.function_violations file function.now) }
{
    let around = outside(
        surroundings(&function.outcome),
        is_automatic(&function.life),
    );
    note_body(file, around, &function.body, found);
    note_end(file, &function.name, &function.end, found);
}

fn note_task(file: u32, task: &Task, found: &mut Option<Violation>)
    ensures { found.new ≡ noted found.old (spec.task_violations file task.now) }
{
    let around = outside(Surroundings::Plain, is_automatic(&task.life));
    note_body(file, around, &task.body, found);
    note_end(file, &task.name, &task.end, found);
}

fn note_initial_calls(file: u32, initializer: &Option<Initializer>, found: &mut Option<Violation>)
    ensures { found.new ≡ noted found.old (spec.initial_calls file initializer.now) }
{
    if let Some(initializer) = initializer {
        note_init(file, &initializer.value, found);
    }
}

fn note_variables(file: u32, variables: &Variables, found: &mut Option<Violation>)
    ensures { found.new ≡ noted found.old (spec.variables_violations file variables.now) }
{
    note_declarators(file, variables.declarators.as_slice(), found);
}

fn note_declarators(file: u32, declarators: &[Declarator], found: &mut Option<Violation>)
    ensures { found.new ≡ noted found.old (all_of (map (spec.declarator_calls file) declarators.now)) }
{
    for declarator in declarators {
        note_initial_calls(file, &declarator.initializer, found);
    }
}

fn note_item(file: u32, item: &Item, found: &mut Option<Violation>)
    ensures { found.new ≡ noted found.old (spec.item_violations file item.now) }
{
    match item {
        Item::Variables(variables) => note_variables(file, variables, found),
        Item::Function(function) => note_function(file, function, found),
        Item::Task(task) => note_task(file, task, found),
        Item::Initial(_, stmt) => {
            note_stmt(file, outside(Surroundings::Initial, false), stmt, found)
        }
        Item::Import(_) | Item::Export(_) | Item::Instance(_, _) => {}
    }
}

fn note_module(file: u32, module: &Module, found: &mut Option<Violation>)
    ensures { found.new ≡ noted found.old (spec.module_violations file «module».now) }
{
    note_items(file, module.items.as_slice(), found);
    note_end(file, &module.name, &module.end, found);
}

fn note_items(file: u32, items: &[Item], found: &mut Option<Violation>)
    ensures { found.new ≡ noted found.old (all_of (map (spec.item_violations file) items.now)) }
{
    for item in items {
        note_item(file, item, found);
    }
}

fn note_modules(file: u32, modules: &[Module], found: &mut Option<Violation>)
    ensures { found.new ≡ noted found.old (all_of (map (spec.module_violations file) modules.now)) }
{
    for unit in modules {
        note_module(file, unit, found);
    }
}

/// Notes what the file of this number violates by its form: rule 7 at a closing label that isn't
/// the opened name, rule 20 at a jump outside a loop, rule 21 at a `return` in an initial block or
/// with a value exactly where none is given, rule 26 at the `=` of a local that isn't automatic,
/// and rule 29 at a call in the initialiser of a module's variable.
pub fn note_file(file: u32, tree: &SvFile, found: &mut Option<Violation>)
    ensures { found.new ≡ noted found.old (spec.file_violations file tree.now) }
{
    note_modules(file, tree.modules.as_slice(), found);
}
