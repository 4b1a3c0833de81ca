//! The scopes of functions and tasks (IEEE 1800-2017, 13.3, 13.4).

ghost use Rattle.std.specs.Prelude.{◌≡◌};
ghost use Rattle.sv_names.specs.Names.{names_of};
ghost use Rattle.sv_names.specs.Declaring.{Declares};
ghost use Rattle.sv_names.specs.Declarations.{Opens};
ghost use Rattle.sv_names.specs.Subroutines as spec;

use crate::declarations::declare_body;
use crate::declaring::declare;
use crate::entry::Thing;
use crate::scope::Scope;
use dpi_ports::NoMemory;
use dpi_rules::Violation;
use sqlite_items::Items;
use std::alloc::Global;
use sv_shapes::{VarKind, kind_of};
use sv_tree::{Body, Formal, Function, Name, Outcome, Task};

/// Declares the result of a function at the function's name, if it gives a value.
fn declare_result<'a>(
    scope: &mut Scope<'a>,
    file: u32,
    name: &'a Name,
    outcome: &Outcome,
    found: &mut Option<Violation>,
) -> Result<(), NoMemory>
    ensures { Declares file (spec.result_declares name.now outcome.now) (names_of scope.old) found.old result (names_of scope.new) found.new }
{
    match outcome {
        Outcome::Data(data_type) => {
            let kind = kind_of(data_type, &[]);
            declare(scope, file, name, Thing::Result(kind), found)
        }
        Outcome::Void(_) => Ok(()),
    }
}

/// The kind of the formal of this number, if it has one.
fn kind_at(kinds: &[Option<VarKind>], at: usize) -> Option<VarKind>
    ensures { result ≡ spec.kind_at kinds.now at }
{
    match kinds.get(at) {
        Some(kind) => *kind,
        None => None,
    }
}

/// Declares formals with these kinds.
fn declare_formals<'a>(
    scope: &mut Scope<'a>,
    file: u32,
    formals: &'a [Formal],
    kinds: &[Option<VarKind>],
    found: &mut Option<Violation>,
) -> Result<(), NoMemory>
    ensures { Declares file (spec.formals_declare kinds.now 0 formals.now) (names_of scope.old) found.old result (names_of scope.new) found.new }
{
    let mut at = 0;
    for formal in formals {
        let kind = kind_at(kinds, at);
        declare(scope, file, &formal.name, Thing::Variable(kind), found)?;
        at += 1;
    }
    Ok(())
}

/// The formals that are written.
fn formals_in(formals: &Option<Items<Formal>>) -> &[Formal]
    ensures { result.now ≡ spec.formals_in formals.now }
{
    match formals {
        Some(formals) => formals.as_slice(),
        None => &[],
    }
}

/// Declares formals with these kinds, then the variables and the named blocks of a body.
fn declare_inside<'a>(
    scope: &mut Scope<'a>,
    file: u32,
    formals: &'a Option<Items<Formal>>,
    kinds: &[Option<VarKind>],
    body: &'a Body,
    found: &mut Option<Violation>,
) -> Result<(), NoMemory>
    ensures { Declares file (spec.inside_declares kinds.now formals.now body.now) (names_of scope.old) found.old result (names_of scope.new) found.new }
{
    declare_formals(scope, file, formals_in(formals), kinds, found)?;
    declare_body(
        scope,
        file,
        body.variables.as_slice(),
        body.statements.as_slice(),
        found,
    )
}

/// The scope of a function whose formals have these kinds, from the left; a formal past their end
/// has none. It has the result, if the function gives a value, at the function's name; then the
/// formals, the variables, and the named blocks that no other block of the function encloses. Rule 4
/// is noted at each second declaration of a name. NoMemory where no memory was found.
pub fn function_scope<'a>(
    alloc: Global,
    file: u32,
    function: &'a Function,
    kinds: &[Option<VarKind>],
    found: &mut Option<Violation>,
) -> Result<Scope<'a>, NoMemory>
    ensures { Opens file (spec.function_declares kinds.now function.now) found.old result found.new }
{
    let mut scope = Scope::new(alloc);
    declare_result(&mut scope, file, &function.name, &function.outcome, found)?;
    declare_inside(
        &mut scope,
        file,
        &function.formals,
        kinds,
        &function.body,
        found,
    )?;
    Ok(scope)
}

/// The scope of a task whose formals have these kinds, from the left; a formal past their end has
/// none. It has the formals, the variables, and the named blocks that no other block of the task
/// encloses. Rule 4 is noted at each second declaration of a name. NoMemory where no memory was
/// found.
pub fn task_scope<'a>(
    alloc: Global,
    file: u32,
    task: &'a Task,
    kinds: &[Option<VarKind>],
    found: &mut Option<Violation>,
) -> Result<Scope<'a>, NoMemory>
    ensures { Opens file (spec.task_declares kinds.now task.now) found.old result found.new }
{
    let mut scope = Scope::new(alloc);
    declare_inside(&mut scope, file, &task.formals, kinds, &task.body, found)?;
    Ok(scope)
}
