//! Declarations of variables (IEEE 1800-2017, 6.8).
ghost use Rattle.std.specs.Prelude.{◌≡◌, IfOk, flat_map};
ghost use Rattle.dpi_rules.specs.Least.{noted};
ghost use Rattle.sv_names.specs.Scopes.{scopes_of};
ghost use Rattle.sv_judge.specs.Calls.{env_of};
ghost use Rattle.sv_walk.specs.Around.{inside, env};
ghost use Rattle.sv_walk.specs.Declarations as spec;

use crate::around::{Around, place_in};
use crate::values::{note_init, target_of};
use dpi_ports::NoMemory;
use dpi_rules::Violation;
use std::alloc::Global;
use sv_judge::Place;
use sv_names::Scopes;
use sv_shapes::variable_kind;
use sv_tree::{DataType, Declarator, Initializer, Variables};
use sv_typing::ExprType;

/// Notes what a variable of this type begins with violates.
fn note_initial(
    alloc: Global,
    place: &Place<'_, '_>,
    target: Option<ExprType>,
    initializer: &Option<Initializer>,
    found: &mut Option<Violation>,
) -> Result<(), NoMemory>
    ensures { IfOk result (λ _. found.new ≡ noted found.old (spec.initial_violations (env_of place.now) target initializer.now)) }
{
    match initializer {
        None => Ok(()),
        Some(initializer) => note_init(alloc, place, target, &initializer.value, found),
    }
}

#[tactic(auto, using(crate::proofs::Notes::appended))]
fn note_declarator(
    alloc: Global,
    place: &Place<'_, '_>,
    data_type: &DataType,
    declarator: &Declarator,
    found: &mut Option<Violation>,
) -> Result<(), NoMemory>
    ensures { IfOk result (λ _. found.new ≡ noted found.old (spec.declarator_violations (env_of place.now) data_type.now declarator.now)) }
{
    let dimensions = declarator.dimensions.as_slice();
    let name = declarator.name.token;
    let kind = variable_kind(place.file, name, data_type, dimensions, found);
    note_initial(
        alloc,
        place,
        target_of(kind),
        &declarator.initializer,
        found,
    )
}

fn note_declarators(
    alloc: Global,
    place: &Place<'_, '_>,
    data_type: &DataType,
    declarators: &[Declarator],
    found: &mut Option<Violation>,
) -> Result<(), NoMemory>
    ensures { IfOk result (λ _. found.new ≡ noted found.old (flat_map (spec.declarator_violations (env_of place.now) data_type.now) declarators.now)) }
{
    for declarator in declarators {
        note_declarator(alloc, place, data_type, declarator, found)?;
    }
    Ok(())
}

fn note_variables(
    alloc: Global,
    place: &Place<'_, '_>,
    variables: &Variables,
    found: &mut Option<Violation>,
) -> Result<(), NoMemory>
    ensures { IfOk result (λ _. found.new ≡ noted found.old (spec.variables_violations (env_of place.now) variables.now)) }
{
    note_declarators(
        alloc,
        place,
        &variables.kind,
        variables.declarators.as_slice(),
        found,
    )
}

/// Notes what a declaration of variables violates, in the scopes that hold them: for each its shape by
/// rules 8 and 9, and what it begins with as an assignment to its type. NoMemory where no memory was
/// found.
pub fn walk_variables(
    alloc: Global,
    around: &Around<'_>,
    scopes: &Scopes<'_>,
    variables: &Variables,
    found: &mut Option<Violation>,
) -> Result<(), NoMemory>
    ensures { IfOk result (λ _. found.new ≡ noted found.old (spec.variables_violations (env (inside around.now (scopes_of scopes.now))) variables.now)) }
{
    let place = place_in(around, scopes);
    note_variables(alloc, &place, variables, found)
}

/// Notes what several declarations of variables violate.
pub(crate) fn walk_all_variables(
    alloc: Global,
    around: &Around<'_>,
    scopes: &Scopes<'_>,
    declarations: &[Variables],
    found: &mut Option<Violation>,
) -> Result<(), NoMemory>
    ensures { IfOk result (λ _. found.new ≡ noted found.old (flat_map (spec.variables_violations (env (inside around.now (scopes_of scopes.now)))) declarations.now)) }
{
    for variables in declarations {
        walk_variables(alloc, around, scopes, variables, found)?;
    }
    Ok(())
}
