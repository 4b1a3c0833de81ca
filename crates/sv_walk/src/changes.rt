//! Changes of variables, and what a `for` begins with (IEEE 1800-2017, 10.4, 11.4.1, 11.4.2, 12.7.1).
ghost use Rattle.std.specs.Prelude.{◌≡◌, IfOk, []};
ghost use Rattle.dpi_rules.specs.Least.{noted};
ghost use Rattle.sv_names.specs.Scopes.{scopes_of};
ghost use Rattle.sv_judge.specs.Calls.{env_of};
ghost use Rattle.sv_judge.specs.Judge.{lvalue as lvalue_by};
ghost use Rattle.sv_walk.specs.Around.{inside, env};
ghost use Rattle.sv_walk.specs.Changes as spec;

use crate::around::{Around, place_in};
use crate::heads::note_condition;
use crate::values::{note_init, note_value, target_of, type_of};
use dpi_ports::NoMemory;
use dpi_rules::Violation;
use std::alloc::Global;
use sv_contexts::{note_computed, note_stepped};
use sv_judge::{Place, judge_expr, judge_lvalue};
use sv_names::Scopes;
use sv_shapes::variable_kind;
use sv_tree::{AssignOperator, Change, DataType, Expr, Init, Lvalue, Name, Start};
use sv_typing::{Operand, read};

/// What a name with its selects is, as an expression, with what it violates noted.
fn changed(
    alloc: Global,
    place: &Place<'_, '_>,
    lvalue: &Lvalue,
    found: &mut Option<Violation>,
) -> Result<Option<Operand>, NoMemory>
    ensures { IfOk result (λ o. (o ≡ spec.place_value (env_of place.now) lvalue.now) × (found.new ≡ noted found.old (lvalue_by (env_of place.now) lvalue.now).found)) }
{
    Ok(read(judge_lvalue(alloc, place, lvalue, found)?))
}

#[tactic(auto, using(crate::proofs::Notes::appended))]
fn note_assignment(
    alloc: Global,
    place: &Place<'_, '_>,
    lvalue: &Lvalue,
    init: &Init,
    found: &mut Option<Violation>,
) -> Result<(), NoMemory>
    ensures { IfOk result (λ _. found.new ≡ noted found.old (spec.assignment_violations (env_of place.now) lvalue.now init.now)) }
{
    let target = changed(alloc, place, lvalue, found)?;
    note_init(alloc, place, type_of(target), init, found)
}

#[tactic(auto, using(crate::proofs::Notes::appended))]
fn note_computation(
    alloc: Global,
    place: &Place<'_, '_>,
    lvalue: &Lvalue,
    token: u32,
    operator: AssignOperator,
    e: &Expr,
    found: &mut Option<Violation>,
) -> Result<(), NoMemory>
    ensures { IfOk result (λ _. found.new ≡ noted found.old (spec.computation_violations (env_of place.now) lvalue.now token operator e.now)) }
{
    let target = changed(alloc, place, lvalue, found)?;
    let whole = judge_expr(alloc, place, e, found)?;
    note_computed(place.file, token, operator, target, whole.value, found);
    Ok(())
}

#[tactic(auto, using(crate::proofs::Notes::appended))]
fn note_step(
    alloc: Global,
    place: &Place<'_, '_>,
    lvalue: &Lvalue,
    token: u32,
    found: &mut Option<Violation>,
) -> Result<(), NoMemory>
    ensures { IfOk result (λ _. found.new ≡ noted found.old (spec.step_violations (env_of place.now) lvalue.now token)) }
{
    let target = changed(alloc, place, lvalue, found)?;
    note_stepped(place.file, token, target, found);
    Ok(())
}

fn note_change(
    alloc: Global,
    place: &Place<'_, '_>,
    change: &Change,
    found: &mut Option<Violation>,
) -> Result<(), NoMemory>
    ensures { IfOk result (λ _. found.new ≡ noted found.old (spec.change_violations (env_of place.now) change.now)) }
{
    match change {
        Change::Assign(lvalue, _, init) => note_assignment(alloc, place, lvalue, init, found),
        Change::Compute(lvalue, token, operator, e) => {
            note_computation(alloc, place, lvalue, *token, *operator, e, found)
        }
        Change::Step(lvalue, token, _) => note_step(alloc, place, lvalue, *token, found),
    }
}

/// Notes what a change violates.
pub(crate) fn walk_change(
    alloc: Global,
    around: &Around<'_>,
    scopes: &Scopes<'_>,
    change: &Change,
    found: &mut Option<Violation>,
) -> Result<(), NoMemory>
    ensures { IfOk result (λ _. found.new ≡ noted found.old (spec.change_violations (env (inside around.now (scopes_of scopes.now))) change.now)) }
{
    let place = place_in(around, scopes);
    note_change(alloc, &place, change, found)
}

/// Notes what a variable violates that a `for` declares with a value.
#[tactic(auto, using(crate::proofs::Notes::appended))]
fn note_loop_variable(
    alloc: Global,
    place: &Place<'_, '_>,
    data_type: &DataType,
    name: &Name,
    e: &Expr,
    found: &mut Option<Violation>,
) -> Result<(), NoMemory>
    ensures { IfOk result (λ _. found.new ≡ noted found.old (spec.loop_variable_violations (env_of place.now) data_type.now name.now e.now)) }
{
    let kind = variable_kind(place.file, name.token, data_type, &[], found);
    note_value(alloc, place, target_of(kind), e, found)
}

#[tactic(auto, using(crate::proofs::Notes::appended))]
fn note_start_assignment(
    alloc: Global,
    place: &Place<'_, '_>,
    lvalue: &Lvalue,
    e: &Expr,
    found: &mut Option<Violation>,
) -> Result<(), NoMemory>
    ensures { IfOk result (λ _. found.new ≡ noted found.old (spec.start_assignment_violations (env_of place.now) lvalue.now e.now)) }
{
    let target = changed(alloc, place, lvalue, found)?;
    note_value(alloc, place, type_of(target), e, found)
}

fn note_start(
    alloc: Global,
    place: &Place<'_, '_>,
    start: &Start,
    found: &mut Option<Violation>,
) -> Result<(), NoMemory>
    ensures { IfOk result (λ _. found.new ≡ noted found.old (spec.start_violations (env_of place.now) start.now)) }
{
    match start {
        Start::Declare(data_type, name, _, e) => {
            note_loop_variable(alloc, place, data_type, name, e, found)
        }
        Start::Assign(lvalue, _, e) => note_start_assignment(alloc, place, lvalue, e, found),
    }
}

#[tactic(auto, using(crate::proofs::Notes::appended))]
fn note_head(
    alloc: Global,
    place: &Place<'_, '_>,
    start: &Start,
    condition: &Expr,
    change: &Change,
    found: &mut Option<Violation>,
) -> Result<(), NoMemory>
    ensures { IfOk result (λ _. found.new ≡ noted found.old (spec.head_violations (env_of place.now) start.now condition.now change.now)) }
{
    note_start(alloc, place, start, found)?;
    note_condition(alloc, place, condition, found)?;
    note_change(alloc, place, change, found)
}

/// Notes what the head of a `for` violates: what it begins with, its condition and its change.
pub(crate) fn walk_head(
    alloc: Global,
    around: &Around<'_>,
    scopes: &Scopes<'_>,
    start: &Start,
    condition: &Expr,
    change: &Change,
    found: &mut Option<Violation>,
) -> Result<(), NoMemory>
    ensures { IfOk result (λ _. found.new ≡ noted found.old (spec.head_violations (env (inside around.now (scopes_of scopes.now))) start.now condition.now change.now)) }
{
    let place = place_in(around, scopes);
    note_head(alloc, &place, start, condition, change, found)
}
