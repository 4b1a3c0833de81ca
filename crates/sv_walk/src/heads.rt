//! Conditions, counts, and what a `case` compares (IEEE 1800-2017, 12.4, 12.5 and 12.7).
ghost use Rattle.std.specs.Prelude.{◌≡◌, [], ◌∷◌, ◌++◌, IfOk, flat_map, map};
ghost use Rattle.dpi_rules.specs.Least.{noted};
ghost use Rattle.sv_names.specs.Scopes.{scopes_of};
ghost use Rattle.sv_judge.specs.Calls.{env_of};
ghost use Rattle.sv_walk.specs.Around.{inside, env};
ghost use Rattle.sv_walk.specs.Heads as spec;

use crate::around::{Around, place_in};
use dpi_ports::NoMemory;
use dpi_rules::Violation;
use sqlite_items::Items;
use std::alloc::Global;
use sv_judge::{Place, judge_expr};
use sv_names::Scopes;
use sv_tree::{CaseItem, Expr};
use sv_typing::Operand;

/// Notes what a condition violates.
#[tactic(auto, using(crate::proofs::Notes::appended))]
pub(crate) fn note_condition(
    alloc: Global,
    place: &Place<'_, '_>,
    e: &Expr,
    found: &mut Option<Violation>,
) -> Result<(), NoMemory>
    ensures { IfOk result (λ _. found.new ≡ noted found.old (spec.condition_violations (env_of place.now) e.now)) }
{
    let whole = judge_expr(alloc, place, e, found)?;
    sv_contexts::note_condition(place.file, e.token, whole.value, found);
    Ok(())
}

/// Notes what the condition of an `if` or of a loop violates.
pub(crate) fn walk_condition(
    alloc: Global,
    around: &Around<'_>,
    scopes: &Scopes<'_>,
    e: &Expr,
    found: &mut Option<Violation>,
) -> Result<(), NoMemory>
    ensures { IfOk result (λ _. found.new ≡ noted found.old (spec.condition_violations (env (inside around.now (scopes_of scopes.now))) e.now)) }
{
    let place = place_in(around, scopes);
    note_condition(alloc, &place, e, found)
}

#[tactic(auto, using(crate::proofs::Notes::appended))]
fn note_count(
    alloc: Global,
    place: &Place<'_, '_>,
    e: &Expr,
    found: &mut Option<Violation>,
) -> Result<(), NoMemory>
    ensures { IfOk result (λ _. found.new ≡ noted found.old (spec.count_violations (env_of place.now) e.now)) }
{
    let whole = judge_expr(alloc, place, e, found)?;
    sv_contexts::note_count(place.file, e.token, whole.value, found);
    Ok(())
}

/// Notes what the count of a `repeat` violates.
pub(crate) fn walk_count(
    alloc: Global,
    around: &Around<'_>,
    scopes: &Scopes<'_>,
    e: &Expr,
    found: &mut Option<Violation>,
) -> Result<(), NoMemory>
    ensures { IfOk result (λ _. found.new ≡ noted found.old (spec.count_violations (env (inside around.now (scopes_of scopes.now))) e.now)) }
{
    let place = place_in(around, scopes);
    note_count(alloc, &place, e, found)
}

/// Adds an expression to those that are compared.
fn compare(
    alloc: Global,
    place: &Place<'_, '_>,
    e: &Expr,
    values: &mut Vec<Option<Operand>>,
    found: &mut Option<Violation>,
) -> Result<(), NoMemory>
    ensures { IfOk result (λ _. (values.new.items ≡ values.old.items ++ map (spec.value_of (env_of place.now)) (e.now ∷ [])) × (found.new ≡ noted found.old (spec.all_found (env_of place.now) (e.now ∷ [])))) }
{
    let whole = judge_expr(alloc, place, e, found)?;
    values.push(whole.value)?;
    Ok(())
}

/// Adds expressions to those that are compared.
fn compare_all(
    alloc: Global,
    place: &Place<'_, '_>,
    es: &[Expr],
    values: &mut Vec<Option<Operand>>,
    found: &mut Option<Violation>,
) -> Result<(), NoMemory>
    ensures { IfOk result (λ _. (values.new.items ≡ values.old.items ++ map (spec.value_of (env_of place.now)) es.now) × (found.new ≡ noted found.old (spec.all_found (env_of place.now) es.now))) }
{
    for e in es {
        compare(alloc, place, e, values, found)?;
    }
    Ok(())
}

/// The values that are written; `default` has none.
fn values_in(values: &Option<Items<Expr>>) -> &[Expr]
    ensures { result.now ≡ spec.values_in values.now }
{
    match values {
        Some(values) => values.as_slice(),
        None => &[],
    }
}

/// Adds the values of the items of a `case`.
fn compare_items(
    alloc: Global,
    place: &Place<'_, '_>,
    items: &[CaseItem],
    values: &mut Vec<Option<Operand>>,
    found: &mut Option<Violation>,
) -> Result<(), NoMemory>
    ensures { IfOk result (λ _. (values.new.items ≡ values.old.items ++ map (spec.value_of (env_of place.now)) (flat_map spec.item_values items.now)) × (found.new ≡ noted found.old (spec.all_found (env_of place.now) (flat_map spec.item_values items.now)))) }
{
    for item in items {
        compare_all(alloc, place, values_in(&item.values), values, found)?;
    }
    Ok(())
}

fn note_compared(
    alloc: Global,
    place: &Place<'_, '_>,
    token: u32,
    e: &Expr,
    items: &[CaseItem],
    found: &mut Option<Violation>,
) -> Result<(), NoMemory>
    ensures { IfOk result (λ _. found.new ≡ noted found.old (spec.compared_violations (env_of place.now) token (spec.compared e.now items.now))) }
{
    let mut values = Vec::new(alloc);
    compare(alloc, place, e, &mut values, found)?;
    compare_items(alloc, place, items, &mut values, found)?;
    sv_contexts::note_case(place.file, token, &values, found);
    Ok(())
}

/// Notes what a `case` at this keyword compares: its expression, and the values of its items.
pub(crate) fn walk_compared(
    alloc: Global,
    around: &Around<'_>,
    scopes: &Scopes<'_>,
    token: u32,
    e: &Expr,
    items: &[CaseItem],
    found: &mut Option<Violation>,
) -> Result<(), NoMemory>
    ensures { IfOk result (λ _. found.new ≡ noted found.old (spec.compared_violations (env (inside around.now (scopes_of scopes.now))) token (spec.compared e.now items.now))) }
{
    let place = place_in(around, scopes);
    note_compared(alloc, &place, token, e, items, found)
}
