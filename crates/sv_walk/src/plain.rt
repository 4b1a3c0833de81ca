//! Statements without statements in them (IEEE 1800-2017, 9.6.2, 12.8, 13 and 21.2.1).
ghost use Rattle.std.specs.Prelude.{◌≡◌, [], ◌∷◌, ◌++◌, IfOk, map};
ghost use Rattle.dpi_rules.specs.Least.{noted};
ghost use Rattle.sv_names.specs.Scopes.{scopes_of};
ghost use Rattle.sv_judge.specs.Calls.{env_of};
ghost use Rattle.sv_walk.specs.Around.{inside, env};
ghost use Rattle.sv_walk.specs.Heads.{all_found};
ghost use Rattle.sv_walk.specs.Plain as spec;

use crate::around::{Around, place_in};
use crate::values::note_value;
use dpi_ports::NoMemory;
use dpi_rules::Violation;
use std::alloc::Global;
use sv_contexts::{Shown, note_format};
use sv_judge::{Place, judge_call, judge_expr, note_callee};
use sv_names::{Entry, Scopes, called};
use sv_tree::{Call, Expr, Format, Name};
use sv_typing::ExprType;

fn note_return(
    alloc: Global,
    place: &Place<'_, '_>,
    given: Option<ExprType>,
    value: &Option<Expr>,
    found: &mut Option<Violation>,
) -> Result<(), NoMemory>
    ensures { IfOk result (λ _. found.new ≡ noted found.old (spec.return_violations (env_of place.now) given value.now)) }
{
    match value {
        None => Ok(()),
        Some(value) => note_value(alloc, place, given, value, found),
    }
}

/// Notes what a `return` violates.
pub(crate) fn walk_return(
    alloc: Global,
    around: &Around<'_>,
    scopes: &Scopes<'_>,
    value: &Option<Expr>,
    found: &mut Option<Violation>,
) -> Result<(), NoMemory>
    ensures { IfOk result (λ _. found.new ≡ noted found.old (spec.return_violations (env (inside around.now (scopes_of scopes.now))) around.now.result value.now)) }
{
    let place = place_in(around, scopes);
    note_return(alloc, &place, around.result, value, found)
}

/// Notes what a `disable` of this name violates.
pub(crate) fn walk_disable(
    around: &Around<'_>,
    scopes: &Scopes<'_>,
    name: &Name,
    found: &mut Option<Violation>,
)
    ensures { found.new ≡ noted found.old (spec.disable_violations (env (inside around.now (scopes_of scopes.now))) name.now) }
{
    let entry = scopes.find_called(name.bytes.as_slice());
    sv_names::note_disable(around.file, name.token, entry, found);
}

fn shown(
    alloc: Global,
    place: &Place<'_, '_>,
    e: &Expr,
    args: &mut Vec<Shown>,
    found: &mut Option<Violation>,
) -> Result<(), NoMemory>
    ensures { IfOk result (λ _. (args.new.items ≡ args.old.items ++ map (spec.shown (env_of place.now)) (e.now ∷ [])) × (found.new ≡ noted found.old (all_found (env_of place.now) (e.now ∷ [])))) }
{
    let whole = judge_expr(alloc, place, e, found)?;
    args.push(Shown {
        token: e.token,
        operand: whole.value,
    })?;
    Ok(())
}

/// The arguments of a format.
fn all_shown(
    alloc: Global,
    place: &Place<'_, '_>,
    es: &[Expr],
    found: &mut Option<Violation>,
) -> Result<Vec<Shown>, NoMemory>
    ensures { IfOk result (λ v. (v.items ≡ map (spec.shown (env_of place.now)) es.now) × (found.new ≡ noted found.old (all_found (env_of place.now) es.now))) }
{
    let mut args = Vec::new(alloc);
    for e in es {
        shown(alloc, place, e, &mut args, found)?;
    }
    Ok(args)
}

fn note_shown(
    alloc: Global,
    place: &Place<'_, '_>,
    format: &Format,
    found: &mut Option<Violation>,
) -> Result<(), NoMemory>
    ensures { IfOk result (λ _. found.new ≡ noted found.old (spec.format_violations (env_of place.now) format.now)) }
{
    let args = all_shown(alloc, place, format.actuals.as_slice(), found)?;
    let text = &format.text;
    note_format(
        alloc,
        place.file,
        text.token,
        text.bytes.as_slice(),
        &args,
        found,
    )
}

/// Notes what `$display` or `$write` with parentheses violates.
pub(crate) fn walk_show(
    alloc: Global,
    around: &Around<'_>,
    scopes: &Scopes<'_>,
    format: &Option<Format>,
    found: &mut Option<Violation>,
) -> Result<(), NoMemory>
    ensures { IfOk result (λ _. found.new ≡ noted found.old (spec.show_violations (env (inside around.now (scopes_of scopes.now))) format.now)) }
{
    let place = place_in(around, scopes);
    match format {
        None => Ok(()),
        Some(format) => note_shown(alloc, &place, format, found),
    }
}

/// Notes what a call violates as a statement.
pub(crate) fn walk_call(
    alloc: Global,
    around: &Around<'_>,
    scopes: &Scopes<'_>,
    call: &Call,
    found: &mut Option<Violation>,
) -> Result<(), NoMemory>
    ensures { IfOk result (λ _. found.new ≡ noted found.old (spec.call_violations (env (inside around.now (scopes_of scopes.now))) call.now)) }
{
    let place = place_in(around, scopes);
    let _value = judge_call(alloc, &place, call, true, found)?;
    Ok(())
}

/// Notes what a call without actuals violates of what is so declared.
#[tactic(auto, using(crate::proofs::Notes::appended))]
fn note_bare(place: &Place<'_, '_>, token: u32, entry: Option<Entry>, found: &mut Option<Violation>)
    ensures { found.new ≡ noted found.old (spec.bare_violations (env_of place.now) token entry) }
{
    sv_names::note_call(place.file, token, entry, found);
    note_callee(place, token, called(entry), 0, true, found);
}

/// Notes what a name alone violates, which is a call without actuals.
pub(crate) fn walk_name(
    around: &Around<'_>,
    scopes: &Scopes<'_>,
    name: &Name,
    found: &mut Option<Violation>,
)
    ensures { found.new ≡ noted found.old (spec.name_violations (env (inside around.now (scopes_of scopes.now))) name.now) }
{
    let entry = scopes.find_called(name.bytes.as_slice());
    let place = place_in(around, scopes);
    note_bare(&place, name.token, entry, found);
}
