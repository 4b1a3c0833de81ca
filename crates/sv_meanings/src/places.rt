//! Expressions and names inside scopes.
ghost use Rattle.std.specs.Prelude.{◌≡◌, ◌++◌, OnOk};
ghost use Rattle.sv_judge.specs.Calls.{env_of};
ghost use Rattle.sv_facts.specs.Facts.{called_facts};
ghost use Rattle.sv_facts.specs.Exprs.{expr_facts, lvalue_facts, call_facts};
ghost use Rattle.sv_meanings.specs.Places as spec;

use dpi_ports::NoMemory;
use std::alloc::Global;
use sv_facts::{Fact, add_called, add_expr, add_lvalue};
use sv_judge::Place;
use sv_names::Scopes;
use sv_tree::{Call, Expr, Lvalue, Name};
use sv_walk::Around;

/// Where an expression stands, in these scopes.
fn place_in<'s, 'n>(around: &Around<'s>, scopes: &'s Scopes<'n>) -> Place<'s, 'n>
    ensures { env_of result ≡ spec.at around.now scopes.now }
{
    Place {
        file: around.file,
        scopes,
        subroutines: around.subroutines,
        imports: around.imports,
        in_function: around.in_function,
    }
}

/// Adds what an expression tells inside these scopes.
pub(crate) fn add_value(
    alloc: Global,
    around: &Around<'_>,
    scopes: &Scopes<'_>,
    e: &Expr,
    list: &mut Vec<Fact>,
) -> Result<(), NoMemory>
    ensures { OnOk result (list.new.items ≡ list.old.items ++ expr_facts (spec.at around.now scopes.now) e.now) }
{
    let place = place_in(around, scopes);
    add_expr(alloc, &place, e, list)
}

/// Adds what expressions tell inside these scopes.
pub(crate) fn add_values(
    alloc: Global,
    around: &Around<'_>,
    scopes: &Scopes<'_>,
    es: &[Expr],
    list: &mut Vec<Fact>,
) -> Result<(), NoMemory>
    ensures { OnOk result (list.new.items ≡ list.old.items ++ spec.exprs_facts (spec.at around.now scopes.now) es.now) }
{
    for e in es {
        add_value(alloc, around, scopes, e, list)?;
    }
    Ok(())
}

/// Adds what an expression tells inside these scopes, if there is one.
pub(crate) fn add_maybe(
    alloc: Global,
    around: &Around<'_>,
    scopes: &Scopes<'_>,
    value: &Option<Expr>,
    list: &mut Vec<Fact>,
) -> Result<(), NoMemory>
    ensures { OnOk result (list.new.items ≡ list.old.items ++ spec.maybe_facts (spec.at around.now scopes.now) value.now) }
{
    match value {
        None => Ok(()),
        Some(value) => add_value(alloc, around, scopes, value, list),
    }
}

/// Adds what a name with selects tells inside these scopes.
pub(crate) fn add_changed(
    alloc: Global,
    around: &Around<'_>,
    scopes: &Scopes<'_>,
    lvalue: &Lvalue,
    list: &mut Vec<Fact>,
) -> Result<(), NoMemory>
    ensures { OnOk result (list.new.items ≡ list.old.items ++ lvalue_facts (spec.at around.now scopes.now) lvalue.now) }
{
    let place = place_in(around, scopes);
    add_lvalue(alloc, &place, lvalue, list)
}

/// Adds what a call tells inside these scopes.
pub(crate) fn add_call(
    alloc: Global,
    around: &Around<'_>,
    scopes: &Scopes<'_>,
    call: &Call,
    list: &mut Vec<Fact>,
) -> Result<(), NoMemory>
    ensures { OnOk result (list.new.items ≡ list.old.items ++ call_facts (spec.at around.now scopes.now) call.now) }
{
    let place = place_in(around, scopes);
    sv_facts::add_call(alloc, &place, call, list)
}

/// Adds what a name means that is called or disabled inside these scopes.
pub(crate) fn add_target(
    around: &Around<'_>,
    scopes: &Scopes<'_>,
    name: &Name,
    list: &mut Vec<Fact>,
) -> Result<(), NoMemory>
    ensures { OnOk result (list.new.items ≡ list.old.items ++ called_facts (spec.at around.now scopes.now) name.now) }
{
    let place = place_in(around, scopes);
    add_called(&place, name, list)
}
