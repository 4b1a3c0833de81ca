//! Expressions in declarations and statements, by the scopes around them.
ghost use Rattle.std.specs.Prelude.{◌≡◌};
ghost use Rattle.dpi_rules.specs.Least.{noted};
ghost use Rattle.c_initial.specs.Parts.{static_violations};
ghost use Rattle.c_names.specs.Scopes.{scopes_of, find};
ghost use Rattle.c_judge.specs.Parts.{part};
ghost use Rattle.c_walk.specs.Sight.{Keeps};
ghost use Rattle.c_walk.specs.Around.{around_of};
ghost use Rattle.c_walk.specs.Statements as spec;

use crate::outside::Outside;
use c_base::CType;
use c_initial::note_static;
use c_judge::{Around, judge_condition, judge_expr, judge_value, part_of};
use c_names::Scopes;
use c_tree::CExpr;
use c_typing::Place;
use dpi_ports::NoMemory;
use dpi_rules::Violation;
use std::alloc::Global;

/// Notes what an expression violates.
pub(crate) fn note_expr(
    alloc: Global,
    outside: &Outside<'_>,
    scopes: &Scopes<'_>,
    e: &CExpr,
    found: &mut Option<Violation>,
) -> Result<(), NoMemory>
    ensures { Keeps (spec.expr_breaks (around_of outside.now) e.now) (scopes_of scopes.now) found.old result (scopes_of scopes.now) found.new }
{
    let around = Around {
        file: outside.file,
        scopes,
        functions: outside.functions,
    };
    judge_expr(alloc, &around, e, found)?;
    Ok(())
}

/// Notes what a condition violates.
pub(crate) fn note_condition(
    alloc: Global,
    outside: &Outside<'_>,
    scopes: &Scopes<'_>,
    e: &CExpr,
    found: &mut Option<Violation>,
) -> Result<(), NoMemory>
    ensures { Keeps (spec.condition_breaks (around_of outside.now) e.now) (scopes_of scopes.now) found.old result (scopes_of scopes.now) found.new }
{
    let around = Around {
        file: outside.file,
        scopes,
        functions: outside.functions,
    };
    judge_condition(alloc, &around, e, found)?;
    Ok(())
}

/// Notes what a value violates that is converted to a type.
pub(crate) fn note_value(
    alloc: Global,
    outside: &Outside<'_>,
    scopes: &Scopes<'_>,
    e: &CExpr,
    to: Option<CType>,
    found: &mut Option<Violation>,
) -> Result<(), NoMemory>
    ensures { Keeps (spec.value_breaks (around_of outside.now) e.now to) (scopes_of scopes.now) found.old result (scopes_of scopes.now) found.new }
{
    let around = Around {
        file: outside.file,
        scopes,
        functions: outside.functions,
    };
    judge_value(alloc, &around, e, to, found)?;
    Ok(())
}

/// Notes rule 19 at the `=` of an object that lasts, where it may not begin with the expression.
pub(crate) fn note_constant(
    outside: &Outside<'_>,
    scopes: &Scopes<'_>,
    place: Place,
    e: &CExpr,
    found: &mut Option<Violation>,
)
    ensures { found.new ≡ noted found.old (static_violations place (part (find (scopes_of scopes.now)) e.now)) }
{
    let around = Around {
        file: outside.file,
        scopes,
        functions: outside.functions,
    };
    note_static(place, part_of(&around, e), found);
}

/// Notes what an expression violates, if there is one.
pub(crate) fn note_maybe_expr(
    alloc: Global,
    outside: &Outside<'_>,
    scopes: &Scopes<'_>,
    e: &Option<CExpr>,
    found: &mut Option<Violation>,
) -> Result<(), NoMemory>
    ensures { Keeps (spec.maybe_expr (around_of outside.now) e.now) (scopes_of scopes.now) found.old result (scopes_of scopes.now) found.new }
{
    match e {
        None => Ok(()),
        Some(e) => note_expr(alloc, outside, scopes, e, found),
    }
}

/// Notes what a condition violates, if there is one.
pub(crate) fn note_maybe_condition(
    alloc: Global,
    outside: &Outside<'_>,
    scopes: &Scopes<'_>,
    e: &Option<CExpr>,
    found: &mut Option<Violation>,
) -> Result<(), NoMemory>
    ensures { Keeps (spec.maybe_condition (around_of outside.now) e.now) (scopes_of scopes.now) found.old result (scopes_of scopes.now) found.new }
{
    match e {
        None => Ok(()),
        Some(e) => note_condition(alloc, outside, scopes, e, found),
    }
}

/// Notes what the value of a `return` violates, if there is one.
pub(crate) fn note_return(
    alloc: Global,
    outside: &Outside<'_>,
    scopes: &Scopes<'_>,
    e: &Option<CExpr>,
    found: &mut Option<Violation>,
) -> Result<(), NoMemory>
    ensures { Keeps (spec.return_breaks (around_of outside.now) e.now) (scopes_of scopes.now) found.old result (scopes_of scopes.now) found.new }
{
    match e {
        None => Ok(()),
        Some(e) => note_value(alloc, outside, scopes, e, outside.result, found),
    }
}
