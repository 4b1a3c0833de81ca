//! Expressions and sizes inside scopes.
ghost use Rattle.std.specs.Prelude.{◌≡◌, ◌++◌, OnOk};
ghost use Rattle.c_names.specs.Scopes.{scopes_of};
ghost use Rattle.c_judge.specs.Calls.{env_of};
ghost use Rattle.c_walk.specs.Around.{around_of, env};
ghost use Rattle.c_meanings.specs.Places as spec;

use c_facts::{CFact, add_expr};
use c_judge::Around;
use c_names::Scopes;
use c_tree::{CExpr, Size};
use c_walk::Outside;
use dpi_ports::NoMemory;
use std::alloc::Global;

/// Where an expression stands, in these scopes.
fn around_in<'s, 'n>(outside: &Outside<'s>, scopes: &'s Scopes<'n>) -> Around<'s, 'n>
    ensures { env_of result ≡ env (around_of outside.now) (scopes_of scopes.now) }
{
    Around {
        file: outside.file,
        scopes,
        functions: outside.functions,
    }
}

/// Adds what an expression tells inside these scopes.
pub(crate) fn add_value(
    alloc: Global,
    outside: &Outside<'_>,
    scopes: &Scopes<'_>,
    e: &CExpr,
    list: &mut Vec<CFact>,
) -> Result<(), NoMemory>
    ensures { OnOk result (list.new.items ≡ list.old.items ++ spec.expr_at (around_of outside.now) (scopes_of scopes.now) e.now) }
{
    let around = around_in(outside, scopes);
    add_expr(alloc, &around, outside.defines, e, list)
}

/// Adds what expressions tell inside these scopes.
pub(crate) fn add_values(
    alloc: Global,
    outside: &Outside<'_>,
    scopes: &Scopes<'_>,
    es: &[CExpr],
    list: &mut Vec<CFact>,
) -> Result<(), NoMemory>
    ensures { OnOk result (list.new.items ≡ list.old.items ++ spec.exprs_at (around_of outside.now) (scopes_of scopes.now) es.now) }
{
    for e in es {
        add_value(alloc, outside, scopes, e, list)?;
    }
    Ok(())
}

/// Adds what an expression tells inside these scopes, if there is one.
pub(crate) fn add_maybe(
    alloc: Global,
    outside: &Outside<'_>,
    scopes: &Scopes<'_>,
    value: &Option<CExpr>,
    list: &mut Vec<CFact>,
) -> Result<(), NoMemory>
    ensures { OnOk result (list.new.items ≡ list.old.items ++ spec.maybe_at (around_of outside.now) (scopes_of scopes.now) value.now) }
{
    match value {
        None => Ok(()),
        Some(value) => add_value(alloc, outside, scopes, value, list),
    }
}

/// Adds what the size of an array tells inside these scopes.
pub(crate) fn add_size(
    outside: &Outside<'_>,
    scopes: &Scopes<'_>,
    size: &Size,
    list: &mut Vec<CFact>,
) -> Result<(), NoMemory>
    ensures { OnOk result (list.new.items ≡ list.old.items ++ spec.size_at (around_of outside.now) (scopes_of scopes.now) size.now) }
{
    let around = around_in(outside, scopes);
    c_facts::add_size(&around, outside.defines, size, list)
}
