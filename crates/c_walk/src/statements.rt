//! Statements (ISO C 6.8).
ghost use Rattle.std.specs.Prelude.{flat_map, map, option_map};
ghost use Rattle.c_names.specs.Scopes.{scopes_of};
ghost use Rattle.c_walk.specs.Sight.{Follows, Keeps, in_turn, scoped, stays};
ghost use Rattle.c_walk.specs.Around.{around_of};
ghost use Rattle.c_walk.specs.Statements as spec;

use crate::declarations::walk_variables;
use crate::outside::Outside;
use crate::plain::{note_condition, note_expr, note_maybe_condition, note_maybe_expr, note_return};
use c_names::{Scope, Scopes};
use c_tree::{CExpr, Else, ElseIf, If, Part, Start, Stmt};
use dpi_ports::NoMemory;
use dpi_rules::Violation;
use sqlite_items::Boxed;
use std::alloc::Global;

/// What a `for` begins with: what it declares is in sight behind it.
fn walk_start<'n>(
    alloc: Global,
    outside: &Outside<'_>,
    scopes: &mut Scopes<'n>,
    start: &'n Start,
    found: &mut Option<Violation>,
) -> Result<(), NoMemory>
    ensures { Follows (spec.start_walk (around_of outside.now) start.now) (scopes_of scopes.old) found.old result (scopes_of scopes.new) found.new }
{
    match start {
        Start::Variables(variables) => {
            walk_variables(alloc, outside, scopes, false, variables, found)
        }
        Start::Expr(e) => note_maybe_expr(alloc, outside, scopes, e, found),
    }
}

/// The head of a `for`, in the order of the text.
fn walk_head<'n>(
    alloc: Global,
    outside: &Outside<'_>,
    scopes: &mut Scopes<'n>,
    start: &'n Start,
    condition: &Option<CExpr>,
    change: &Option<CExpr>,
    found: &mut Option<Violation>,
) -> Result<(), NoMemory>
    ensures { Follows (spec.head_walk (around_of outside.now) start.now condition.now change.now) (scopes_of scopes.old) found.old result (scopes_of scopes.new) found.new }
{
    walk_start(alloc, outside, scopes, start, found)?;
    note_maybe_condition(alloc, outside, scopes, condition, found)?;
    note_maybe_expr(alloc, outside, scopes, change, found)
}

/// Notes what a statement violates. The scopes are the same when it is done.
#[cycle(statements)]
fn walk_stmt<'n>(
    alloc: Global,
    outside: &Outside<'_>,
    scopes: &mut Scopes<'n>,
    stmt: &'n Stmt,
    found: &mut Option<Violation>,
) -> Result<(), NoMemory>
    ensures { Keeps (spec.in_stmt (around_of outside.now) stmt.now) (scopes_of scopes.old) found.old result (scopes_of scopes.new) found.new }
{
    match stmt {
        Stmt::Empty(_) | Stmt::Break(_) | Stmt::Continue(_) => Ok(()),
        Stmt::Block(block) => walk_scoped(alloc, outside, scopes, block.parts.as_slice(), found),
        Stmt::Expr(e) => note_expr(alloc, outside, scopes, e, found),
        Stmt::If(branches) => walk_if(alloc, outside, scopes, branches.get(), found),
        Stmt::While(_, e, body) => walk_guarded(alloc, outside, scopes, body.get(), e, found),
        Stmt::Do(_, body, _, e) => walk_guarded(alloc, outside, scopes, body.get(), e, found),
        Stmt::For(_, start, e, change, body) => {
            walk_for(alloc, outside, scopes, start, e, change, body.get(), found)
        }
        Stmt::Return(_, e) => note_return(alloc, outside, scopes, e, found),
    }
}

/// Parts of a block in a scope of their own.
#[cycle(statements)]
fn walk_scoped<'n>(
    alloc: Global,
    outside: &Outside<'_>,
    scopes: &mut Scopes<'n>,
    parts: &'n [Part],
    found: &mut Option<Violation>,
) -> Result<(), NoMemory>
    ensures { Keeps (scoped (in_turn (map (spec.in_part (around_of outside.now)) parts.now))) (scopes_of scopes.old) found.old result (scopes_of scopes.new) found.new }
{
    scopes.enter(Scope::new(alloc))?;
    walk_parts(alloc, outside, scopes, parts, found)?;
    scopes.leave();
    Ok(())
}

/// Parts of a block in the innermost scope: what one declares is in sight behind it.
#[cycle(statements)]
pub(crate) fn walk_parts<'n>(
    alloc: Global,
    outside: &Outside<'_>,
    scopes: &mut Scopes<'n>,
    parts: &'n [Part],
    found: &mut Option<Violation>,
) -> Result<(), NoMemory>
    ensures { Follows (in_turn (map (spec.in_part (around_of outside.now)) parts.now)) (scopes_of scopes.old) found.old result (scopes_of scopes.new) found.new }
{
    for part in parts {
        walk_part(alloc, outside, scopes, part, found)?;
    }
    Ok(())
}

#[cycle(statements)]
fn walk_part<'n>(
    alloc: Global,
    outside: &Outside<'_>,
    scopes: &mut Scopes<'n>,
    part: &'n Part,
    found: &mut Option<Violation>,
) -> Result<(), NoMemory>
    ensures { Follows (spec.in_part (around_of outside.now) part.now) (scopes_of scopes.old) found.old result (scopes_of scopes.new) found.new }
{
    match part {
        Part::Variables(variables) => {
            walk_variables(alloc, outside, scopes, false, variables, found)
        }
        Part::Stmt(stmt) => walk_stmt(alloc, outside, scopes, stmt, found),
    }
}

/// A condition, and the body behind it.
#[cycle(statements)]
fn walk_guarded<'n>(
    alloc: Global,
    outside: &Outside<'_>,
    scopes: &mut Scopes<'n>,
    body: &'n Stmt,
    condition: &CExpr,
    found: &mut Option<Violation>,
) -> Result<(), NoMemory>
    ensures { Keeps (spec.guarded (around_of outside.now) condition.now (spec.in_stmt (around_of outside.now) body.now)) (scopes_of scopes.old) found.old result (scopes_of scopes.new) found.new }
{
    note_condition(alloc, outside, scopes, condition, found)?;
    walk_stmt(alloc, outside, scopes, body, found)
}

/// A `for`: its head and its body in a scope of their own.
#[cycle(statements)]
fn walk_for<'n>(
    alloc: Global,
    outside: &Outside<'_>,
    scopes: &mut Scopes<'n>,
    start: &'n Start,
    condition: &Option<CExpr>,
    change: &Option<CExpr>,
    body: &'n Stmt,
    found: &mut Option<Violation>,
) -> Result<(), NoMemory>
    ensures { Keeps (scoped (spec.for_walk (around_of outside.now) start.now condition.now change.now (spec.in_stmt (around_of outside.now) body.now))) (scopes_of scopes.old) found.old result (scopes_of scopes.new) found.new }
{
    scopes.enter(Scope::new(alloc))?;
    walk_head(alloc, outside, scopes, start, condition, change, found)?;
    walk_stmt(alloc, outside, scopes, body, found)?;
    scopes.leave();
    Ok(())
}

#[cycle(statements)]
fn walk_if<'n>(
    alloc: Global,
    outside: &Outside<'_>,
    scopes: &mut Scopes<'n>,
    branches: &'n If,
    found: &mut Option<Violation>,
) -> Result<(), NoMemory>
    ensures { Keeps (spec.in_if (around_of outside.now) branches.now) (scopes_of scopes.old) found.old result (scopes_of scopes.new) found.new }
{
    walk_others(alloc, outside, scopes, branches.others.as_slice(), found)?;
    walk_guarded(
        alloc,
        outside,
        scopes,
        &branches.body,
        &branches.condition,
        found,
    )?;
    walk_last(alloc, outside, scopes, &branches.last, found)
}

#[cycle(statements)]
fn walk_others<'n>(
    alloc: Global,
    outside: &Outside<'_>,
    scopes: &mut Scopes<'n>,
    others: &'n [ElseIf],
    found: &mut Option<Violation>,
) -> Result<(), NoMemory>
    ensures { Keeps (spec.others_breaks (around_of outside.now) others.now) (scopes_of scopes.old) found.old result (scopes_of scopes.new) found.new }
{
    for other in others {
        walk_guarded(alloc, outside, scopes, &other.body, &other.condition, found)?;
    }
    Ok(())
}

#[cycle(statements)]
fn walk_last<'n>(
    alloc: Global,
    outside: &Outside<'_>,
    scopes: &mut Scopes<'n>,
    last: &'n Option<Boxed<Else>>,
    found: &mut Option<Violation>,
) -> Result<(), NoMemory>
    ensures { Keeps (spec.maybe_of (option_map (spec.in_else (around_of outside.now)) last.now)) (scopes_of scopes.old) found.old result (scopes_of scopes.new) found.new }
{
    match last {
        None => Ok(()),
        Some(last) => walk_stmt(alloc, outside, scopes, &last.get().body, found),
    }
}
