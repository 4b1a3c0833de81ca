//! Statements (ISO C 6.8).
ghost use Rattle.std.specs.Prelude.{flat_map, map, option_map};
ghost use Rattle.c_names.specs.Scopes.{scopes_of};
ghost use Rattle.c_walk.specs.Around.{around_of};
ghost use Rattle.c_meanings.specs.Sight.{Adds, Keeps, in_turn, scoped};
ghost use Rattle.c_meanings.specs.Statements as spec;

use crate::declarations::add_variables;
use crate::places::{add_maybe, add_value};
use c_facts::CFact;
use c_names::{Scope, Scopes};
use c_tree::{CExpr, Else, ElseIf, If, Part, Start, Stmt};
use c_walk::Outside;
use dpi_ports::NoMemory;
use sqlite_items::Boxed;
use std::alloc::Global;

/// Adds what a `for` begins with tells: what it declares is in sight behind it.
fn add_start<'n>(
    alloc: Global,
    outside: &Outside<'_>,
    scopes: &mut Scopes<'n>,
    start: &'n Start,
    list: &mut Vec<CFact>,
) -> Result<(), NoMemory>
    ensures { Adds (spec.start_tells (around_of outside.now) start.now) (scopes_of scopes.old) list.old.items result (scopes_of scopes.new) list.new.items }
{
    match start {
        Start::Variables(variables) => add_variables(
            alloc, outside, scopes, false, variables, list,
        ),
        Start::Expr(e) => add_maybe(alloc, outside, scopes, e, list),
    }
}

/// Adds what the head of a `for` tells, in the order of the text.
fn add_head<'n>(
    alloc: Global,
    outside: &Outside<'_>,
    scopes: &mut Scopes<'n>,
    start: &'n Start,
    condition: &Option<CExpr>,
    change: &Option<CExpr>,
    list: &mut Vec<CFact>,
) -> Result<(), NoMemory>
    ensures { Adds (spec.head_tells (around_of outside.now) start.now condition.now change.now) (scopes_of scopes.old) list.old.items result (scopes_of scopes.new) list.new.items }
{
    add_start(alloc, outside, scopes, start, list)?;
    add_maybe(alloc, outside, scopes, condition, list)?;
    add_maybe(alloc, outside, scopes, change, list)
}

/// Adds what a statement tells inside these scopes, which are the same when it is done.
#[cycle(statements)]
fn add_stmt<'n>(
    alloc: Global,
    outside: &Outside<'_>,
    scopes: &mut Scopes<'n>,
    stmt: &'n Stmt,
    list: &mut Vec<CFact>,
) -> Result<(), NoMemory>
    ensures { Keeps (spec.in_stmt (around_of outside.now) stmt.now) (scopes_of scopes.old) list.old.items result (scopes_of scopes.new) list.new.items }
{
    match stmt {
        Stmt::Empty(_) => Ok(()),
        Stmt::Break(_) => Ok(()),
        Stmt::Continue(_) => Ok(()),
        Stmt::Block(block) => add_scoped(alloc, outside, scopes, block.parts.as_slice(), list),
        Stmt::Expr(e) => add_value(alloc, outside, scopes, e, list),
        Stmt::If(branches) => add_if(alloc, outside, scopes, branches.get(), list),
        Stmt::While(_, e, body) => add_guarded(alloc, outside, scopes, body.get(), e, list),
        Stmt::Do(_, body, _, e) => add_done(alloc, outside, scopes, body.get(), e, list),
        Stmt::For(_, start, e, change, body) => {
            add_for(alloc, outside, scopes, start, e, change, body.get(), list)
        }
        Stmt::Return(_, e) => add_maybe(alloc, outside, scopes, e, list),
    }
}

/// Adds what parts of a block tell in a scope of their own.
#[cycle(statements)]
fn add_scoped<'n>(
    alloc: Global,
    outside: &Outside<'_>,
    scopes: &mut Scopes<'n>,
    parts: &'n [Part],
    list: &mut Vec<CFact>,
) -> Result<(), NoMemory>
    ensures { Keeps (scoped (in_turn (map (spec.in_part (around_of outside.now)) parts.now))) (scopes_of scopes.old) list.old.items result (scopes_of scopes.new) list.new.items }
{
    scopes.enter(Scope::new(alloc))?;
    add_parts(alloc, outside, scopes, parts, list)?;
    scopes.leave();
    Ok(())
}

/// Adds what parts of a block tell in the innermost scope: what one declares is in sight behind it.
#[cycle(statements)]
pub(crate) fn add_parts<'n>(
    alloc: Global,
    outside: &Outside<'_>,
    scopes: &mut Scopes<'n>,
    parts: &'n [Part],
    list: &mut Vec<CFact>,
) -> Result<(), NoMemory>
    ensures { Adds (in_turn (map (spec.in_part (around_of outside.now)) parts.now)) (scopes_of scopes.old) list.old.items result (scopes_of scopes.new) list.new.items }
{
    for part in parts {
        add_part(alloc, outside, scopes, part, list)?;
    }
    Ok(())
}

/// Adds what a part of a block tells.
#[cycle(statements)]
fn add_part<'n>(
    alloc: Global,
    outside: &Outside<'_>,
    scopes: &mut Scopes<'n>,
    part: &'n Part,
    list: &mut Vec<CFact>,
) -> Result<(), NoMemory>
    ensures { Adds (spec.in_part (around_of outside.now) part.now) (scopes_of scopes.old) list.old.items result (scopes_of scopes.new) list.new.items }
{
    match part {
        Part::Variables(variables) => add_variables(alloc, outside, scopes, false, variables, list),
        Part::Stmt(stmt) => add_stmt(alloc, outside, scopes, stmt, list),
    }
}

/// A condition, and the body behind it.
#[cycle(statements)]
fn add_guarded<'n>(
    alloc: Global,
    outside: &Outside<'_>,
    scopes: &mut Scopes<'n>,
    body: &'n Stmt,
    condition: &CExpr,
    list: &mut Vec<CFact>,
) -> Result<(), NoMemory>
    ensures { Keeps (spec.guarded (around_of outside.now) condition.now (spec.in_stmt (around_of outside.now) body.now)) (scopes_of scopes.old) list.old.items result (scopes_of scopes.new) list.new.items }
{
    add_value(alloc, outside, scopes, condition, list)?;
    add_stmt(alloc, outside, scopes, body, list)
}

/// A body, and the condition behind it.
#[cycle(statements)]
fn add_done<'n>(
    alloc: Global,
    outside: &Outside<'_>,
    scopes: &mut Scopes<'n>,
    body: &'n Stmt,
    condition: &CExpr,
    list: &mut Vec<CFact>,
) -> Result<(), NoMemory>
    ensures { Keeps (spec.done_while (around_of outside.now) condition.now (spec.in_stmt (around_of outside.now) body.now)) (scopes_of scopes.old) list.old.items result (scopes_of scopes.new) list.new.items }
{
    add_stmt(alloc, outside, scopes, body, list)?;
    add_value(alloc, outside, scopes, condition, list)
}

/// A `for`: its head and its body in a scope of their own.
#[cycle(statements)]
fn add_for<'n>(
    alloc: Global,
    outside: &Outside<'_>,
    scopes: &mut Scopes<'n>,
    start: &'n Start,
    condition: &Option<CExpr>,
    change: &Option<CExpr>,
    body: &'n Stmt,
    list: &mut Vec<CFact>,
) -> Result<(), NoMemory>
    ensures { Keeps (scoped (spec.for_tells (around_of outside.now) start.now condition.now change.now (spec.in_stmt (around_of outside.now) body.now))) (scopes_of scopes.old) list.old.items result (scopes_of scopes.new) list.new.items }
{
    scopes.enter(Scope::new(alloc))?;
    add_head(alloc, outside, scopes, start, condition, change, list)?;
    add_stmt(alloc, outside, scopes, body, list)?;
    scopes.leave();
    Ok(())
}

/// An `if`, with what follows its `else`.
#[cycle(statements)]
fn add_if<'n>(
    alloc: Global,
    outside: &Outside<'_>,
    scopes: &mut Scopes<'n>,
    branches: &'n If,
    list: &mut Vec<CFact>,
) -> Result<(), NoMemory>
    ensures { Keeps (spec.in_if (around_of outside.now) branches.now) (scopes_of scopes.old) list.old.items result (scopes_of scopes.new) list.new.items }
{
    add_others(alloc, outside, scopes, branches.others.as_slice(), list)?;
    add_guarded(
        alloc,
        outside,
        scopes,
        &branches.body,
        &branches.condition,
        list,
    )?;
    add_last(alloc, outside, scopes, &branches.last, list)
}

/// The `else if` parts.
#[cycle(statements)]
fn add_others<'n>(
    alloc: Global,
    outside: &Outside<'_>,
    scopes: &mut Scopes<'n>,
    others: &'n [ElseIf],
    list: &mut Vec<CFact>,
) -> Result<(), NoMemory>
    ensures { Keeps (spec.others_say (around_of outside.now) others.now) (scopes_of scopes.old) list.old.items result (scopes_of scopes.new) list.new.items }
{
    for other in others {
        add_guarded(alloc, outside, scopes, &other.body, &other.condition, list)?;
    }
    Ok(())
}

/// The last `else`, if there is one.
#[cycle(statements)]
fn add_last<'n>(
    alloc: Global,
    outside: &Outside<'_>,
    scopes: &mut Scopes<'n>,
    last: &'n Option<Boxed<Else>>,
    list: &mut Vec<CFact>,
) -> Result<(), NoMemory>
    ensures { Keeps (spec.maybe_of (option_map (spec.in_else (around_of outside.now)) last.now)) (scopes_of scopes.old) list.old.items result (scopes_of scopes.new) list.new.items }
{
    match last {
        None => Ok(()),
        Some(last) => add_stmt(alloc, outside, scopes, &last.get().body, list),
    }
}
