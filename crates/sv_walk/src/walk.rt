//! The walk over statements (IEEE 1800-2017, 9.3, 12 and 13).
ghost use Rattle.std.specs.Prelude.{◌≡◌, IfOk, flat_map};
ghost use Rattle.dpi_rules.specs.Least.{noted};
ghost use Rattle.sv_names.specs.Scopes.{scopes_of};
ghost use Rattle.sv_walk.specs.Around.{inside};
ghost use Rattle.sv_walk.specs.Walk as spec;

use crate::around::Around;
use crate::changes::{walk_change, walk_head};
use crate::declarations::walk_all_variables;
use crate::heads::{walk_compared, walk_condition, walk_count};
use crate::plain::{walk_call, walk_disable, walk_name, walk_return, walk_show};
use dpi_ports::NoMemory;
use dpi_rules::Violation;
use sqlite_items::Boxed;
use std::alloc::Global;
use sv_names::{Scopes, block_scope, for_scope};
use sv_tree::{Block, CaseItem, Change, Else, ElseIf, Expr, If, Start, Stmt, Variables};

/// Notes what a statement violates inside these scopes, which are the same when it is done: rule 4 at
/// a second declaration in a block; rules 5, 6 and 23 at names; 8 and 9 at declarations; 12, 13 and 22
/// at calls; and those on types. NoMemory where no memory was found; the scopes may have changed then.
#[cycle(statements)]
pub fn walk_statement<'a>(
    alloc: Global,
    around: &Around<'_>,
    scopes: &mut Scopes<'a>,
    statement: &'a Stmt,
    found: &mut Option<Violation>,
) -> Result<(), NoMemory>
    ensures { IfOk result (λ _. (scopes_of scopes.new ≡ scopes_of scopes.old) × (found.new ≡ noted found.old (spec.in_stmt statement.now (inside around.now (scopes_of scopes.old))))) }
{
    match statement {
        Stmt::Block(block) => walk_block(alloc, around, scopes, block, found),
        Stmt::If(branches) => walk_if(alloc, around, scopes, branches.get(), found),
        Stmt::Case(token, e, items) => {
            walk_case(alloc, around, scopes, items.as_slice(), *token, e, found)
        }
        Stmt::While(_, e, body) => walk_while(alloc, around, scopes, body.get(), e, found),
        Stmt::Repeat(_, e, body) => walk_repeat(alloc, around, scopes, body.get(), e, found),
        Stmt::Forever(_, body) => walk_statement(alloc, around, scopes, body.get(), found),
        Stmt::For(_, start, e, change, body) => {
            walk_for(alloc, around, scopes, body.get(), start, e, change, found)
        }
        Stmt::Return(_, value) => walk_return(alloc, around, scopes, value, found),
        Stmt::Disable(_, name) => {
            walk_disable(around, scopes, name, found);
            Ok(())
        }
        Stmt::ShowActuals(_, _, _, format) => { walk_show(alloc, around, scopes, format, found) }
        Stmt::Void(_, call) => walk_call(alloc, around, scopes, call, found),
        Stmt::Call(call) => walk_call(alloc, around, scopes, call, found),
        Stmt::Name(name) => {
            walk_name(around, scopes, name, found);
            Ok(())
        }
        Stmt::Change(change) => walk_change(alloc, around, scopes, change, found),
        Stmt::Empty(_) => Ok(()),
        Stmt::Break(_) => Ok(()),
        Stmt::Continue(_) => Ok(()),
        Stmt::Finish(_, _) => Ok(()),
        Stmt::Show(_, _) => Ok(()),
    }
}

/// Notes what statements violate, each inside these scopes.
#[cycle(statements)]
fn walk_statements<'a>(
    alloc: Global,
    around: &Around<'_>,
    scopes: &mut Scopes<'a>,
    statements: &'a [Stmt],
    found: &mut Option<Violation>,
) -> Result<(), NoMemory>
    ensures { IfOk result (λ _. (scopes_of scopes.new ≡ scopes_of scopes.old) × (found.new ≡ noted found.old (spec.in_stmts statements.now (inside around.now (scopes_of scopes.old))))) }
{
    for statement in statements {
        walk_statement(alloc, around, scopes, statement, found)?;
    }
    Ok(())
}

/// A block: its scope, with the second declarations in it, and what stands inside it.
#[cycle(statements)]
fn walk_block<'a>(
    alloc: Global,
    around: &Around<'_>,
    scopes: &mut Scopes<'a>,
    block: &'a Block,
    found: &mut Option<Violation>,
) -> Result<(), NoMemory>
    ensures { IfOk result (λ _. (scopes_of scopes.new ≡ scopes_of scopes.old) × (found.new ≡ noted found.old (spec.in_block block.now (inside around.now (scopes_of scopes.old))))) }
{
    let scope = block_scope(alloc, around.file, block, found)?;
    scopes.enter(scope)?;
    let variables = block.variables.as_slice();
    walk_all_variables(alloc, around, scopes, variables, found)?;
    walk_statements(alloc, around, scopes, block.statements.as_slice(), found)?;
    scopes.leave();
    Ok(())
}

/// A `case`: what it compares, and the statements of its items.
#[cycle(statements)]
fn walk_case<'a>(
    alloc: Global,
    around: &Around<'_>,
    scopes: &mut Scopes<'a>,
    items: &'a [CaseItem],
    token: u32,
    e: &Expr,
    found: &mut Option<Violation>,
) -> Result<(), NoMemory>
    ensures { IfOk result (λ _. (scopes_of scopes.new ≡ scopes_of scopes.old) × (found.new ≡ noted found.old (spec.case_violations token e.now items.now (inside around.now (scopes_of scopes.old))))) }
{
    walk_compared(alloc, around, scopes, token, e, items, found)?;
    for item in items {
        walk_statement(alloc, around, scopes, &item.body, found)?;
    }
    Ok(())
}

/// A condition, and the statement behind it.
#[cycle(statements)]
fn walk_while<'a>(
    alloc: Global,
    around: &Around<'_>,
    scopes: &mut Scopes<'a>,
    body: &'a Stmt,
    condition: &Expr,
    found: &mut Option<Violation>,
) -> Result<(), NoMemory>
    ensures { IfOk result (λ _. (scopes_of scopes.new ≡ scopes_of scopes.old) × (found.new ≡ noted found.old (spec.while_violations condition.now body.now (inside around.now (scopes_of scopes.old))))) }
{
    walk_condition(alloc, around, scopes, condition, found)?;
    walk_statement(alloc, around, scopes, body, found)
}

/// A count, and the statement behind it.
#[cycle(statements)]
fn walk_repeat<'a>(
    alloc: Global,
    around: &Around<'_>,
    scopes: &mut Scopes<'a>,
    body: &'a Stmt,
    count: &Expr,
    found: &mut Option<Violation>,
) -> Result<(), NoMemory>
    ensures { IfOk result (λ _. (scopes_of scopes.new ≡ scopes_of scopes.old) × (found.new ≡ noted found.old (spec.repeat_violations count.now body.now (inside around.now (scopes_of scopes.old))))) }
{
    walk_count(alloc, around, scopes, count, found)?;
    walk_statement(alloc, around, scopes, body, found)
}

/// A `for`: its scope, and its head and its body inside it.
#[cycle(statements)]
fn walk_for<'a>(
    alloc: Global,
    around: &Around<'_>,
    scopes: &mut Scopes<'a>,
    body: &'a Stmt,
    start: &'a Start,
    condition: &Expr,
    change: &Change,
    found: &mut Option<Violation>,
) -> Result<(), NoMemory>
    ensures { IfOk result (λ _. (scopes_of scopes.new ≡ scopes_of scopes.old) × (found.new ≡ noted found.old (spec.for_violations start.now condition.now change.now body.now (inside around.now (scopes_of scopes.old))))) }
{
    let scope = for_scope(alloc, around.file, start, found)?;
    scopes.enter(scope)?;
    walk_head(alloc, around, scopes, start, condition, change, found)?;
    walk_statement(alloc, around, scopes, body, found)?;
    scopes.leave();
    Ok(())
}

/// An `if`, with what follows its `else`.
#[cycle(statements)]
fn walk_if<'a>(
    alloc: Global,
    around: &Around<'_>,
    scopes: &mut Scopes<'a>,
    branches: &'a If,
    found: &mut Option<Violation>,
) -> Result<(), NoMemory>
    ensures { IfOk result (λ _. (scopes_of scopes.new ≡ scopes_of scopes.old) × (found.new ≡ noted found.old (spec.in_if branches.now (inside around.now (scopes_of scopes.old))))) }
{
    walk_while(
        alloc,
        around,
        scopes,
        &branches.body,
        &branches.condition,
        found,
    )?;
    walk_others(alloc, around, scopes, branches.others.as_slice(), found)?;
    walk_last(alloc, around, scopes, &branches.last, found)
}

/// The `else if` parts.
#[cycle(statements)]
fn walk_others<'a>(
    alloc: Global,
    around: &Around<'_>,
    scopes: &mut Scopes<'a>,
    others: &'a [ElseIf],
    found: &mut Option<Violation>,
) -> Result<(), NoMemory>
    ensures { IfOk result (λ _. (scopes_of scopes.new ≡ scopes_of scopes.old) × (found.new ≡ noted found.old (flat_map (λ x. spec.in_else_if x (inside around.now (scopes_of scopes.old))) others.now))) }
{
    for other in others {
        walk_while(alloc, around, scopes, &other.body, &other.condition, found)?;
    }
    Ok(())
}

/// The last `else`, if there is one.
#[cycle(statements)]
fn walk_last<'a>(
    alloc: Global,
    around: &Around<'_>,
    scopes: &mut Scopes<'a>,
    last: &'a Option<Boxed<Else>>,
    found: &mut Option<Violation>,
) -> Result<(), NoMemory>
    ensures { IfOk result (λ _. (scopes_of scopes.new ≡ scopes_of scopes.old) × (found.new ≡ noted found.old (spec.last_violations last.now (inside around.now (scopes_of scopes.old))))) }
{
    match last {
        None => Ok(()),
        Some(last) => walk_statement(alloc, around, scopes, &last.get().body, found),
    }
}

/// Notes what a body violates: its variables, as `walk_variables` says, and its statements, inside
/// these scopes, of which the innermost is the body's own. The scopes are the same when it is done.
/// NoMemory where no memory was found; the scopes may have changed then.
pub fn walk_body<'a>(
    alloc: Global,
    around: &Around<'_>,
    scopes: &mut Scopes<'a>,
    variables: &'a [Variables],
    statements: &'a [Stmt],
    found: &mut Option<Violation>,
) -> Result<(), NoMemory>
    ensures { IfOk result (λ _. (scopes_of scopes.new ≡ scopes_of scopes.old) × (found.new ≡ noted found.old (spec.in_body variables.now statements.now (inside around.now (scopes_of scopes.old))))) }
{
    walk_all_variables(alloc, around, scopes, variables, found)?;
    walk_statements(alloc, around, scopes, statements, found)
}
