//! Statements (IEEE 1800-2017, 9.3, 9.6.2, 12, 13 and 21.2.1).
ghost use Rattle.std.specs.Prelude.{◌≡◌, ◌++◌, OnOk, flat_map};
ghost use Rattle.sv_names.specs.Scopes.{scopes_of};
ghost use Rattle.sv_inside.specs.Seen.{here};
ghost use Rattle.sv_meanings.specs.Places.{at};
ghost use Rattle.sv_meanings.specs.Statements as spec;

use crate::changes::{add_change, add_head};
use crate::declarations::{add_all_variables, add_meant};
use crate::places::{add_call, add_maybe, add_target, add_value, add_values};
use dpi_ports::NoMemory;
use sqlite_items::{Boxed, Items};
use std::alloc::Global;
use sv_facts::{Fact, Meant};
use sv_names::{Scopes, block_scope, for_scope};
use sv_tree::{
    Block, CaseItem, Change, Else, ElseIf, Expr, Format, If, Label, Start, Stmt, Variables,
};
use sv_walk::Around;

/// Adds that a label behind `begin` means its block.
fn add_label(label: &Option<Label>, list: &mut Vec<Fact>) -> Result<(), NoMemory>
    ensures { OnOk result (list.new.items ≡ list.old.items ++ spec.label_facts label.now) }
{
    match label {
        None => Ok(()),
        Some(label) => add_meant(&label.name, Meant::Block(label.name.token), list),
    }
}

/// Adds what a format shows.
fn add_show(
    alloc: Global,
    around: &Around<'_>,
    scopes: &Scopes<'_>,
    format: &Option<Format>,
    list: &mut Vec<Fact>,
) -> Result<(), NoMemory>
    ensures { OnOk result (list.new.items ≡ list.old.items ++ spec.show_facts (at around.now scopes.now) format.now) }
{
    match format {
        None => Ok(()),
        Some(format) => add_values(alloc, around, scopes, format.actuals.as_slice(), list),
    }
}

/// Adds what the values of an item of a `case` tell.
fn add_item_values(
    alloc: Global,
    around: &Around<'_>,
    scopes: &Scopes<'_>,
    values: &Option<Items<Expr>>,
    list: &mut Vec<Fact>,
) -> Result<(), NoMemory>
    ensures { OnOk result (list.new.items ≡ list.old.items ++ spec.values_facts (at around.now scopes.now) values.now) }
{
    match values {
        None => Ok(()),
        Some(values) => add_values(alloc, around, scopes, values.as_slice(), list),
    }
}

/// Adds what a statement tells inside these scopes, which are the same when it is done.
#[cycle(statements)]
pub(crate) fn add_stmt<'a>(
    alloc: Global,
    around: &Around<'_>,
    scopes: &mut Scopes<'a>,
    stmt: &'a Stmt,
    list: &mut Vec<Fact>,
) -> Result<(), NoMemory>
    ensures { OnOk result ((scopes_of scopes.new ≡ scopes_of scopes.old) × (list.new.items ≡ list.old.items ++ spec.in_stmt stmt.now (here around.now scopes.old))) }
{
    match stmt {
        Stmt::Block(block) => add_block(alloc, around, scopes, block, list),
        Stmt::If(branches) => add_if(alloc, around, scopes, branches.get(), list),
        Stmt::Case(_, e, items) => add_case(alloc, around, scopes, items.as_slice(), e, list),
        Stmt::While(_, e, body) => add_guarded(alloc, around, scopes, body.get(), e, list),
        Stmt::Repeat(_, e, body) => add_guarded(alloc, around, scopes, body.get(), e, list),
        Stmt::Forever(_, body) => add_stmt(alloc, around, scopes, body.get(), list),
        Stmt::For(_, start, e, change, body) => {
            add_for(alloc, around, scopes, body.get(), start, e, change, list)
        }
        Stmt::Return(_, value) => add_maybe(alloc, around, scopes, value, list),
        Stmt::Disable(_, name) => add_target(around, scopes, name, list),
        Stmt::ShowActuals(_, _, _, format) => add_show(alloc, around, scopes, format, list),
        Stmt::Void(_, call) => add_call(alloc, around, scopes, call, list),
        Stmt::Call(call) => add_call(alloc, around, scopes, call, list),
        Stmt::Name(name) => add_target(around, scopes, name, list),
        Stmt::Change(change) => add_change(alloc, around, scopes, change, list),
        Stmt::Empty(_) => Ok(()),
        Stmt::Break(_) => Ok(()),
        Stmt::Continue(_) => Ok(()),
        Stmt::Finish(_, _) => Ok(()),
        Stmt::Show(_, _) => Ok(()),
    }
}

/// Adds what statements tell, each inside these scopes.
#[cycle(statements)]
fn add_stmts<'a>(
    alloc: Global,
    around: &Around<'_>,
    scopes: &mut Scopes<'a>,
    stmts: &'a [Stmt],
    list: &mut Vec<Fact>,
) -> Result<(), NoMemory>
    ensures { OnOk result ((scopes_of scopes.new ≡ scopes_of scopes.old) × (list.new.items ≡ list.old.items ++ spec.in_stmts stmts.now (here around.now scopes.old))) }
{
    for stmt in stmts {
        add_stmt(alloc, around, scopes, stmt, list)?;
    }
    Ok(())
}

/// A block: its label, and what stands inside its scope.
#[cycle(statements)]
fn add_block<'a>(
    alloc: Global,
    around: &Around<'_>,
    scopes: &mut Scopes<'a>,
    block: &'a Block,
    list: &mut Vec<Fact>,
) -> Result<(), NoMemory>
    ensures { OnOk result ((scopes_of scopes.new ≡ scopes_of scopes.old) × (list.new.items ≡ list.old.items ++ spec.in_block block.now (here around.now scopes.old))) }
{
    add_label(&block.label, list)?;
    let scope = block_scope(alloc, around.file, block, &mut None)?;
    scopes.enter(scope)?;
    add_all_variables(alloc, around, scopes, block.variables.as_slice(), list)?;
    add_stmts(alloc, around, scopes, block.statements.as_slice(), list)?;
    scopes.leave();
    Ok(())
}

/// A `case`: its expression, and its items.
#[cycle(statements)]
fn add_case<'a>(
    alloc: Global,
    around: &Around<'_>,
    scopes: &mut Scopes<'a>,
    items: &'a [CaseItem],
    e: &Expr,
    list: &mut Vec<Fact>,
) -> Result<(), NoMemory>
    ensures { OnOk result ((scopes_of scopes.new ≡ scopes_of scopes.old) × (list.new.items ≡ list.old.items ++ spec.in_case e.now items.now (here around.now scopes.old))) }
{
    add_value(alloc, around, scopes, e, list)?;
    add_items(alloc, around, scopes, items, list)
}

/// The items of a `case`.
#[cycle(statements)]
fn add_items<'a>(
    alloc: Global,
    around: &Around<'_>,
    scopes: &mut Scopes<'a>,
    items: &'a [CaseItem],
    list: &mut Vec<Fact>,
) -> Result<(), NoMemory>
    ensures { OnOk result ((scopes_of scopes.new ≡ scopes_of scopes.old) × (list.new.items ≡ list.old.items ++ flat_map (λ x. spec.in_item x (here around.now scopes.old)) items.now)) }
{
    for item in items {
        add_item(alloc, around, scopes, item, list)?;
    }
    Ok(())
}

/// An item of a `case`: its values, and its statement.
#[cycle(statements)]
fn add_item<'a>(
    alloc: Global,
    around: &Around<'_>,
    scopes: &mut Scopes<'a>,
    item: &'a CaseItem,
    list: &mut Vec<Fact>,
) -> Result<(), NoMemory>
    ensures { OnOk result ((scopes_of scopes.new ≡ scopes_of scopes.old) × (list.new.items ≡ list.old.items ++ spec.in_item item.now (here around.now scopes.old))) }
{
    add_item_values(alloc, around, scopes, &item.values, list)?;
    add_stmt(alloc, around, scopes, &item.body, list)
}

/// A condition or a count, and the statement behind it.
#[cycle(statements)]
fn add_guarded<'a>(
    alloc: Global,
    around: &Around<'_>,
    scopes: &mut Scopes<'a>,
    body: &'a Stmt,
    e: &Expr,
    list: &mut Vec<Fact>,
) -> Result<(), NoMemory>
    ensures { OnOk result ((scopes_of scopes.new ≡ scopes_of scopes.old) × (list.new.items ≡ list.old.items ++ spec.in_guarded e.now body.now (here around.now scopes.old))) }
{
    add_value(alloc, around, scopes, e, list)?;
    add_stmt(alloc, around, scopes, body, list)
}

/// A `for`: its head and its body inside its scope.
#[cycle(statements)]
fn add_for<'a>(
    alloc: Global,
    around: &Around<'_>,
    scopes: &mut Scopes<'a>,
    body: &'a Stmt,
    start: &'a Start,
    condition: &Expr,
    change: &Change,
    list: &mut Vec<Fact>,
) -> Result<(), NoMemory>
    ensures { OnOk result ((scopes_of scopes.new ≡ scopes_of scopes.old) × (list.new.items ≡ list.old.items ++ spec.in_for start.now condition.now change.now body.now (here around.now scopes.old))) }
{
    let scope = for_scope(alloc, around.file, start, &mut None)?;
    scopes.enter(scope)?;
    add_head(alloc, around, scopes, start, condition, change, list)?;
    add_stmt(alloc, around, scopes, body, list)?;
    scopes.leave();
    Ok(())
}

/// An `if`, with what follows its `else`.
#[cycle(statements)]
fn add_if<'a>(
    alloc: Global,
    around: &Around<'_>,
    scopes: &mut Scopes<'a>,
    branches: &'a If,
    list: &mut Vec<Fact>,
) -> Result<(), NoMemory>
    ensures { OnOk result ((scopes_of scopes.new ≡ scopes_of scopes.old) × (list.new.items ≡ list.old.items ++ spec.in_if branches.now (here around.now scopes.old))) }
{
    add_guarded(
        alloc,
        around,
        scopes,
        &branches.body,
        &branches.condition,
        list,
    )?;
    add_others(alloc, around, scopes, branches.others.as_slice(), list)?;
    add_last(alloc, around, scopes, &branches.last, list)
}

/// The `else if` parts.
#[cycle(statements)]
fn add_others<'a>(
    alloc: Global,
    around: &Around<'_>,
    scopes: &mut Scopes<'a>,
    others: &'a [ElseIf],
    list: &mut Vec<Fact>,
) -> Result<(), NoMemory>
    ensures { OnOk result ((scopes_of scopes.new ≡ scopes_of scopes.old) × (list.new.items ≡ list.old.items ++ flat_map (λ x. spec.in_else_if x (here around.now scopes.old)) others.now)) }
{
    for other in others {
        add_guarded(alloc, around, scopes, &other.body, &other.condition, list)?;
    }
    Ok(())
}

/// The last `else`, if there is one.
#[cycle(statements)]
fn add_last<'a>(
    alloc: Global,
    around: &Around<'_>,
    scopes: &mut Scopes<'a>,
    last: &'a Option<Boxed<Else>>,
    list: &mut Vec<Fact>,
) -> Result<(), NoMemory>
    ensures { OnOk result ((scopes_of scopes.new ≡ scopes_of scopes.old) × (list.new.items ≡ list.old.items ++ spec.in_last last.now (here around.now scopes.old))) }
{
    match last {
        None => Ok(()),
        Some(last) => add_stmt(alloc, around, scopes, &last.get().body, list),
    }
}

/// Adds what a body tells inside these scopes, of which the innermost is the body's own: its
/// variables, then its statements. The scopes are the same when it is done.
pub(crate) fn add_body<'a>(
    alloc: Global,
    around: &Around<'_>,
    scopes: &mut Scopes<'a>,
    variables: &'a [Variables],
    stmts: &'a [Stmt],
    list: &mut Vec<Fact>,
) -> Result<(), NoMemory>
    ensures { OnOk result ((scopes_of scopes.new ≡ scopes_of scopes.old) × (list.new.items ≡ list.old.items ++ spec.in_body variables.now stmts.now (here around.now scopes.old))) }
{
    add_all_variables(alloc, around, scopes, variables, list)?;
    add_stmts(alloc, around, scopes, stmts, list)
}
