//! Declarations in statements (IEEE 1800-2017, 9.3 and 12.7.1).
ghost use Rattle.std.specs.Prelude.{◌≡◌, ◌++◌, OnOk, flat_map};
ghost use Rattle.sv_design.specs.Statements as spec;

use crate::declarations::{Declaration, Owner, add_all_variables, add_start};
use dpi_ports::NoMemory;
use sqlite_items::Boxed;
use sv_tree::{Block, CaseItem, Else, ElseIf, If, Start, Stmt};

/// Adds what a statement declares.
#[cycle(statements)]
pub(crate) fn add_stmt(
    file: u32,
    owner: Owner,
    stmt: &Stmt,
    list: &mut Vec<Declaration>,
) -> Result<(), NoMemory>
    ensures { OnOk result (list.new.items ≡ list.old.items ++ spec.in_stmt file owner stmt.now) }
{
    match stmt {
        Stmt::Block(block) => add_block(file, owner, block, list),
        Stmt::If(branches) => add_if(file, owner, branches.get(), list),
        Stmt::Case(_, _, items) => add_case_items(file, owner, items.as_slice(), list),
        Stmt::While(_, _, body) | Stmt::Repeat(_, _, body) | Stmt::Forever(_, body) => {
            add_stmt(file, owner, body.get(), list)
        }
        Stmt::For(_, start, _, _, body) => add_for(file, owner, start, body.get(), list),
        _ => Ok(()),
    }
}

/// Adds what each statement declares.
#[cycle(statements)]
pub(crate) fn add_stmts(
    file: u32,
    owner: Owner,
    stmts: &[Stmt],
    list: &mut Vec<Declaration>,
) -> Result<(), NoMemory>
    ensures { OnOk result (list.new.items ≡ list.old.items ++ flat_map (spec.in_stmt file owner) stmts.now) }
{
    for stmt in stmts {
        add_stmt(file, owner, stmt, list)?;
    }
    Ok(())
}

/// Adds the variable of a `for`, and what its body declares.
#[cycle(statements)]
fn add_for(
    file: u32,
    owner: Owner,
    start: &Start,
    body: &Stmt,
    list: &mut Vec<Declaration>,
) -> Result<(), NoMemory>
    ensures { OnOk result (list.new.items ≡ list.old.items ++ spec.in_for file owner start.now body.now) }
{
    add_start(file, start, list)?;
    add_stmt(file, owner, body, list)
}

/// Adds the variables of a block, and what its statements declare.
#[cycle(statements)]
fn add_block(
    file: u32,
    owner: Owner,
    block: &Block,
    list: &mut Vec<Declaration>,
) -> Result<(), NoMemory>
    ensures { OnOk result (list.new.items ≡ list.old.items ++ spec.in_block file owner block.now) }
{
    add_all_variables(file, owner, block.variables.as_slice(), list)?;
    add_stmts(file, owner, block.statements.as_slice(), list)
}

/// Adds what the items of a `case` declare.
#[cycle(statements)]
fn add_case_items(
    file: u32,
    owner: Owner,
    items: &[CaseItem],
    list: &mut Vec<Declaration>,
) -> Result<(), NoMemory>
    ensures { OnOk result (list.new.items ≡ list.old.items ++ flat_map (spec.in_item file owner) items.now) }
{
    for item in items {
        add_stmt(file, owner, &item.body, list)?;
    }
    Ok(())
}

/// Adds what the branches of an `if` declare.
#[cycle(statements)]
fn add_if(
    file: u32,
    owner: Owner,
    branches: &If,
    list: &mut Vec<Declaration>,
) -> Result<(), NoMemory>
    ensures { OnOk result (list.new.items ≡ list.old.items ++ spec.in_if file owner branches.now) }
{
    add_stmt(file, owner, &branches.body, list)?;
    add_others(file, owner, branches.others.as_slice(), list)?;
    add_last(file, owner, &branches.last, list)
}

/// Adds what `else if` parts declare.
#[cycle(statements)]
fn add_others(
    file: u32,
    owner: Owner,
    others: &[ElseIf],
    list: &mut Vec<Declaration>,
) -> Result<(), NoMemory>
    ensures { OnOk result (list.new.items ≡ list.old.items ++ flat_map (spec.in_else_if file owner) others.now) }
{
    for other in others {
        add_stmt(file, owner, &other.body, list)?;
    }
    Ok(())
}

/// Adds what the last `else` declares, if there is one.
#[cycle(statements)]
fn add_last(
    file: u32,
    owner: Owner,
    last: &Option<Boxed<Else>>,
    list: &mut Vec<Declaration>,
) -> Result<(), NoMemory>
    ensures { OnOk result (list.new.items ≡ list.old.items ++ spec.in_last file owner last.now) }
{
    match last {
        None => Ok(()),
        Some(last) => add_stmt(file, owner, &last.get().body, list),
    }
}
