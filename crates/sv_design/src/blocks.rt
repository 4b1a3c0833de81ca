//! Named blocks in statements (IEEE 1800-2017, 9.3.4).
ghost use Rattle.std.specs.Prelude.{◌≡◌, ◌++◌, OnOk, flat_map};
ghost use Rattle.sv_design.specs.Blocks as spec;

use crate::places::Place;
use dpi_ports::NoMemory;
use sqlite_items::Boxed;
use sv_tree::{Block, CaseItem, Else, ElseIf, If, Label, Stmt};

/// Adds the name of a block with this label, if it has one.
fn add_label(file: u32, label: &Option<Label>, list: &mut Vec<Place>) -> Result<(), NoMemory>
    ensures { OnOk result (list.new.items ≡ list.old.items ++ spec.label_place file label.now) }
{
    if let Some(label) = label {
        list.push(Place {
            file,
            token: label.name.token,
        })?;
    }
    Ok(())
}

/// Adds the named blocks of a statement.
#[cycle(blocks)]
pub(crate) fn add_stmt(file: u32, stmt: &Stmt, list: &mut Vec<Place>) -> Result<(), NoMemory>
    ensures { OnOk result (list.new.items ≡ list.old.items ++ spec.in_stmt file stmt.now) }
{
    match stmt {
        Stmt::Block(block) => add_block(file, block, list),
        Stmt::If(branches) => add_if(file, branches.get(), list),
        Stmt::Case(_, _, items) => add_case_items(file, items.as_slice(), list),
        Stmt::While(_, _, body)
        | Stmt::Repeat(_, _, body)
        | Stmt::Forever(_, body)
        | Stmt::For(_, _, _, _, body) => add_stmt(file, body.get(), list),
        _ => Ok(()),
    }
}

/// Adds the named blocks of each statement.
#[cycle(blocks)]
pub(crate) fn add_stmts(file: u32, stmts: &[Stmt], list: &mut Vec<Place>) -> Result<(), NoMemory>
    ensures { OnOk result (list.new.items ≡ list.old.items ++ flat_map (spec.in_stmt file) stmts.now) }
{
    for stmt in stmts {
        add_stmt(file, stmt, list)?;
    }
    Ok(())
}

/// Adds a block, if it has a name, and those in its statements.
#[cycle(blocks)]
fn add_block(file: u32, block: &Block, list: &mut Vec<Place>) -> Result<(), NoMemory>
    ensures { OnOk result (list.new.items ≡ list.old.items ++ spec.in_block file block.now) }
{
    add_label(file, &block.label, list)?;
    add_stmts(file, block.statements.as_slice(), list)
}

/// Adds the named blocks of the items of a `case`.
#[cycle(blocks)]
fn add_case_items(file: u32, items: &[CaseItem], list: &mut Vec<Place>) -> Result<(), NoMemory>
    ensures { OnOk result (list.new.items ≡ list.old.items ++ flat_map (spec.in_item file) items.now) }
{
    for item in items {
        add_stmt(file, &item.body, list)?;
    }
    Ok(())
}

/// Adds the named blocks of the branches of an `if`.
#[cycle(blocks)]
fn add_if(file: u32, branches: &If, list: &mut Vec<Place>) -> Result<(), NoMemory>
    ensures { OnOk result (list.new.items ≡ list.old.items ++ spec.in_if file branches.now) }
{
    add_stmt(file, &branches.body, list)?;
    add_others(file, branches.others.as_slice(), list)?;
    add_last(file, &branches.last, list)
}

/// Adds the named blocks of `else if` parts.
#[cycle(blocks)]
fn add_others(file: u32, others: &[ElseIf], list: &mut Vec<Place>) -> Result<(), NoMemory>
    ensures { OnOk result (list.new.items ≡ list.old.items ++ flat_map (spec.in_else_if file) others.now) }
{
    for other in others {
        add_stmt(file, &other.body, list)?;
    }
    Ok(())
}

/// Adds the named blocks of the last `else`, if there is one.
#[cycle(blocks)]
fn add_last(file: u32, last: &Option<Boxed<Else>>, list: &mut Vec<Place>) -> Result<(), NoMemory>
    ensures { OnOk result (list.new.items ≡ list.old.items ++ spec.in_last file last.now) }
{
    match last {
        None => Ok(()),
        Some(last) => add_stmt(file, &last.get().body, list),
    }
}
