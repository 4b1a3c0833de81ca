//! The declarations of variables inside of functions (ISO C 6.8.2 and 6.8.5.3).
ghost use Rattle.std.specs.Prelude.{◌≡◌, ◌++◌, ◌∷◌, [], unwrap_or, option_map, flat_map, IfOk, OnOk};
ghost use Rattle.c_functions.specs.Inner.{seen};
ghost use Rattle.c_program.specs.Inside as spec;

use c_tree::{Block, Else, ElseIf, If, Part, Start, Stmt, Variables};
use dpi_ports::NoMemory;
use sqlite_items::{Boxed, Items};
use std::alloc::Global;

fn add_variables<'a>(
    list: &mut Items<&'a Variables>,
    variables: &'a Variables,
) -> Result<(), NoMemory>
    ensures { OnOk result (seen list.new ≡ seen list.old ++ variables.now ∷ []) }
{
    list.push(variables)?;
    Ok(())
}

fn add_start<'a>(list: &mut Items<&'a Variables>, start: &'a Start) -> Result<(), NoMemory>
    ensures { OnOk result (seen list.new ≡ seen list.old ++ spec.start_variables start.now) }
{
    match start {
        Start::Variables(variables) => add_variables(list, variables),
        Start::Expr(_) => Ok(()),
    }
}

#[cycle(inside)]
fn add_stmt<'a>(list: &mut Items<&'a Variables>, stmt: &'a Stmt) -> Result<(), NoMemory>
    ensures { OnOk result (seen list.new ≡ seen list.old ++ spec.in_stmt stmt.now) }
{
    match stmt {
        Stmt::Block(block) => add_block(list, block),
        Stmt::If(branches) => add_if(list, branches.get()),
        Stmt::While(_, _, body) | Stmt::Do(_, body, _, _) => add_stmt(list, body.get()),
        Stmt::For(_, start, _, _, body) => add_for(list, start, body.get()),
        _ => Ok(()),
    }
}

#[cycle(inside)]
fn add_for<'a>(
    list: &mut Items<&'a Variables>,
    start: &'a Start,
    body: &'a Stmt,
) -> Result<(), NoMemory>
    ensures { OnOk result (seen list.new ≡ seen list.old ++ (spec.start_variables start.now ++ spec.in_stmt body.now)) }
{
    add_start(list, start)?;
    add_stmt(list, body)?;
    Ok(())
}

#[cycle(inside)]
fn add_block<'a>(list: &mut Items<&'a Variables>, block: &'a Block) -> Result<(), NoMemory>
    ensures { OnOk result (seen list.new ≡ seen list.old ++ spec.in_block block.now) }
{
    add_parts(list, block.parts.as_slice())?;
    Ok(())
}

#[cycle(inside)]
fn add_parts<'a>(list: &mut Items<&'a Variables>, parts: &'a [Part]) -> Result<(), NoMemory>
    ensures { OnOk result (seen list.new ≡ seen list.old ++ flat_map spec.in_part parts.now) }
{
    for part in parts {
        add_part(list, part)?;
    }
    Ok(())
}

#[cycle(inside)]
fn add_part<'a>(list: &mut Items<&'a Variables>, part: &'a Part) -> Result<(), NoMemory>
    ensures { OnOk result (seen list.new ≡ seen list.old ++ spec.in_part part.now) }
{
    match part {
        Part::Variables(variables) => add_variables(list, variables),
        Part::Stmt(stmt) => add_stmt(list, stmt),
    }
}

#[cycle(inside)]
fn add_if<'a>(list: &mut Items<&'a Variables>, branches: &'a If) -> Result<(), NoMemory>
    ensures { OnOk result (seen list.new ≡ seen list.old ++ spec.in_if branches.now) }
{
    add_stmt(list, &branches.body)?;
    add_others(list, branches.others.as_slice())?;
    add_last(list, &branches.last)?;
    Ok(())
}

#[cycle(inside)]
fn add_others<'a>(list: &mut Items<&'a Variables>, others: &'a [ElseIf]) -> Result<(), NoMemory>
    ensures { OnOk result (seen list.new ≡ seen list.old ++ flat_map spec.in_else_if others.now) }
{
    for other in others {
        add_else_if(list, other)?;
    }
    Ok(())
}

#[cycle(inside)]
fn add_else_if<'a>(list: &mut Items<&'a Variables>, other: &'a ElseIf) -> Result<(), NoMemory>
    ensures { OnOk result (seen list.new ≡ seen list.old ++ spec.in_else_if other.now) }
{
    add_stmt(list, &other.body)
}

#[cycle(inside)]
fn add_last<'a>(
    list: &mut Items<&'a Variables>,
    last: &'a Option<Boxed<Else>>,
) -> Result<(), NoMemory>
    ensures { OnOk result (seen list.new ≡ seen list.old ++ unwrap_or (option_map spec.in_else last.now) []) }
{
    match last {
        None => Ok(()),
        Some(last) => add_else(list, last.get()),
    }
}

#[cycle(inside)]
fn add_else<'a>(list: &mut Items<&'a Variables>, last: &'a Else) -> Result<(), NoMemory>
    ensures { OnOk result (seen list.new ≡ seen list.old ++ spec.in_else last.now) }
{
    add_stmt(list, &last.body)
}

/// The declarations of variables inside of a block and of all that stands in it, heads of `for`
/// too, in text order. NoMemory where no memory was found.
pub(crate) fn variables_in<'a>(
    alloc: Global,
    block: &'a Block,
) -> Result<Items<&'a Variables>, NoMemory>
    ensures { IfOk result (λ list. seen list ≡ spec.in_block block.now) }
{
    let mut list = Items::new(alloc);
    add_block(&mut list, block)?;
    Ok(list)
}
