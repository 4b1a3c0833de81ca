//! What expressions tell.
ghost use Rattle.std.specs.Prelude.{◌≡◌, ◌++◌, OnOk, flat_map};
ghost use Rattle.sv_judge.specs.Calls.{env_of};
ghost use Rattle.sv_facts.specs.Facts as facts;
ghost use Rattle.sv_facts.specs.Exprs as spec;

use crate::facts::Fact;
use crate::names::{add_called, add_value_name};
use dpi_ports::NoMemory;
use sqlite_items::Boxed;
use std::alloc::Global;
use sv_judge::{Place, judge_expr};
use sv_tree::{Call, Chain, Choice, Expr, Lvalue, Operand, Primary, Select, Term};

/// Adds the type of what begins at this token, if it has a value.
fn add_value(
    token: u32,
    value: Option<sv_typing::Operand>,
    list: &mut Vec<Fact>,
) -> Result<(), NoMemory>
    ensures { OnOk result (list.new.items ≡ list.old.items ++ facts.type_fact token value) }
{
    if let Some(value) = value {
        list.push(Fact::Type(token, value.of))?;
    }
    Ok(())
}

/// Adds the type of an expression by itself, if it has one.
fn add_type(
    alloc: Global,
    place: &Place<'_, '_>,
    e: &Expr,
    list: &mut Vec<Fact>,
) -> Result<(), NoMemory>
    ensures { OnOk result (list.new.items ≡ list.old.items ++ facts.type_facts (env_of place.now) e.now) }
{
    let whole = judge_expr(alloc, place, e, &mut None)?;
    add_value(e.token, whole.value, list)
}

/// Adds what an expression tells, in text order: its own type, then what its parts tell. NoMemory
/// where no memory was found.
#[cycle(expressions)]
pub fn add_expr(
    alloc: Global,
    place: &Place<'_, '_>,
    e: &Expr,
    list: &mut Vec<Fact>,
) -> Result<(), NoMemory>
    ensures { OnOk result (list.new.items ≡ list.old.items ++ spec.expr_facts (env_of place.now) e.now) }
{
    add_type(alloc, place, e, list)?;
    add_chain(alloc, place, &e.chain, list)?;
    add_branches(alloc, place, &e.choice, list)
}

/// Adds what expressions tell.
#[cycle(expressions)]
fn add_exprs(
    alloc: Global,
    place: &Place<'_, '_>,
    es: &[Expr],
    list: &mut Vec<Fact>,
) -> Result<(), NoMemory>
    ensures { OnOk result (list.new.items ≡ list.old.items ++ flat_map (spec.expr_facts (env_of place.now)) es.now) }
{
    for e in es {
        add_expr(alloc, place, e, list)?;
    }
    Ok(())
}

/// Adds what follows the condition of a conditional, if anything does.
#[cycle(expressions)]
fn add_branches(
    alloc: Global,
    place: &Place<'_, '_>,
    branches: &Option<Boxed<Choice>>,
    list: &mut Vec<Fact>,
) -> Result<(), NoMemory>
    ensures { OnOk result (list.new.items ≡ list.old.items ++ spec.branch_facts (env_of place.now) branches.now) }
{
    match branches {
        None => Ok(()),
        Some(branches) => add_choice(alloc, place, branches.get(), list),
    }
}

/// Adds what the branches of a conditional tell.
#[cycle(expressions)]
fn add_choice(
    alloc: Global,
    place: &Place<'_, '_>,
    branches: &Choice,
    list: &mut Vec<Fact>,
) -> Result<(), NoMemory>
    ensures { OnOk result (list.new.items ≡ list.old.items ++ spec.choice_facts (env_of place.now) branches.now) }
{
    add_expr(alloc, place, &branches.yes, list)?;
    add_expr(alloc, place, &branches.no, list)
}

/// Adds what a chain of operands tells.
#[cycle(expressions)]
fn add_chain(
    alloc: Global,
    place: &Place<'_, '_>,
    chain: &Chain,
    list: &mut Vec<Fact>,
) -> Result<(), NoMemory>
    ensures { OnOk result (list.new.items ≡ list.old.items ++ spec.chain_facts (env_of place.now) chain.now) }
{
    add_operand(alloc, place, &chain.first, list)?;
    add_terms(alloc, place, chain.rest.as_slice(), list)
}

/// Adds what the operands behind operators tell.
#[cycle(expressions)]
fn add_terms(
    alloc: Global,
    place: &Place<'_, '_>,
    rest: &[Term],
    list: &mut Vec<Fact>,
) -> Result<(), NoMemory>
    ensures { OnOk result (list.new.items ≡ list.old.items ++ flat_map (spec.term_facts (env_of place.now)) rest.now) }
{
    for term in rest {
        add_operand(alloc, place, &term.operand, list)?;
    }
    Ok(())
}

/// Adds what an operand tells.
#[cycle(expressions)]
fn add_operand(
    alloc: Global,
    place: &Place<'_, '_>,
    operand: &Operand,
    list: &mut Vec<Fact>,
) -> Result<(), NoMemory>
    ensures { OnOk result (list.new.items ≡ list.old.items ++ spec.operand_facts (env_of place.now) operand.now) }
{
    match &operand.primary {
        Primary::Number(_) => Ok(()),
        Primary::Text(_) => Ok(()),
        Primary::Null(_) => Ok(()),
        Primary::Place(lvalue) => add_lvalue(alloc, place, lvalue, list),
        Primary::Call(call) => add_call(alloc, place, call, list),
        Primary::Group(_, e) | Primary::Signed(_, e) | Primary::Unsigned(_, e) => {
            add_expr(alloc, place, e.get(), list)
        }
        Primary::Concatenation(_, es) | Primary::Repetition(_, _, es) => {
            add_exprs(alloc, place, es.as_slice(), list)
        }
    }
}

/// Adds what a name with selects tells, in text order: what the name means where a value stands,
/// then what the expressions in its selects tell. NoMemory where no memory was found.
#[cycle(expressions)]
pub fn add_lvalue(
    alloc: Global,
    place: &Place<'_, '_>,
    lvalue: &Lvalue,
    list: &mut Vec<Fact>,
) -> Result<(), NoMemory>
    ensures { OnOk result (list.new.items ≡ list.old.items ++ spec.lvalue_facts (env_of place.now) lvalue.now) }
{
    add_value_name(place, &lvalue.name, list)?;
    add_selects(alloc, place, lvalue.selects.as_slice(), list)
}

/// Adds what selects tell.
#[cycle(expressions)]
fn add_selects(
    alloc: Global,
    place: &Place<'_, '_>,
    selects: &[Select],
    list: &mut Vec<Fact>,
) -> Result<(), NoMemory>
    ensures { OnOk result (list.new.items ≡ list.old.items ++ flat_map (spec.select_facts (env_of place.now)) selects.now) }
{
    for select in selects {
        add_select(alloc, place, select, list)?;
    }
    Ok(())
}

/// Adds what a select tells.
#[cycle(expressions)]
fn add_select(
    alloc: Global,
    place: &Place<'_, '_>,
    select: &Select,
    list: &mut Vec<Fact>,
) -> Result<(), NoMemory>
    ensures { OnOk result (list.new.items ≡ list.old.items ++ spec.select_facts (env_of place.now) select.now) }
{
    match select {
        Select::Range(..) => Ok(()),
        Select::Index(_, e) | Select::Up(_, e, _) | Select::Down(_, e, _) => {
            add_expr(alloc, place, e.get(), list)
        }
    }
}

/// Adds what a call tells, in an expression or as a statement, in text order: what the name means
/// that is called, then what the actuals tell. NoMemory where no memory was found.
#[cycle(expressions)]
pub fn add_call(
    alloc: Global,
    place: &Place<'_, '_>,
    call: &Call,
    list: &mut Vec<Fact>,
) -> Result<(), NoMemory>
    ensures { OnOk result (list.new.items ≡ list.old.items ++ spec.call_facts (env_of place.now) call.now) }
{
    add_called(place, &call.name, list)?;
    add_exprs(alloc, place, call.actuals.as_slice(), list)
}
