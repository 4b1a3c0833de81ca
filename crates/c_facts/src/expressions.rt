//! What expressions tell.
ghost use Rattle.std.specs.Prelude.{◌≡◌, ◌++◌, OnOk, flat_map};
ghost use Rattle.c_judge.specs.Calls.{env_of};
ghost use Rattle.c_walk.specs.Around.{values_of};
ghost use Rattle.c_facts.specs.Facts as facts;
ghost use Rattle.c_facts.specs.Exprs as spec;

use crate::facts::CFact;
use crate::names::{add_called_name, add_value_name};
use c_judge::{Around, judge_expr};
use c_tree::{Assignment, CExpr, Chain, Choice, Cond, Operand, Primary, Suffix, Term};
use c_walk::Defines;
use dpi_ports::NoMemory;
use sqlite_items::Boxed;
use std::alloc::Global;

/// Adds the type of what begins at this token, if it has a value.
fn add_value(
    token: u32,
    value: Option<c_typing::Operand>,
    list: &mut Vec<CFact>,
) -> Result<(), NoMemory>
    ensures { OnOk result (list.new.items ≡ list.old.items ++ facts.type_fact token value) }
{
    if let Some(value) = value {
        list.push(CFact::Type(token, value.of))?;
    }
    Ok(())
}

/// Adds the type of an expression by itself, if it has one.
fn add_type(
    alloc: Global,
    around: &Around<'_, '_>,
    e: &CExpr,
    list: &mut Vec<CFact>,
) -> Result<(), NoMemory>
    ensures { OnOk result (list.new.items ≡ list.old.items ++ facts.type_facts (env_of around.now) e.now) }
{
    let value = judge_expr(alloc, around, e, &mut None)?;
    add_value(e.token, value, list)
}

/// Adds what an expression tells, in text order: its own type, then what its parts tell. The
/// defines are those of the file. NoMemory where no memory was found.
#[cycle(expressions)]
pub fn add_expr(
    alloc: Global,
    around: &Around<'_, '_>,
    defines: &Defines,
    e: &CExpr,
    list: &mut Vec<CFact>,
) -> Result<(), NoMemory>
    ensures { OnOk result (list.new.items ≡ list.old.items ++ spec.expr_facts (env_of around.now) (values_of defines.now) e.now) }
{
    add_type(alloc, around, e, list)?;
    add_cond(alloc, around, defines, &e.first, list)?;
    add_assignments(alloc, around, defines, e.rest.as_slice(), list)
}

/// Adds what expressions tell.
#[cycle(expressions)]
fn add_exprs(
    alloc: Global,
    around: &Around<'_, '_>,
    defines: &Defines,
    es: &[CExpr],
    list: &mut Vec<CFact>,
) -> Result<(), NoMemory>
    ensures { OnOk result (list.new.items ≡ list.old.items ++ flat_map (spec.expr_facts (env_of around.now) (values_of defines.now)) es.now) }
{
    for e in es {
        add_expr(alloc, around, defines, e, list)?;
    }
    Ok(())
}

/// Adds what the parts behind assigning operators tell.
#[cycle(expressions)]
fn add_assignments(
    alloc: Global,
    around: &Around<'_, '_>,
    defines: &Defines,
    rest: &[Assignment],
    list: &mut Vec<CFact>,
) -> Result<(), NoMemory>
    ensures { OnOk result (list.new.items ≡ list.old.items ++ flat_map (spec.assignment_facts (env_of around.now) (values_of defines.now)) rest.now) }
{
    for part in rest {
        add_cond(alloc, around, defines, &part.value, list)?;
    }
    Ok(())
}

/// Adds what a chain and what follows its `?` tell.
#[cycle(expressions)]
fn add_cond(
    alloc: Global,
    around: &Around<'_, '_>,
    defines: &Defines,
    cond: &Cond,
    list: &mut Vec<CFact>,
) -> Result<(), NoMemory>
    ensures { OnOk result (list.new.items ≡ list.old.items ++ spec.cond_facts (env_of around.now) (values_of defines.now) cond.now) }
{
    add_chain(alloc, around, defines, &cond.chain, list)?;
    add_branches(alloc, around, defines, &cond.choice, list)
}

/// Adds what follows the condition of a conditional, if anything does.
#[cycle(expressions)]
fn add_branches(
    alloc: Global,
    around: &Around<'_, '_>,
    defines: &Defines,
    branches: &Option<Boxed<Choice>>,
    list: &mut Vec<CFact>,
) -> Result<(), NoMemory>
    ensures { OnOk result (list.new.items ≡ list.old.items ++ spec.branch_facts (env_of around.now) (values_of defines.now) branches.now) }
{
    match branches {
        None => Ok(()),
        Some(branches) => add_choice(alloc, around, defines, branches.get(), list),
    }
}

/// Adds what the branches of a conditional tell.
#[cycle(expressions)]
fn add_choice(
    alloc: Global,
    around: &Around<'_, '_>,
    defines: &Defines,
    branches: &Choice,
    list: &mut Vec<CFact>,
) -> Result<(), NoMemory>
    ensures { OnOk result (list.new.items ≡ list.old.items ++ spec.choice_facts (env_of around.now) (values_of defines.now) branches.now) }
{
    add_expr(alloc, around, defines, &branches.yes, list)?;
    add_cond(alloc, around, defines, &branches.no, list)
}

/// Adds what a chain of operands tells.
#[cycle(expressions)]
fn add_chain(
    alloc: Global,
    around: &Around<'_, '_>,
    defines: &Defines,
    chain: &Chain,
    list: &mut Vec<CFact>,
) -> Result<(), NoMemory>
    ensures { OnOk result (list.new.items ≡ list.old.items ++ spec.chain_facts (env_of around.now) (values_of defines.now) chain.now) }
{
    add_operand(alloc, around, defines, &chain.first, list)?;
    add_terms(alloc, around, defines, chain.rest.as_slice(), list)
}

/// Adds what the operands behind operators tell.
#[cycle(expressions)]
fn add_terms(
    alloc: Global,
    around: &Around<'_, '_>,
    defines: &Defines,
    rest: &[Term],
    list: &mut Vec<CFact>,
) -> Result<(), NoMemory>
    ensures { OnOk result (list.new.items ≡ list.old.items ++ flat_map (spec.term_facts (env_of around.now) (values_of defines.now)) rest.now) }
{
    for term in rest {
        add_operand(alloc, around, defines, &term.operand, list)?;
    }
    Ok(())
}

/// Adds what an operand and its suffixes tell.
#[cycle(expressions)]
fn add_operand(
    alloc: Global,
    around: &Around<'_, '_>,
    defines: &Defines,
    operand: &Operand,
    list: &mut Vec<CFact>,
) -> Result<(), NoMemory>
    ensures { OnOk result (list.new.items ≡ list.old.items ++ spec.operand_facts (env_of around.now) (values_of defines.now) operand.now) }
{
    add_primary(alloc, around, defines, &operand.primary, list)?;
    add_suffixes(alloc, around, defines, operand.suffixes.as_slice(), list)
}

/// Adds what an operand without its suffixes tells.
#[cycle(expressions)]
fn add_primary(
    alloc: Global,
    around: &Around<'_, '_>,
    defines: &Defines,
    primary: &Primary,
    list: &mut Vec<CFact>,
) -> Result<(), NoMemory>
    ensures { OnOk result (list.new.items ≡ list.old.items ++ spec.primary_facts (env_of around.now) (values_of defines.now) primary.now) }
{
    match primary {
        Primary::Name(name) => add_value_name(around, defines, name, list),
        Primary::Number(_) => Ok(()),
        Primary::Character(_) => Ok(()),
        Primary::Text(_) => Ok(()),
        Primary::Null(_) => Ok(()),
        Primary::Call(name, _, es) => {
            let arguments = es.as_slice();
            add_called_name(around, defines, name, arguments, list)?;
            add_exprs(alloc, around, defines, arguments, list)
        }
        Primary::Group(_, e) => add_expr(alloc, around, defines, e.get(), list),
    }
}

/// Adds what suffixes tell.
#[cycle(expressions)]
fn add_suffixes(
    alloc: Global,
    around: &Around<'_, '_>,
    defines: &Defines,
    suffixes: &[Suffix],
    list: &mut Vec<CFact>,
) -> Result<(), NoMemory>
    ensures { OnOk result (list.new.items ≡ list.old.items ++ flat_map (spec.suffix_facts (env_of around.now) (values_of defines.now)) suffixes.now) }
{
    for suffix in suffixes {
        add_suffix(alloc, around, defines, suffix, list)?;
    }
    Ok(())
}

/// Adds what a suffix tells: names of members tell nothing.
#[cycle(expressions)]
fn add_suffix(
    alloc: Global,
    around: &Around<'_, '_>,
    defines: &Defines,
    suffix: &Suffix,
    list: &mut Vec<CFact>,
) -> Result<(), NoMemory>
    ensures { OnOk result (list.new.items ≡ list.old.items ++ spec.suffix_facts (env_of around.now) (values_of defines.now) suffix.now) }
{
    match suffix {
        Suffix::Index(_, e) => add_expr(alloc, around, defines, e.get(), list),
        Suffix::Member(_, _) => Ok(()),
        Suffix::Arrow(_, _) => Ok(()),
        Suffix::Increment(_) => Ok(()),
        Suffix::Decrement(_) => Ok(()),
    }
}
