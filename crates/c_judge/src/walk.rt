//! The walk over an expression.
ghost use Rattle.std.specs.Prelude.{◌≡◌, IfOk, map, option_map, flat_map};
ghost use Rattle.dpi_rules.specs.Least.{noted};
ghost use Rattle.dpi_chain.specs.Tree.{tree_of, value_of};
ghost use Rattle.c_typing.specs.Binary.{binary_typed, typed};
ghost use Rattle.c_judge.specs.Calls.{env_of, at as place_at};
ghost use Rattle.c_judge.specs.Judge as spec;

use crate::around::{Around, at};
use crate::assignments::{Side, grouped};
use crate::calls::{call_value, callee_of, note_callee, parameter, unless_found};
use crate::prefixes::all_prefixed;
use c_base::CType;
use c_names::{Callee, name_value};
use c_tree::{
    Assignment, CExpr, Chain, Choice, Cond, Name, Operand as OperandTree, Primary, Suffix, Term,
};
use c_typing::{
    Operand, Place, Sign, Typed, arrow, character, choice as chosen, dot, index, note_condition,
    note_conversion, null, number, step, text,
};
use dpi_chain::Chain as Reading;
use dpi_ports::NoMemory;
use dpi_rules::{Violation, join};
use sqlite_items::Boxed;
use std::alloc::Global;

/// What an expression is, with what it violates noted. None where something is violated or it has
/// no type; NoMemory where no memory was found (ISO C 6.5).
#[cycle(expressions)]
pub fn judge_expr(
    alloc: Global,
    around: &Around<'_, '_>,
    e: &CExpr,
    found: &mut Option<Violation>,
) -> Result<Option<Operand>, NoMemory>
    ensures { IfOk result (λ o. (o ≡ (spec.judge (env_of around.now) e.now).value) × (found.new ≡ noted found.old (spec.judge (env_of around.now) e.now).found)) }
{
    let first = cond(alloc, around, &e.first, found)?;
    let sides = sides(alloc, around, e.rest.as_slice(), found)?;
    Ok(grouped(around.file, first, &sides, found))
}

/// The parts behind the first one.
#[cycle(expressions)]
fn sides(
    alloc: Global,
    around: &Around<'_, '_>,
    rest: &[Assignment],
    found: &mut Option<Violation>,
) -> Result<Vec<Side>, NoMemory>
    ensures { IfOk result (λ v. (v.items ≡ spec.sides (map (spec.assignment_of (env_of around.now)) rest.now)) × (found.new ≡ noted found.old (spec.sides_found (map (spec.assignment_of (env_of around.now)) rest.now)))) }
{
    let mut sides = Vec::new(alloc);
    for part in rest {
        let value = cond(alloc, around, &part.value, found)?;
        sides.push(Side {
            token: part.token,
            first: part.value.token,
            operator: part.operator,
            value,
        })?;
    }
    Ok(sides)
}

/// A chain, and what follows its `?`.
#[cycle(expressions)]
fn cond(
    alloc: Global,
    around: &Around<'_, '_>,
    cond: &Cond,
    found: &mut Option<Violation>,
) -> Result<Option<Operand>, NoMemory>
    ensures { IfOk result (λ o. (o ≡ (spec.cond (env_of around.now) cond.now).judged.value) × (found.new ≡ noted found.old (spec.cond (env_of around.now) cond.now).judged.found)) }
{
    let condition = chain(alloc, around, &cond.chain, found)?;
    let place = at(around, cond.token);
    behind(alloc, around, place, condition, &cond.choice, found)
}

/// A condition with what follows its `?`; the condition itself where nothing does.
#[cycle(expressions)]
fn behind(
    alloc: Global,
    around: &Around<'_, '_>,
    place: Place,
    condition: Option<Operand>,
    branches: &Option<Boxed<Choice>>,
    found: &mut Option<Violation>,
) -> Result<Option<Operand>, NoMemory>
    ensures { IfOk result (λ o. (o ≡ (spec.with_choice place (spec.clean condition) (option_map (spec.choice (env_of around.now)) branches.now)).value) × (found.new ≡ noted found.old (spec.with_choice place (spec.clean condition) (option_map (spec.choice (env_of around.now)) branches.now)).found)) }
{
    match branches {
        None => Ok(condition),
        Some(branches) => choice(alloc, around, place, condition, branches.get(), found),
    }
}

/// What follows the condition of a conditional.
#[cycle(expressions)]
fn choice(
    alloc: Global,
    around: &Around<'_, '_>,
    place: Place,
    condition: Option<Operand>,
    branches: &Choice,
    found: &mut Option<Violation>,
) -> Result<Option<Operand>, NoMemory>
    ensures { IfOk result (λ o. (o ≡ (spec.choice (env_of around.now) branches.now place condition).value) × (found.new ≡ noted found.old (spec.choice (env_of around.now) branches.now place condition).found)) }
{
    let yes = judge_expr(alloc, around, &branches.yes, found)?;
    let no = cond(alloc, around, &branches.no, found)?;
    let sign = at(around, branches.token);
    Ok(chosen(place, sign, condition, yes, no, found))
}

/// A chain of operands.
#[cycle(expressions)]
fn chain(
    alloc: Global,
    around: &Around<'_, '_>,
    chain: &Chain,
    found: &mut Option<Violation>,
) -> Result<Option<Operand>, NoMemory>
    ensures { IfOk result (λ o. (o ≡ (spec.chain (env_of around.now) chain.now).judged.value) × (found.new ≡ noted found.old (spec.chain (env_of around.now) chain.now).judged.found)) }
{
    let first = operand_typed(alloc, around, &chain.first)?;
    let whole = terms(alloc, around, first, chain.rest.as_slice())?;
    join(found, whole.found);
    Ok(whole.value)
}

/// What is kept of a first operand and of the operators and operands behind it.
#[cycle(expressions)]
fn terms(
    alloc: Global,
    around: &Around<'_, '_>,
    first: Typed,
    rest: &[Term],
) -> Result<Typed, NoMemory>
    ensures { IfOk result (λ t. t ≡ value_of binary_typed (tree_of spec.binds first (map spec.link_typed (map (spec.term (env_of around.now)) rest.now)))) }
{
    let mut reading = Reading::new(alloc, first);
    for term in rest {
        let sign = Sign {
            place: at(around, term.token),
            operator: term.operator,
        };
        let right = operand_typed(alloc, around, &term.operand)?;
        reading = reading.with(alloc, sign, right)?;
    }
    reading.value(alloc)
}

/// What is kept of an operand.
#[cycle(expressions)]
fn operand_typed(
    alloc: Global,
    around: &Around<'_, '_>,
    tree: &OperandTree,
) -> Result<Typed, NoMemory>
    ensures { IfOk result (λ t. t ≡ typed (spec.operand (env_of around.now) tree.now).judged) }
{
    let mut found = None;
    let value = operand(alloc, around, tree, &mut found)?;
    Ok(Typed { found, value })
}

/// An operand with its suffixes and prefixes.
#[cycle(expressions)]
fn operand(
    alloc: Global,
    around: &Around<'_, '_>,
    tree: &OperandTree,
    found: &mut Option<Violation>,
) -> Result<Option<Operand>, NoMemory>
    ensures { IfOk result (λ o. (o ≡ (spec.operand (env_of around.now) tree.now).judged.value) × (found.new ≡ noted found.old (spec.operand (env_of around.now) tree.now).judged.found)) }
{
    let first = primary(alloc, around, &tree.primary, found)?;
    let inner = suffixed(alloc, around, tree.suffixes.as_slice(), first, found)?;
    let prefixes = tree.prefixes.as_slice();
    Ok(all_prefixed(around, prefixes, inner, found))
}

/// An operand without prefixes and suffixes.
#[cycle(expressions)]
fn primary(
    alloc: Global,
    around: &Around<'_, '_>,
    primary: &Primary,
    found: &mut Option<Violation>,
) -> Result<Option<Operand>, NoMemory>
    ensures { IfOk result (λ o. (o ≡ (spec.primary (env_of around.now) primary.now).judged.value) × (found.new ≡ noted found.old (spec.primary (env_of around.now) primary.now).judged.found)) }
{
    match primary {
        Primary::Name(name) => Ok(named(around, name, found)),
        Primary::Number(token) => Ok(Some(number(token.bytes.as_slice()))),
        Primary::Character(_) => Ok(Some(character())),
        Primary::Text(_) => Ok(Some(text())),
        Primary::Null(_) => Ok(Some(null())),
        Primary::Call(name, _, es) => call(alloc, around, name, es.as_slice(), found),
        Primary::Group(_, e) => judge_expr(alloc, around, e.get(), found),
    }
}

/// A name.
fn named(around: &Around<'_, '_>, name: &Name, found: &mut Option<Violation>) -> Option<Operand>
    ensures value { result ≡ (spec.named (env_of around.now) name.now).value }
    ensures found { found.new ≡ noted found.old (spec.named (env_of around.now) name.now).found }
{
    let bytes = name.bytes.as_slice();
    let entry = around.scopes.find(bytes);
    name_value(at(around, name.token), bytes, entry, found)
}

/// What suffixes in turn make of what stands before them.
#[cycle(expressions)]
fn suffixed(
    alloc: Global,
    around: &Around<'_, '_>,
    suffixes: &[Suffix],
    first: Option<Operand>,
    found: &mut Option<Violation>,
) -> Result<Option<Operand>, NoMemory>
    ensures { IfOk result (λ o. (o ≡ (spec.suffixed (map (spec.suffix (env_of around.now)) suffixes.now) first).value) × (found.new ≡ noted found.old (spec.suffixed (map (spec.suffix (env_of around.now)) suffixes.now) first).found)) }
{
    let mut operand = first;
    for part in suffixes {
        operand = suffix(alloc, around, part, operand, found)?;
    }
    Ok(operand)
}

/// What a suffix makes of what stands before it.
#[cycle(expressions)]
fn suffix(
    alloc: Global,
    around: &Around<'_, '_>,
    suffix: &Suffix,
    operand: Option<Operand>,
    found: &mut Option<Violation>,
) -> Result<Option<Operand>, NoMemory>
    ensures { IfOk result (λ o. (o ≡ (spec.suffix (env_of around.now) suffix.now operand).value) × (found.new ≡ noted found.old (spec.suffix (env_of around.now) suffix.now operand).found)) }
{
    match suffix {
        Suffix::Index(token, e) => {
            let inner = judge_expr(alloc, around, e.get(), found)?;
            Ok(index(at(around, *token), operand, inner, found))
        }
        Suffix::Member(_, name) => {
            let place = at(around, name.token);
            Ok(dot(place, name.bytes.as_slice(), operand, found))
        }
        Suffix::Arrow(_, name) => {
            let place = at(around, name.token);
            Ok(arrow(place, name.bytes.as_slice(), operand, found))
        }
        Suffix::Increment(token) | Suffix::Decrement(token) => {
            Ok(step(at(around, *token), operand, found))
        }
    }
}

/// A call.
#[cycle(expressions)]
fn call(
    alloc: Global,
    around: &Around<'_, '_>,
    name: &Name,
    es: &[CExpr],
    found: &mut Option<Violation>,
) -> Result<Option<Operand>, NoMemory>
    ensures { IfOk result (λ o. (o ≡ (spec.call_judged (env_of around.now) name.now (map (spec.placed (env_of around.now)) es.now)).value) × (found.new ≡ noted found.old (spec.call_judged (env_of around.now) name.now (map (spec.placed (env_of around.now)) es.now)).found)) }
{
    let mut own = None;
    let callee = callee_of(around, name, &mut own);
    let values = arguments(alloc, around, callee, es, &mut own)?;
    note_callee(alloc, around, name.token, callee, es, &values, &mut own)?;
    join(found, own);
    Ok(unless_found(own, call_value(around, callee, &values)))
}

/// The arguments of a call.
#[cycle(expressions)]
fn arguments(
    alloc: Global,
    around: &Around<'_, '_>,
    callee: Option<Callee>,
    es: &[CExpr],
    found: &mut Option<Violation>,
) -> Result<Vec<Option<Operand>>, NoMemory>
    ensures { IfOk result (λ v. (v.items ≡ spec.values_of (map (spec.placed (env_of around.now)) es.now)) × (found.new ≡ noted found.old (spec.arguments_violations (env_of around.now) callee 0 (map (spec.placed (env_of around.now)) es.now)))) }
{
    let mut values = Vec::new(alloc);
    for (number, e) in es.iter().enumerate() {
        let to = parameter(around, callee, number);
        values.push(judge_value(alloc, around, e, to, found)?)?;
    }
    Ok(values)
}

/// A value that is converted to a type: what the expression is, with what it violates noted, and
/// rule 9 at its first token where it doesn't convert. The conversion isn't looked at where either
/// has no type. NoMemory where no memory was found (ISO C 6.5.16.1).
#[cycle(expressions)]
pub fn judge_value(
    alloc: Global,
    around: &Around<'_, '_>,
    e: &CExpr,
    to: Option<CType>,
    found: &mut Option<Violation>,
) -> Result<Option<Operand>, NoMemory>
    ensures { IfOk result (λ o. (o ≡ (spec.judge (env_of around.now) e.now).value) × (found.new ≡ noted found.old (spec.value_violations (env_of around.now) e.now to))) }
{
    let value = judge_expr(alloc, around, e, found)?;
    note_conversion(at(around, e.token), value, to, found);
    Ok(value)
}

/// Notes what a condition violates: rule 25 at its first token, where it is neither a number nor a
/// pointer, besides what the expression does. NoMemory where no memory was found (ISO C 6.8.4.1 and
/// 6.8.5).
pub fn judge_condition(
    alloc: Global,
    around: &Around<'_, '_>,
    e: &CExpr,
    found: &mut Option<Violation>,
) -> Result<(), NoMemory>
    ensures { IfOk result (λ _. found.new ≡ noted found.old (spec.condition_violations (env_of around.now) e.now)) }
{
    let condition = judge_expr(alloc, around, e, found)?;
    note_condition(at(around, e.token), condition, found);
    Ok(())
}
