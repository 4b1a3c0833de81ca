//! The walk over an expression.
ghost use Rattle.std.specs.Prelude.{◌≡◌, IfOk, map, option_map};
ghost use Rattle.dpi_rules.specs.Least.{noted};
ghost use Rattle.dpi_chain.specs.Tree.{tree_of, value_of};
ghost use Rattle.sv_typing.specs.Operators.{part_between};
ghost use Rattle.sv_typing.specs.Chains.{binds, link_kept};
ghost use Rattle.sv_typing.specs.Judged.{kept};
ghost use Rattle.sv_typing.specs.Selects.{variable as variable_of};
ghost use Rattle.sv_judge.specs.Forms as forms;
ghost use Rattle.sv_judge.specs.Calls.{env_of};
ghost use Rattle.sv_judge.specs.Judge as spec;

use crate::calls::{call_value, note_callee, note_passed, passing_at, result_of, unless_found};
use crate::forms::{Form, Whole, chain_form, joint, number_form, other};
use crate::place::Place;
use crate::prefixes::with_prefixes;
use dpi_chain::Chain as Reading;
use dpi_ports::NoMemory;
use dpi_rules::{Violation, join};
use sqlite_items::Boxed;
use std::alloc::Global;
use sv_names::{Callee, called, note_call, note_value, value_kind};
use sv_shapes::VarKind;
use sv_tree::{Call, Chain, Choice, Expr, Lvalue, Primary, Select, Term};
use sv_typing::{
    Binary, Joint, Operand, Part, Selected, cast, concatenated, conditional, null_operand,
    number_operand, part_size, read, repeat_count, repeated, select_bits, select_index,
    select_range, text_operand, variable,
};

/// An expression: what it is, with what it violates noted. NoMemory where no memory was found.
#[cycle(expressions)]
pub fn judge_expr(
    alloc: Global,
    place: &Place<'_, '_>,
    e: &Expr,
    found: &mut Option<Violation>,
) -> Result<Whole, NoMemory>
    ensures { IfOk result (λ w. (w ≡ (spec.judge (env_of place.now) e.now).whole) × (found.new ≡ noted found.old (spec.judge (env_of place.now) e.now).found)) }
{
    let condition = chain(alloc, place, &e.chain, found)?;
    behind(alloc, place, condition, &e.choice, found)
}

/// A condition with what follows its `?`; the condition itself where nothing does.
#[cycle(expressions)]
fn behind(
    alloc: Global,
    place: &Place<'_, '_>,
    condition: Whole,
    branches: &Option<Boxed<Choice>>,
    found: &mut Option<Violation>,
) -> Result<Whole, NoMemory>
    ensures { IfOk result (λ w. (w ≡ (spec.with_choice (spec.so_far condition) (option_map (spec.choice (env_of place.now)) branches.now)).whole) × (found.new ≡ noted found.old (spec.with_choice (spec.so_far condition) (option_map (spec.choice (env_of place.now)) branches.now)).found)) }
{
    match branches {
        None => Ok(condition),
        Some(branches) => choice(alloc, place, branches.get(), condition.value, found),
    }
}

/// What follows the condition of a conditional.
#[cycle(expressions)]
fn choice(
    alloc: Global,
    place: &Place<'_, '_>,
    branches: &Choice,
    condition: Option<Operand>,
    found: &mut Option<Violation>,
) -> Result<Whole, NoMemory>
    ensures { IfOk result (λ w. (w ≡ forms.other (spec.choice (env_of place.now) branches.now condition).value) × (found.new ≡ noted found.old (spec.choice (env_of place.now) branches.now condition).found)) }
{
    let yes = judge_expr(alloc, place, &branches.yes, found)?;
    let no = judge_expr(alloc, place, &branches.no, found)?;
    let value = conditional(
        place.file,
        branches.token,
        condition,
        yes.value,
        no.value,
        found,
    );
    Ok(other(value))
}

/// A chain of operands.
#[cycle(expressions)]
fn chain(
    alloc: Global,
    place: &Place<'_, '_>,
    chain: &Chain,
    found: &mut Option<Violation>,
) -> Result<Whole, NoMemory>
    ensures { IfOk result (λ w. (w ≡ (spec.chain (env_of place.now) chain.now).whole) × (found.new ≡ noted found.old (spec.chain (env_of place.now) chain.now).found)) }
{
    let mut own = None;
    let first = operand(alloc, place, &chain.first, &mut own)?;
    let part = Part {
        found: own,
        value: first.value,
    };
    let part = terms(alloc, place, part, chain.rest.as_slice())?;
    join(found, part.found);
    Ok(Whole {
        value: part.value,
        form: chain_form(first.form, is_none(chain.rest.as_slice())),
    })
}

/// What is kept of a first operand and of the operators and operands behind it.
#[cycle(expressions)]
fn terms(alloc: Global, place: &Place<'_, '_>, first: Part, rest: &[Term]) -> Result<Part, NoMemory>
    ensures { IfOk result (λ p. p ≡ value_of part_between (tree_of binds first (map link_kept (map (spec.term (env_of place.now)) rest.now)))) }
{
    let mut reading = Reading::new(alloc, first);
    for term in rest {
        let binary = Binary {
            file: place.file,
            token: term.token,
            operator: term.operator,
        };
        let right = term_part(alloc, place, term)?;
        reading = reading.with(alloc, binary, right)?;
    }
    reading.value(alloc)
}

/// What is kept of the operand behind an operator.
#[cycle(expressions)]
fn term_part(alloc: Global, place: &Place<'_, '_>, term: &Term) -> Result<Part, NoMemory>
    ensures { IfOk result (λ p. p ≡ kept (spec.term (env_of place.now) term.now).operand) }
{
    let mut own = None;
    let right = operand(alloc, place, &term.operand, &mut own)?;
    Ok(Part {
        found: own,
        value: right.value,
    })
}

/// An operand with its prefixes.
#[cycle(expressions)]
fn operand(
    alloc: Global,
    place: &Place<'_, '_>,
    operand: &sv_tree::Operand,
    found: &mut Option<Violation>,
) -> Result<Whole, NoMemory>
    ensures { IfOk result (λ w. (w ≡ (spec.operand_seen (env_of place.now) operand.now).whole) × (found.new ≡ noted found.old (spec.operand_seen (env_of place.now) operand.now).found)) }
{
    let whole = primary(alloc, place, &operand.primary, found)?;
    let prefixes = operand.prefixes.as_slice();
    Ok(with_prefixes(place.file, prefixes, whole, found))
}

/// An operand without prefixes.
#[cycle(expressions)]
fn primary(
    alloc: Global,
    place: &Place<'_, '_>,
    primary: &Primary,
    found: &mut Option<Violation>,
) -> Result<Whole, NoMemory>
    ensures { IfOk result (λ w. (w ≡ (spec.primary (env_of place.now) primary.now).whole) × (found.new ≡ noted found.old (spec.primary (env_of place.now) primary.now).found)) }
{
    let file = place.file;
    match primary {
        Primary::Number(number) => Ok(Whole {
            value: Some(number_operand(number.bytes.as_slice())),
            form: number_form(number.bytes.as_slice()),
        }),
        Primary::Text(_) => Ok(other(Some(text_operand()))),
        Primary::Null(_) => Ok(other(Some(null_operand()))),
        Primary::Place(lvalue) => {
            let selected = judge_lvalue(alloc, place, lvalue, found)?;
            Ok(Whole {
                value: read(selected),
                form: Form::Place(selected),
            })
        }
        Primary::Call(call) => Ok(other(judge_call(alloc, place, call, false, found)?)),
        Primary::Group(_, e) => Ok(other(judge_expr(alloc, place, e.get(), found)?.value)),
        Primary::Concatenation(token, es) => {
            let joints = parts(alloc, place, es.as_slice(), found)?;
            Ok(other(concatenated(file, *token, &joints, found)))
        }
        Primary::Repetition(token, number, es) => {
            let count = repeat_count(alloc, number.bytes.as_slice())?;
            let joints = parts(alloc, place, es.as_slice(), found)?;
            Ok(other(repeated(file, *token, count, &joints, found)))
        }
        Primary::Signed(token, e) => {
            let whole = judge_expr(alloc, place, e.get(), found)?;
            Ok(other(cast(file, *token, true, whole.value, found)))
        }
        Primary::Unsigned(token, e) => {
            let whole = judge_expr(alloc, place, e.get(), found)?;
            Ok(other(cast(file, *token, false, whole.value, found)))
        }
    }
}

/// The parts of a concatenation.
#[cycle(expressions)]
fn parts(
    alloc: Global,
    place: &Place<'_, '_>,
    es: &[Expr],
    found: &mut Option<Violation>,
) -> Result<Vec<Joint>, NoMemory>
    ensures { IfOk result (λ v. (v.items ≡ map (λ a. forms.joint a.seen.whole) (map (spec.actual (env_of place.now)) es.now)) × (found.new ≡ noted found.old (spec.parts_found (map (spec.actual (env_of place.now)) es.now)))) }
{
    let mut joints = Vec::new(alloc);
    for e in es {
        let whole = judge_expr(alloc, place, e, found)?;
        joints.push(joint(whole))?;
    }
    Ok(joints)
}

/// A name with its selects: what is selected, with what is violated noted. None where something is,
/// or the variable has no type. NoMemory where no memory was found.
#[cycle(expressions)]
pub fn judge_lvalue(
    alloc: Global,
    place: &Place<'_, '_>,
    lvalue: &Lvalue,
    found: &mut Option<Violation>,
) -> Result<Option<Selected>, NoMemory>
    ensures { IfOk result (λ s. (s ≡ (spec.lvalue (env_of place.now) lvalue.now).value) × (found.new ≡ noted found.old (spec.lvalue (env_of place.now) lvalue.now).found)) }
{
    let entry = place.scopes.find(lvalue.name.bytes.as_slice());
    note_value(place.file, lvalue.name.token, entry, found);
    let selects = lvalue.selects.as_slice();
    selected_by(alloc, place, selects, whole(value_kind(entry)), found)
}

/// What selects in turn make of what stands before them.
#[cycle(expressions)]
fn selected_by(
    alloc: Global,
    place: &Place<'_, '_>,
    selects: &[Select],
    before: Option<Selected>,
    found: &mut Option<Violation>,
) -> Result<Option<Selected>, NoMemory>
    ensures { IfOk result (λ s. (s ≡ (spec.selected_by (map (spec.select (env_of place.now)) selects.now) before).value) × (found.new ≡ noted found.old (spec.selected_by (map (spec.select (env_of place.now)) selects.now) before).found)) }
{
    let mut selected = before;
    for part in selects {
        selected = select(alloc, place, part, selected, found)?;
    }
    Ok(selected)
}

/// What a select makes of what stands before it.
#[cycle(expressions)]
fn select(
    alloc: Global,
    place: &Place<'_, '_>,
    select: &Select,
    selected: Option<Selected>,
    found: &mut Option<Violation>,
) -> Result<Option<Selected>, NoMemory>
    ensures { IfOk result (λ s. (s ≡ (spec.select (env_of place.now) select.now selected).value) × (found.new ≡ noted found.old (spec.select (env_of place.now) select.now selected).found)) }
{
    let file = place.file;
    match select {
        Select::Index(token, e) => {
            let index = judge_expr(alloc, place, e.get(), found)?;
            Ok(select_index(file, *token, selected, index.value, found))
        }
        Select::Range(token, left, right) => {
            Ok(select_range(file, *token, selected, left, right, found))
        }
        Select::Up(token, e, number) | Select::Down(token, e, number) => {
            let index = judge_expr(alloc, place, e.get(), found)?;
            let size = part_size(alloc, number.bytes.as_slice())?;
            Ok(select_bits(file, *token, selected, index.value, size, found))
        }
    }
}

/// A call, as a statement or in an expression: what it gives, with what it violates noted. None where
/// something is violated, or the type of the function is refused. NoMemory where no memory was found.
#[cycle(expressions)]
pub fn judge_call(
    alloc: Global,
    place: &Place<'_, '_>,
    call: &Call,
    statement: bool,
    found: &mut Option<Violation>,
) -> Result<Option<Operand>, NoMemory>
    ensures { IfOk result (λ o. (o ≡ (spec.call (env_of place.now) call.now statement).value) × (found.new ≡ noted found.old (spec.call (env_of place.now) call.now statement).found)) }
{
    let entry = place.scopes.find_called(call.name.bytes.as_slice());
    let callee = called(entry);
    let mut own = None;
    note_call(place.file, call.name.token, entry, &mut own);
    let count = call.actuals.len();
    note_callee(place, call.name.token, callee, count, statement, &mut own);
    actuals(alloc, place, callee, call.actuals.as_slice(), &mut own)?;
    join(found, own);
    Ok(unless_found(own, call_value(result_of(place, callee))))
}

/// Notes what the actuals of a call violate.
#[cycle(expressions)]
fn actuals(
    alloc: Global,
    place: &Place<'_, '_>,
    callee: Option<Callee>,
    es: &[Expr],
    found: &mut Option<Violation>,
) -> Result<(), NoMemory>
    ensures { IfOk result (λ _. found.new ≡ noted found.old (spec.actuals_violations (env_of place.now) callee 0 (map (spec.actual (env_of place.now)) es.now))) }
{
    for (number, e) in es.iter().enumerate() {
        let whole = judge_expr(alloc, place, e, found)?;
        let passing = passing_at(place, callee, number);
        note_passed(place.file, e.token, passing, whole, found);
    }
    Ok(())
}

/// Whether there are no operators behind a first operand.
fn is_none(rest: &[Term]) -> bool
    ensures { result ≡ spec.is_none_left rest.now }
{
    rest.is_empty()
}

/// A whole variable of this kind, where it has one.
fn whole(kind: Option<VarKind>) -> Option<Selected>
    ensures { result ≡ option_map variable_of kind }
{
    match kind {
        Some(kind) => Some(variable(&kind)),
        None => None,
    }
}
