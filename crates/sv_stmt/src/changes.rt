//! What changes a variable, and what a `for` begins with (IEEE 1800-2017, 10.4, 11.4, 12.7.1).

ghost use Rattle.dpi_grammar.specs.Parser.{Reads, token};
ghost use Rattle.sv_tree.specs.Classes.{class_at};
ghost use Rattle.sv_tree.specs.Kinds.{step_of};
ghost use Rattle.sv_tree.specs.Operators.{assign_of};
ghost use Rattle.sv_stmt.specs.ReadingChanges as spec;

use crate::declarators::init;
use crate::front::begins_step;
use dpi_grammar::Stop;
use std::alloc::Global;
use sv_cursor::{Cursor, name};
use sv_expr::{expr, lvalue};
use sv_tree::{AssignOperator, Change, Class, Lvalue, Start, StepOperator};
use sv_types::{begins_data_type, data_type};

/// `++` or `--` (11.4.2).
fn step_operator(tokens: &mut Cursor<'_>) -> Result<StepOperator, Stop>
    ensures { Reads (token (λ t. step_of (class_at t)) tokens.old) result tokens.new }
{
    match StepOperator::of(tokens.class()) {
        Some(operator) => {
            tokens.skip();
            Ok(operator)
        }
        None => Err(tokens.refuse()),
    }
}

/// An operator that computes and assigns (11.4.1).
fn assign_operator(tokens: &mut Cursor<'_>) -> Result<AssignOperator, Stop>
    ensures { Reads (token (λ t. assign_of (class_at t)) tokens.old) result tokens.new }
{
    match AssignOperator::of(tokens.class()) {
        Some(operator) => {
            tokens.skip();
            Ok(operator)
        }
        None => Err(tokens.refuse()),
    }
}

/// An assignment, behind what is assigned to (10.4.1).
// "=" init
#[tactic(auto, unfolding(crate::specs::ReadingChanges::assign_tail))]
fn assign_tail(
    alloc: Global,
    tokens: &mut Cursor<'_>,
    depth: u32,
    place: Lvalue,
) -> Result<Change, Stop>
    ensures { Reads (spec.assign_tail depth place tokens.old) result tokens.new }
{
    let token = tokens.place();
    tokens.expect(Class::Assign)?;
    let value = init(alloc, tokens, depth)?;
    Ok(Change::Assign(place, token, value))
}

/// A step of one, behind what is stepped (11.4.2).
// "++" | "--"
#[tactic(auto, unfolding(crate::specs::ReadingChanges::step_tail))]
fn step_tail(tokens: &mut Cursor<'_>, place: Lvalue) -> Result<Change, Stop>
    ensures { Reads (spec.step_tail place tokens.old) result tokens.new }
{
    let token = tokens.place();
    let operator = step_operator(tokens)?;
    Ok(Change::Step(place, token, operator))
}

/// An assignment that computes, behind what is assigned to (11.4.1).
// assignop expr
#[tactic(auto, unfolding(crate::specs::ReadingChanges::compute_tail))]
fn compute_tail(
    alloc: Global,
    tokens: &mut Cursor<'_>,
    depth: u32,
    place: Lvalue,
) -> Result<Change, Stop>
    ensures { Reads (spec.compute_tail depth place tokens.old) result tokens.new }
{
    let token = tokens.place();
    let operator = assign_operator(tokens)?;
    let value = expr(alloc, tokens, depth)?;
    Ok(Change::Compute(place, token, operator, value))
}

/// The rest of a change, behind what is changed.
// "=" init | "++" | "--" | assignop expr
#[tactic(auto, unfolding(crate::specs::ReadingChanges::change_tail))]
pub fn change_tail(
    alloc: Global,
    tokens: &mut Cursor<'_>,
    depth: u32,
    place: Lvalue,
) -> Result<Change, Stop>
    ensures { Reads (spec.change_tail depth place tokens.old) result tokens.new }
{
    if tokens.sees(Class::Assign) {
        return assign_tail(alloc, tokens, depth, place);
    }
    if begins_step(tokens) {
        return step_tail(tokens, place);
    }
    compute_tail(alloc, tokens, depth, place)
}

/// A change of a variable.
// change = lvalue "=" init | lvalue assignop expr | lvalue ("++" | "--")
#[tactic(auto, unfolding(crate::specs::ReadingChanges::change))]
pub fn change(alloc: Global, tokens: &mut Cursor<'_>, depth: u32) -> Result<Change, Stop>
    ensures { Reads (spec.change depth tokens.old) result tokens.new }
{
    let place = lvalue(alloc, tokens, depth)?;
    change_tail(alloc, tokens, depth, place)
}

/// A variable of a `for`, with what it begins with (12.7.1).
// type id "=" expr
#[tactic(auto, unfolding(crate::specs::ReadingChanges::declared_start))]
fn declared_start(alloc: Global, tokens: &mut Cursor<'_>, depth: u32) -> Result<Start, Stop>
    ensures { Reads (spec.declared_start depth tokens.old) result tokens.new }
{
    let kind = data_type(alloc, tokens)?;
    let name = name(alloc, tokens)?;
    let token = tokens.place();
    tokens.expect(Class::Assign)?;
    let value = expr(alloc, tokens, depth)?;
    Ok(Start::Declare(kind, name, token, value))
}

/// An assignment that a `for` begins with (12.7.1).
// lvalue "=" expr
#[tactic(auto, unfolding(crate::specs::ReadingChanges::assigned_start))]
fn assigned_start(alloc: Global, tokens: &mut Cursor<'_>, depth: u32) -> Result<Start, Stop>
    ensures { Reads (spec.assigned_start depth tokens.old) result tokens.new }
{
    let place = lvalue(alloc, tokens, depth)?;
    let token = tokens.place();
    tokens.expect(Class::Assign)?;
    let value = expr(alloc, tokens, depth)?;
    Ok(Start::Assign(place, token, value))
}

/// What a `for` begins with (12.7.1).
// start = type id "=" expr | lvalue "=" expr
#[tactic(auto, unfolding(crate::specs::ReadingChanges::start))]
pub fn start(alloc: Global, tokens: &mut Cursor<'_>, depth: u32) -> Result<Start, Stop>
    ensures { Reads (spec.start depth tokens.old) result tokens.new }
{
    if begins_data_type(tokens) {
        return declared_start(alloc, tokens, depth);
    }
    assigned_start(alloc, tokens, depth)
}
