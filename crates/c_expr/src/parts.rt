//! Parts of an expression that hold no other expression.

ghost use Rattle.dpi_grammar.specs.Parser.{Reads, token};
ghost use Rattle.c_tree.specs.Classes.{class_at};
ghost use Rattle.c_tree.specs.Operators.{binary_of, assign_of};
ghost use Rattle.c_expr.specs.Reading as spec;

use crate::lead::Lead;
use c_cursor::{Cursor, character, name, number, text};
use c_tree::{AssignOperator, BinaryOperator, Class, Prefix, Primary, Suffix, UnaryOperator};
use c_types::{stars, type_name};
use dpi_grammar::Stop;
use std::alloc::Global;

/// An operator between operands (ISO C 6.5.5 to 6.5.14).
pub fn operator(tokens: &mut Cursor<'_>) -> Result<BinaryOperator, Stop>
    ensures { Reads (token (λ t. binary_of (class_at t)) tokens.old) result tokens.new }
{
    match BinaryOperator::of(tokens.class()) {
        Some(operator) => {
            tokens.skip();
            Ok(operator)
        }
        None => Err(tokens.refuse()),
    }
}

/// An operator that assigns (6.5.16).
pub fn assign_operator(tokens: &mut Cursor<'_>) -> Result<AssignOperator, Stop>
    ensures { Reads (token (λ t. assign_of (class_at t)) tokens.old) result tokens.new }
{
    match AssignOperator::of(tokens.class()) {
        Some(operator) => {
            tokens.skip();
            Ok(operator)
        }
        None => Err(tokens.refuse()),
    }
}

/// A prefix that is an operator (6.5.3).
// unop
#[tactic(auto, unfolding(crate::specs::Reading::sign))]
pub fn sign(tokens: &mut Cursor<'_>) -> Result<Lead, Stop>
    ensures { Reads (spec.sign tokens.old) result tokens.new }
{
    let token = tokens.place();
    match UnaryOperator::of(tokens.class()) {
        Some(operator) => {
            tokens.skip();
            Ok(Lead::Prefix(Prefix::Sign(token, operator)))
        }
        None => Err(tokens.refuse()),
    }
}

/// A cast, behind its `(`, which has that number (6.5.4).
// type stars ")"
#[tactic(auto, unfolding(crate::specs::Reading::cast))]
pub fn cast(alloc: Global, tokens: &mut Cursor<'_>, token: u32) -> Result<Lead, Stop>
    ensures { Reads (spec.cast token tokens.old) result tokens.new }
{
    let kind = type_name(alloc, tokens)?;
    let stars = stars(alloc, tokens)?;
    tokens.expect(Class::CloseParen)?;
    Ok(Lead::Prefix(Prefix::Cast(token, kind, stars)))
}

/// The pointer that points to nothing (7.19).
// "NULL"
#[tactic(auto, unfolding(crate::specs::Reading::null))]
fn null(tokens: &mut Cursor<'_>) -> Result<Primary, Stop>
    ensures { Reads (spec.null tokens.old) result tokens.new }
{
    let token = tokens.place();
    tokens.expect(Class::Null)?;
    Ok(Primary::Null(token))
}

/// A string, or `NULL` (6.4.5, 7.19).
// string | "NULL"
#[tactic(auto, unfolding(crate::specs::Reading::text_or_null))]
fn text_or_null(alloc: Global, tokens: &mut Cursor<'_>) -> Result<Primary, Stop>
    ensures { Reads (spec.text_or_null tokens.old) result tokens.new }
{
    if tokens.sees(Class::Text) {
        return Ok(Primary::Text(text(alloc, tokens)?));
    }
    null(tokens)
}

/// An operand of one token that is no name (6.4.4, 6.4.5, 7.19).
// number | character | string | "NULL"
#[tactic(auto, unfolding(crate::specs::Reading::literal))]
pub fn literal(alloc: Global, tokens: &mut Cursor<'_>) -> Result<Primary, Stop>
    ensures { Reads (spec.literal tokens.old) result tokens.new }
{
    if tokens.sees(Class::Number) {
        return Ok(Primary::Number(number(alloc, tokens)?));
    }
    if tokens.sees(Class::Character) {
        return Ok(Primary::Character(character(alloc, tokens)?));
    }
    text_or_null(alloc, tokens)
}

/// A member of a structure (6.5.2.3).
// "." id
#[tactic(auto, unfolding(crate::specs::Reading::member))]
fn member(alloc: Global, tokens: &mut Cursor<'_>) -> Result<Suffix, Stop>
    ensures { Reads (spec.member tokens.old) result tokens.new }
{
    let token = tokens.place();
    tokens.expect(Class::Dot)?;
    Ok(Suffix::Member(token, name(alloc, tokens)?))
}

/// A member of a structure that is pointed to (6.5.2.3).
// "->" id
#[tactic(auto, unfolding(crate::specs::Reading::arrow))]
fn arrow(alloc: Global, tokens: &mut Cursor<'_>) -> Result<Suffix, Stop>
    ensures { Reads (spec.arrow tokens.old) result tokens.new }
{
    let token = tokens.place();
    tokens.expect(Class::Arrow)?;
    Ok(Suffix::Arrow(token, name(alloc, tokens)?))
}

/// A suffix that adds one (6.5.2.4).
// "++"
#[tactic(auto, unfolding(crate::specs::Reading::increment))]
fn increment(tokens: &mut Cursor<'_>) -> Result<Suffix, Stop>
    ensures { Reads (spec.increment tokens.old) result tokens.new }
{
    let token = tokens.place();
    tokens.expect(Class::Increment)?;
    Ok(Suffix::Increment(token))
}

/// A suffix that takes one away (6.5.2.4).
// "--"
#[tactic(auto, unfolding(crate::specs::Reading::decrement))]
fn decrement(tokens: &mut Cursor<'_>) -> Result<Suffix, Stop>
    ensures { Reads (spec.decrement tokens.old) result tokens.new }
{
    let token = tokens.place();
    tokens.expect(Class::Decrement)?;
    Ok(Suffix::Decrement(token))
}

/// A suffix that adds one or takes one away (6.5.2.4).
// "++" | "--"
#[tactic(auto, unfolding(crate::specs::Reading::stepped))]
fn stepped(tokens: &mut Cursor<'_>) -> Result<Suffix, Stop>
    ensures { Reads (spec.stepped tokens.old) result tokens.new }
{
    if tokens.sees(Class::Increment) {
        return increment(tokens);
    }
    decrement(tokens)
}

/// A suffix that opens no level (6.5.2.3, 6.5.2.4).
// "." id | "->" id | "++" | "--"
#[tactic(auto, unfolding(crate::specs::Reading::flat_suffix))]
pub fn flat_suffix(alloc: Global, tokens: &mut Cursor<'_>) -> Result<Suffix, Stop>
    ensures { Reads (spec.flat_suffix tokens.old) result tokens.new }
{
    if tokens.sees(Class::Dot) {
        return member(alloc, tokens);
    }
    if tokens.sees(Class::Arrow) {
        return arrow(alloc, tokens);
    }
    stepped(tokens)
}
