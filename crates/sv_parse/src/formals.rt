//! Formals of functions and tasks (IEEE 1800-2017, 13.3, 13.5).

ghost use Rattle.std.specs.Prelude.{◌≡◌};
ghost use Rattle.dpi_grammar.specs.Parser.{Reads, first};
ghost use Rattle.sv_parse.specs.Headers as spec;

use dpi_grammar::Stop;
use sqlite_items::Items;
use std::alloc::Global;
use sv_cursor::{Cursor, name};
use sv_tree::{Class, DataType, Direction, Formal, Way};
use sv_types::{begins_data_type, data_type, dimensions};

/// Whether a formal begins here.
pub(crate) fn begins_formal(tokens: &Cursor<'_>) -> bool
    ensures { result ≡ spec.begins_formal (first tokens.now.rest) }
{
    Direction::of(tokens.class()).is_some() || begins_data_type(tokens) || tokens.sees(Class::Name)
}

/// The word of a direction.
fn way(tokens: &mut Cursor<'_>) -> Result<Direction, Stop>
    ensures { Reads (spec.way tokens.old) result tokens.new }
{
    match Direction::of(tokens.class()) {
        Some(direction) => {
            tokens.skip();
            Ok(direction)
        }
        None => Err(tokens.refuse()),
    }
}

/// A direction (13.3).
// direction = "input" | "output" | "inout"
#[tactic(auto, unfolding(crate::specs::Headers::direction))]
fn direction(tokens: &mut Cursor<'_>) -> Result<Way, Stop>
    ensures { Reads (spec.direction tokens.old) result tokens.new }
{
    let token = tokens.place();
    let direction = way(tokens)?;
    Ok(Way { token, direction })
}

/// A direction where one begins.
pub(crate) fn optional_direction(tokens: &mut Cursor<'_>) -> Result<Option<Way>, Stop>
    ensures { Reads (spec.optional_direction tokens.old) result tokens.new }
{
    if Direction::of(tokens.class()).is_none() {
        return Ok(None);
    }
    Ok(Some(direction(tokens)?))
}

/// A type where one begins.
fn optional_type(alloc: Global, tokens: &mut Cursor<'_>) -> Result<Option<DataType>, Stop>
    ensures { Reads (spec.optional_type tokens.old) result tokens.new }
{
    if !begins_data_type(tokens) {
        return Ok(None);
    }
    Ok(Some(data_type(alloc, tokens)?))
}

/// A formal (13.3).
// formal = direction? type? name dimension*
#[tactic(auto, unfolding(crate::specs::Headers::formal))]
fn formal(alloc: Global, tokens: &mut Cursor<'_>) -> Result<Formal, Stop>
    ensures { Reads (spec.formal tokens.old) result tokens.new }
{
    let way = optional_direction(tokens)?;
    let kind = optional_type(alloc, tokens)?;
    let name = name(alloc, tokens)?;
    let dimensions = dimensions(alloc, tokens)?;
    Ok(Formal {
        way,
        kind,
        name,
        dimensions,
    })
}

// "," formal
fn next_formal(alloc: Global, tokens: &mut Cursor<'_>) -> Result<Formal, Stop>
    ensures { Reads (spec.next_formal tokens.old) result tokens.new }
{
    tokens.expect(Class::Comma)?;
    formal(alloc, tokens)
}

/// Formals, each behind a comma, behind those found so far.
// ("," formal)*
fn more_formals(
    alloc: Global,
    tokens: &mut Cursor<'_>,
    mut found: Items<Formal>,
) -> Result<Items<Formal>, Stop>
    ensures { Reads (spec.more_formals found tokens.old) result tokens.new }
{
    for _turn in 0..tokens.left() {
        if !tokens.sees(Class::Comma) {
            return Ok(found);
        }
        found.push(next_formal(alloc, tokens)?)?;
    }
    Ok(found)
}

// formal,+
fn some_formals(alloc: Global, tokens: &mut Cursor<'_>) -> Result<Items<Formal>, Stop>
    ensures { Reads (spec.some_formals tokens.old) result tokens.new }
{
    let mut found = Items::new(alloc);
    found.push(formal(alloc, tokens)?)?;
    more_formals(alloc, tokens, found)
}

// (formal,+)?
fn listed_formals(alloc: Global, tokens: &mut Cursor<'_>) -> Result<Items<Formal>, Stop>
    ensures { Reads (spec.listed_formals tokens.old) result tokens.new }
{
    if !begins_formal(tokens) {
        return Ok(Items::new(alloc));
    }
    some_formals(alloc, tokens)
}

/// The formals of a function or a task, in their parentheses.
// formals = "(" (formal,+)? ")"
#[tactic(auto, unfolding(crate::specs::Headers::formals))]
fn formals(alloc: Global, tokens: &mut Cursor<'_>) -> Result<Items<Formal>, Stop>
    ensures { Reads (spec.formals tokens.old) result tokens.new }
{
    tokens.expect(Class::OpenParen)?;
    let formals = listed_formals(alloc, tokens)?;
    tokens.expect(Class::CloseParen)?;
    Ok(formals)
}

/// The formals of a function or a task, where a `(` comes next.
pub(crate) fn optional_formals(
    alloc: Global,
    tokens: &mut Cursor<'_>,
) -> Result<Option<Items<Formal>>, Stop>
    ensures { Reads (spec.optional_formals tokens.old) result tokens.new }
{
    if !tokens.sees(Class::OpenParen) {
        return Ok(None);
    }
    Ok(Some(formals(alloc, tokens)?))
}
