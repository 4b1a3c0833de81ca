//! Parts of one token.

ghost use Rattle.dpi_grammar.specs.Parser.{Reads};
ghost use Rattle.c_cursor.specs.Reading as spec;

use crate::cursor::Cursor;
use c_tree::{Character, Class, Define, Name, Number, Text};
use dpi_grammar::Stop;
use std::alloc::Global;

/// An identifier (ISO C 6.4.2).
#[tactic(auto, unfolding(crate::specs::Reading::name))]
pub fn name(alloc: Global, tokens: &mut Cursor<'_>) -> Result<Name, Stop>
    ensures { Reads (spec.name tokens.old) result tokens.new }
{
    let token = tokens.place();
    let bytes = tokens.take(alloc, Class::Name)?;
    Ok(Name { token, bytes })
}

/// A number (ISO C 6.4.4.1).
#[tactic(auto, unfolding(crate::specs::Reading::number))]
pub fn number(alloc: Global, tokens: &mut Cursor<'_>) -> Result<Number, Stop>
    ensures { Reads (spec.number tokens.old) result tokens.new }
{
    let token = tokens.place();
    let bytes = tokens.take(alloc, Class::Number)?;
    Ok(Number { token, bytes })
}

/// A string (ISO C 6.4.5).
#[tactic(auto, unfolding(crate::specs::Reading::text))]
pub fn text(alloc: Global, tokens: &mut Cursor<'_>) -> Result<Text, Stop>
    ensures { Reads (spec.text tokens.old) result tokens.new }
{
    let token = tokens.place();
    let bytes = tokens.take(alloc, Class::Text)?;
    Ok(Text { token, bytes })
}

/// A character (ISO C 6.4.4.4).
#[tactic(auto, unfolding(crate::specs::Reading::character))]
pub fn character(alloc: Global, tokens: &mut Cursor<'_>) -> Result<Character, Stop>
    ensures { Reads (spec.character tokens.old) result tokens.new }
{
    let token = tokens.place();
    let bytes = tokens.take(alloc, Class::Character)?;
    Ok(Character { token, bytes })
}

/// A define (ISO C 6.10.3).
#[tactic(auto, unfolding(crate::specs::Reading::define))]
pub fn define(alloc: Global, tokens: &mut Cursor<'_>) -> Result<Define, Stop>
    ensures { Reads (spec.define tokens.old) result tokens.new }
{
    let token = tokens.place();
    let bytes = tokens.take(alloc, Class::Define)?;
    Ok(Define { token, bytes })
}
