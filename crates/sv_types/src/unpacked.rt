//! Unpacked dimensions (IEEE 1800-2017, 7.4.2).

ghost use Rattle.dpi_grammar.specs.Parser.{Reads};
ghost use Rattle.sv_types.specs.Reading as spec;

use crate::data_types::begins_dimension;
use dpi_grammar::Stop;
use sqlite_items::Items;
use std::alloc::Global;
use sv_cursor::{Cursor, bound};
use sv_tree::{Bound, Class, Dimension};

/// The rest of a dimension behind its left bound.
// ":" bound "]"
#[tactic(auto, unfolding(crate::specs::Reading::range_end))]
fn range_end(
    alloc: Global,
    tokens: &mut Cursor<'_>,
    token: u32,
    left: Bound,
) -> Result<Dimension, Stop>
    ensures { Reads (spec.range_end token left tokens.old) result tokens.new }
{
    tokens.expect(Class::Colon)?;
    let right = bound(alloc, tokens)?;
    tokens.expect(Class::CloseBracket)?;
    Ok(Dimension::Range(token, left, right))
}

/// The rest of a dimension behind its size.
// "]"
#[tactic(auto, unfolding(crate::specs::Reading::size_end))]
fn size_end(tokens: &mut Cursor<'_>, token: u32, size: Bound) -> Result<Dimension, Stop>
    ensures { Reads (spec.size_end token size tokens.old) result tokens.new }
{
    tokens.expect(Class::CloseBracket)?;
    Ok(Dimension::Size(token, size.number))
}

/// The rest of a dimension behind its first bound: one with a sign is the left one of two.
#[tactic(auto, unfolding(crate::specs::Reading::dimension_end))]
fn dimension_end(
    alloc: Global,
    tokens: &mut Cursor<'_>,
    token: u32,
    first: Bound,
) -> Result<Dimension, Stop>
    ensures { Reads (spec.dimension_end token first tokens.old) result tokens.new }
{
    if first.negative || tokens.sees(Class::Colon) {
        range_end(alloc, tokens, token, first)
    } else {
        size_end(tokens, token, first)
    }
}

/// What a dimension has behind its bracket, which has this number.
// bound ":" bound "]" | number "]"
#[tactic(auto, unfolding(crate::specs::Reading::dimension_from))]
pub(crate) fn dimension_from(
    alloc: Global,
    tokens: &mut Cursor<'_>,
    token: u32,
) -> Result<Dimension, Stop>
    ensures { Reads (spec.dimension_from token tokens.old) result tokens.new }
{
    let first = bound(alloc, tokens)?;
    dimension_end(alloc, tokens, token, first)
}

/// A dimension.
// dim = "[" bound ":" bound "]" | "[" number "]"
#[tactic(auto, unfolding(crate::specs::Reading::dimension))]
pub fn dimension(alloc: Global, tokens: &mut Cursor<'_>) -> Result<Dimension, Stop>
    ensures { Reads (spec.dimension tokens.old) result tokens.new }
{
    let token = tokens.place();
    tokens.expect(Class::OpenBracket)?;
    dimension_from(alloc, tokens, token)
}

/// Dimensions for as long as one begins.
// dim*
pub fn dimensions(alloc: Global, tokens: &mut Cursor<'_>) -> Result<Items<Dimension>, Stop>
    ensures { Reads (spec.dimensions tokens.old) result tokens.new }
{
    let mut found = Items::new(alloc);
    for _turn in 0..tokens.left() {
        if !begins_dimension(tokens) {
            return Ok(found);
        }
        found.push(dimension(alloc, tokens)?)?;
    }
    Ok(found)
}
