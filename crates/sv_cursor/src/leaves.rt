//! Parts of one or two tokens.

ghost use Rattle.dpi_grammar.specs.Parser.{Reads};
ghost use Rattle.sv_cursor.specs.Reading as spec;

use crate::cursor::Cursor;
use dpi_grammar::Stop;
use std::alloc::Global;
use sv_tree::{Bound, Class, Label, Name, Number, Text};

/// An identifier (IEEE 1800-2017, 5.6).
#[tactic(auto, unfolding(crate::specs::Reading::name))]
pub fn name(alloc: Global, tokens: &mut Cursor<'_>) -> Result<Name, Stop>
    ensures { Reads (spec.name tokens.old) result tokens.new }
{
    let token = tokens.place();
    let bytes = tokens.take(alloc, Class::Name)?;
    Ok(Name { token, bytes })
}

/// A number (IEEE 1800-2017, 5.7).
#[tactic(auto, unfolding(crate::specs::Reading::number))]
pub fn number(alloc: Global, tokens: &mut Cursor<'_>) -> Result<Number, Stop>
    ensures { Reads (spec.number tokens.old) result tokens.new }
{
    let token = tokens.place();
    let bytes = tokens.take(alloc, Class::Number)?;
    Ok(Number { token, bytes })
}

/// A string (IEEE 1800-2017, 5.9).
#[tactic(auto, unfolding(crate::specs::Reading::text))]
pub fn text(alloc: Global, tokens: &mut Cursor<'_>) -> Result<Text, Stop>
    ensures { Reads (spec.text tokens.old) result tokens.new }
{
    let token = tokens.place();
    let bytes = tokens.take(alloc, Class::Text)?;
    Ok(Text { token, bytes })
}

/// Whether a `-` comes next, which is then read.
#[tactic(auto, unfolding(crate::specs::Reading::minus))]
fn minus(tokens: &mut Cursor<'_>) -> Result<bool, Stop>
    ensures { Reads (spec.minus tokens.old) result tokens.new }
{
    if !tokens.sees(Class::Minus) {
        return Ok(false);
    }
    tokens.expect(Class::Minus)?;
    Ok(true)
}

/// A bound of a dimension or a range (IEEE 1800-2017, 7.4).
// bound = "-"? number
#[tactic(auto, unfolding(crate::specs::Reading::bound))]
pub fn bound(alloc: Global, tokens: &mut Cursor<'_>) -> Result<Bound, Stop>
    ensures { Reads (spec.bound tokens.old) result tokens.new }
{
    let token = tokens.place();
    let negative = minus(tokens)?;
    let number = number(alloc, tokens)?;
    Ok(Bound {
        token,
        negative,
        number,
    })
}

/// A label behind a keyword (IEEE 1800-2017, 9.3.4).
// label = ":" id
#[tactic(auto, unfolding(crate::specs::Reading::label))]
pub fn label(alloc: Global, tokens: &mut Cursor<'_>) -> Result<Label, Stop>
    ensures { Reads (spec.label tokens.old) result tokens.new }
{
    let token = tokens.place();
    tokens.expect(Class::Colon)?;
    let name = name(alloc, tokens)?;
    Ok(Label { token, name })
}

/// A label where a `:` comes next.
pub fn optional_label(alloc: Global, tokens: &mut Cursor<'_>) -> Result<Option<Label>, Stop>
    ensures { Reads (spec.optional_label tokens.old) result tokens.new }
{
    if !tokens.sees(Class::Colon) {
        return Ok(None);
    }
    Ok(Some(label(alloc, tokens)?))
}
