//! Sizes of arrays (ISO C 6.7.6.2).

ghost use Rattle.dpi_grammar.specs.Parser.{Reads, optional};
ghost use Rattle.c_tree.specs.declared.class.Class.TheVariants as classes;
ghost use Rattle.c_tree.specs.Classes.{is};
ghost use Rattle.c_parse.specs.Front as front;
ghost use Rattle.c_parse.specs.ReadingDeclarations as spec;

use crate::front::begins_size;
use c_cursor::{Cursor, name, number};
use c_tree::{Array, Class, Number, ParamArray, Size};
use dpi_grammar::Stop;
use std::alloc::Global;

/// A number in parentheses, with the number of the `(`.
// "(" number ")"
#[tactic(auto, unfolding(crate::specs::ReadingDeclarations::argument))]
fn argument(alloc: Global, tokens: &mut Cursor<'_>) -> Result<(u32, Number), Stop>
    ensures { Reads (spec.argument tokens.old) result tokens.new }
{
    let token = tokens.place();
    tokens.expect(Class::OpenParen)?;
    let number = number(alloc, tokens)?;
    tokens.expect(Class::CloseParen)?;
    Ok((token, number))
}

fn optional_argument(alloc: Global, tokens: &mut Cursor<'_>) -> Result<Option<(u32, Number)>, Stop>
    ensures { Reads (optional (is classes.OpenParen) spec.argument tokens.old) result tokens.new }
{
    if !tokens.sees(Class::OpenParen) {
        return Ok(None);
    }
    Ok(Some(argument(alloc, tokens)?))
}

/// A size that begins with a name.
// id ("(" number ")")?
#[tactic(auto, unfolding(crate::specs::ReadingDeclarations::named_size))]
fn named_size(alloc: Global, tokens: &mut Cursor<'_>) -> Result<Size, Stop>
    ensures { Reads (spec.named_size tokens.old) result tokens.new }
{
    let name = name(alloc, tokens)?;
    Ok(match optional_argument(alloc, tokens)? {
        None => Size::Name(name),
        Some((token, number)) => Size::Call(name, token, number),
    })
}

/// A size.
// size = number | id ("(" number ")")?
fn size(alloc: Global, tokens: &mut Cursor<'_>) -> Result<Size, Stop>
    ensures { Reads (spec.size tokens.old) result tokens.new }
{
    if tokens.sees(Class::Number) {
        return Ok(Size::Number(number(alloc, tokens)?));
    }
    named_size(alloc, tokens)
}

fn optional_size(alloc: Global, tokens: &mut Cursor<'_>) -> Result<Option<Size>, Stop>
    ensures { Reads (optional front.begins_size spec.size tokens.old) result tokens.new }
{
    if !begins_size(tokens) {
        return Ok(None);
    }
    Ok(Some(size(alloc, tokens)?))
}

/// The size of a variable that is an array.
// "[" size "]"
#[tactic(auto, unfolding(crate::specs::ReadingDeclarations::array))]
fn array(alloc: Global, tokens: &mut Cursor<'_>) -> Result<Array, Stop>
    ensures { Reads (spec.array tokens.old) result tokens.new }
{
    let token = tokens.place();
    tokens.expect(Class::OpenBracket)?;
    let size = size(alloc, tokens)?;
    tokens.expect(Class::CloseBracket)?;
    Ok(Array { token, size })
}

/// The size of a variable, where it is an array.
// ("[" size "]")?
pub fn optional_array(alloc: Global, tokens: &mut Cursor<'_>) -> Result<Option<Array>, Stop>
    ensures { Reads (optional (is classes.OpenBracket) spec.array tokens.old) result tokens.new }
{
    if !tokens.sees(Class::OpenBracket) {
        return Ok(None);
    }
    Ok(Some(array(alloc, tokens)?))
}

/// The array that a parameter is written as (6.7.6.3).
// "[" size? "]"
#[tactic(auto, unfolding(crate::specs::ReadingDeclarations::param_array))]
fn param_array(alloc: Global, tokens: &mut Cursor<'_>) -> Result<ParamArray, Stop>
    ensures { Reads (spec.param_array tokens.old) result tokens.new }
{
    let token = tokens.place();
    tokens.expect(Class::OpenBracket)?;
    let size = optional_size(alloc, tokens)?;
    tokens.expect(Class::CloseBracket)?;
    Ok(ParamArray { token, size })
}

/// The array that a parameter is written as, where it is one.
// ("[" size? "]")?
pub fn optional_param_array(
    alloc: Global,
    tokens: &mut Cursor<'_>,
) -> Result<Option<ParamArray>, Stop>
    ensures { Reads (optional (is classes.OpenBracket) spec.param_array tokens.old) result tokens.new }
{
    if !tokens.sees(Class::OpenBracket) {
        return Ok(None);
    }
    Ok(Some(param_array(alloc, tokens)?))
}
