//! Parameters of functions (ISO C 6.7.6.3).

ghost use Rattle.std.specs.Prelude.{◌≡◌, [], ◌∷◌};
ghost use Rattle.dpi_grammar.specs.Parser.{Reads, optional, more, listed, separated, ◌>>◌};
ghost use Rattle.c_tree.specs.declared.class.Class.TheVariants as classes;
ghost use Rattle.c_tree.specs.Classes.{is};
ghost use Rattle.c_tree.specs.Declarations as tree;
ghost use Rattle.c_cursor.specs.Reading as leaves;
ghost use Rattle.c_types.specs.Reading as types;
ghost use Rattle.c_parse.specs.ReadingDeclarations as spec;

use crate::sizes::optional_param_array;
use c_cursor::{Cursor, name};
use c_tree::{BaseWord, Class, Name, Param, Params};
use c_types::{begins_type, stars, type_name};
use dpi_grammar::Stop;
use sqlite_items::Items;
use std::alloc::Global;

// id?
fn optional_name(alloc: Global, tokens: &mut Cursor<'_>) -> Result<Option<Name>, Stop>
    ensures { Reads (optional (is classes.Name) leaves.name tokens.old) result tokens.new }
{
    if !tokens.sees(Class::Name) {
        return Ok(None);
    }
    Ok(Some(name(alloc, tokens)?))
}

/// A parameter.
// param = type stars id? ("[" size? "]")?
#[tactic(auto, unfolding(crate::specs::ReadingDeclarations::param))]
fn param(alloc: Global, tokens: &mut Cursor<'_>) -> Result<Param, Stop>
    ensures { Reads (spec.param tokens.old) result tokens.new }
{
    let kind = type_name(alloc, tokens)?;
    let stars = stars(alloc, tokens)?;
    let name = optional_name(alloc, tokens)?;
    let array = optional_param_array(alloc, tokens)?;
    Ok(Param {
        kind,
        stars,
        name,
        array,
    })
}

// "," param
fn next_param(alloc: Global, tokens: &mut Cursor<'_>) -> Result<Param, Stop>
    ensures { Reads (spec.next_param tokens.old) result tokens.new }
{
    tokens.expect(Class::Comma)?;
    param(alloc, tokens)
}

/// Parameters, each behind a comma, behind those found so far.
// ("," param)*
fn more_params(
    alloc: Global,
    tokens: &mut Cursor<'_>,
    mut found: Items<Param>,
) -> Result<Items<Param>, Stop>
    ensures { Reads (more (is classes.Comma) spec.next_param found tokens.old) result tokens.new }
{
    for _turn in 0..tokens.left() {
        if !tokens.sees(Class::Comma) {
            return Ok(found);
        }
        found.push(next_param(alloc, tokens)?)?;
    }
    Ok(found)
}

// param,+
fn params(alloc: Global, tokens: &mut Cursor<'_>) -> Result<Items<Param>, Stop>
    ensures { Reads (separated (is classes.Comma) spec.param tokens.old) result tokens.new }
{
    let mut found = Items::new(alloc);
    found.push(param(alloc, tokens)?)?;
    more_params(alloc, tokens, found)
}

// (param,+)?
fn listed_params(alloc: Global, tokens: &mut Cursor<'_>) -> Result<Items<Param>, Stop>
    ensures { Reads (listed types.begins_type (is classes.Comma) spec.param tokens.old) result tokens.new }
{
    if !begins_type(tokens) {
        return Ok(Items::new(alloc));
    }
    params(alloc, tokens)
}

/// Whether the parameter is the word `void` alone.
fn is_only_void(param: &Param) -> bool
    ensures { result ≡ tree.is_only_void (param.now ∷ []) }
{
    param.kind.before.is_empty()
        && matches!(param.kind.base.as_slice(), [BaseWord::Void])
        && param.kind.behind.is_empty()
        && param.stars.is_empty()
        && param.name.is_none()
        && param.array.is_none()
}

/// The parameters that a list is: one that is the word `void` alone stands for none.
fn params_of(found: Items<Param>) -> Params
    ensures { result ≡ spec.params_of found }
{
    match found.as_slice() {
        [param] if is_only_void(param) => Params::Void(param.kind.token),
        _ => Params::List(found),
    }
}

/// The parameters of a function.
// params = "void" | (param,+)?
pub fn parameters(alloc: Global, tokens: &mut Cursor<'_>) -> Result<Params, Stop>
    ensures { Reads (spec.parameters tokens.old) result tokens.new }
{
    Ok(params_of(listed_params(alloc, tokens)?))
}
