//! Formals of imports (IEEE 1800-2017, 35.5.6).

ghost use Rattle.dpi_grammar.specs.Parser.{Reads};
ghost use Rattle.sv_parse.specs.Headers as spec;

use crate::formals::{begins_formal, optional_direction};
use dpi_grammar::Stop;
use sqlite_items::Items;
use std::alloc::Global;
use sv_cursor::{Cursor, name};
use sv_tree::{Class, ImportFormal, ImportType};
use sv_types::{begins_data_type, import_dimensions, import_type};

/// A type of a formal of an import, where one begins.
fn optional_import_type(alloc: Global, tokens: &mut Cursor<'_>) -> Result<Option<ImportType>, Stop>
    ensures { Reads (spec.optional_import_type tokens.old) result tokens.new }
{
    if !begins_data_type(tokens) {
        return Ok(None);
    }
    Ok(Some(import_type(alloc, tokens)?))
}

/// A formal of an import (35.5.6).
// import_formal = direction? import_type? name import_dimension*
#[tactic(auto, unfolding(crate::specs::Headers::import_formal))]
fn import_formal(alloc: Global, tokens: &mut Cursor<'_>) -> Result<ImportFormal, Stop>
    ensures { Reads (spec.import_formal tokens.old) result tokens.new }
{
    let way = optional_direction(tokens)?;
    let kind = optional_import_type(alloc, tokens)?;
    let name = name(alloc, tokens)?;
    let dimensions = import_dimensions(alloc, tokens)?;
    Ok(ImportFormal {
        way,
        kind,
        name,
        dimensions,
    })
}

// "," import_formal
fn next_import_formal(alloc: Global, tokens: &mut Cursor<'_>) -> Result<ImportFormal, Stop>
    ensures { Reads (spec.next_import_formal tokens.old) result tokens.new }
{
    tokens.expect(Class::Comma)?;
    import_formal(alloc, tokens)
}

/// Formals of an import, each behind a comma, behind those found so far.
// ("," import_formal)*
fn more_import_formals(
    alloc: Global,
    tokens: &mut Cursor<'_>,
    mut found: Items<ImportFormal>,
) -> Result<Items<ImportFormal>, Stop>
    ensures { Reads (spec.more_import_formals found tokens.old) result tokens.new }
{
    for _turn in 0..tokens.left() {
        if !tokens.sees(Class::Comma) {
            return Ok(found);
        }
        found.push(next_import_formal(alloc, tokens)?)?;
    }
    Ok(found)
}

// import_formal,+
fn some_import_formals(alloc: Global, tokens: &mut Cursor<'_>) -> Result<Items<ImportFormal>, Stop>
    ensures { Reads (spec.some_import_formals tokens.old) result tokens.new }
{
    let mut found = Items::new(alloc);
    found.push(import_formal(alloc, tokens)?)?;
    more_import_formals(alloc, tokens, found)
}

// (import_formal,+)?
fn listed_import_formals(
    alloc: Global,
    tokens: &mut Cursor<'_>,
) -> Result<Items<ImportFormal>, Stop>
    ensures { Reads (spec.listed_import_formals tokens.old) result tokens.new }
{
    if !begins_formal(tokens) {
        return Ok(Items::new(alloc));
    }
    some_import_formals(alloc, tokens)
}

/// The formals of an import, in their parentheses.
// "(" (import_formal,+)? ")"
#[tactic(auto, unfolding(crate::specs::Headers::import_formals))]
fn import_formals(alloc: Global, tokens: &mut Cursor<'_>) -> Result<Items<ImportFormal>, Stop>
    ensures { Reads (spec.import_formals tokens.old) result tokens.new }
{
    tokens.expect(Class::OpenParen)?;
    let formals = listed_import_formals(alloc, tokens)?;
    tokens.expect(Class::CloseParen)?;
    Ok(formals)
}

/// The formals of an import, where a `(` comes next.
pub(crate) fn optional_import_formals(
    alloc: Global,
    tokens: &mut Cursor<'_>,
) -> Result<Option<Items<ImportFormal>>, Stop>
    ensures { Reads (spec.optional_import_formals tokens.old) result tokens.new }
{
    if !tokens.sees(Class::OpenParen) {
        return Ok(None);
    }
    Ok(Some(import_formals(alloc, tokens)?))
}
