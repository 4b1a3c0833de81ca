//! Imports (IEEE 1800-2017, 35.5.4).

ghost use Rattle.dpi_grammar.specs.Parser.{Reads};
ghost use Rattle.sv_parse.specs.Headers as spec;

use crate::headers::outcome;
use crate::import_formals::optional_import_formals;
use dpi_grammar::Stop;
use std::alloc::Global;
use sv_cursor::{Cursor, name, text};
use sv_tree::{Class, Import, ImportKind, Name, Property, Trait};

/// The word of a property.
fn trait_word(tokens: &mut Cursor<'_>) -> Result<Property, Stop>
    ensures { Reads (spec.trait_word tokens.old) result tokens.new }
{
    match Property::of(tokens.class()) {
        Some(property) => {
            tokens.skip();
            Ok(property)
        }
        None => Err(tokens.refuse()),
    }
}

/// A property of an import (35.5.2, 35.5.3).
// "context" | "pure"
#[tactic(auto, unfolding(crate::specs::Headers::property))]
fn property(tokens: &mut Cursor<'_>) -> Result<Trait, Stop>
    ensures { Reads (spec.property tokens.old) result tokens.new }
{
    let token = tokens.place();
    let property = trait_word(tokens)?;
    Ok(Trait { token, property })
}

/// A property where one begins.
fn optional_property(tokens: &mut Cursor<'_>) -> Result<Option<Trait>, Stop>
    ensures { Reads (spec.optional_property tokens.old) result tokens.new }
{
    if Property::of(tokens.class()).is_none() {
        return Ok(None);
    }
    Ok(Some(property(tokens)?))
}

/// The name in C and the `=` behind it.
// name "="
#[tactic(auto, unfolding(crate::specs::Headers::c_name))]
fn c_name(alloc: Global, tokens: &mut Cursor<'_>) -> Result<Name, Stop>
    ensures { Reads (spec.c_name tokens.old) result tokens.new }
{
    let name = name(alloc, tokens)?;
    tokens.expect(Class::Assign)?;
    Ok(name)
}

/// The name in C, where a name comes next.
pub(crate) fn optional_c_name(alloc: Global, tokens: &mut Cursor<'_>) -> Result<Option<Name>, Stop>
    ensures { Reads (spec.optional_c_name tokens.old) result tokens.new }
{
    if !tokens.sees(Class::Name) {
        return Ok(None);
    }
    Ok(Some(c_name(alloc, tokens)?))
}

/// What is imported, up to its name.
// "function" (type | "void") | "task"
#[tactic(auto, unfolding(crate::specs::Headers::import_kind, crate::specs::Headers::import_function, crate::specs::Headers::import_task))]
fn import_kind(alloc: Global, tokens: &mut Cursor<'_>) -> Result<ImportKind, Stop>
    ensures { Reads (spec.import_kind tokens.old) result tokens.new }
{
    let token = tokens.place();
    if tokens.sees(Class::Task) {
        tokens.expect(Class::Task)?;
        return Ok(ImportKind::Task(token));
    }
    tokens.expect(Class::Function)?;
    let outcome = outcome(alloc, tokens)?;
    Ok(ImportKind::Function(token, outcome))
}

/// An import.
// import = "import" string ("context" | "pure")? (name "=")?
//          ("function" (type | "void") | "task") name ("(" (import_formal,+)? ")")? ";"
#[tactic(auto, unfolding(crate::specs::Headers::import))]
pub(crate) fn import(alloc: Global, tokens: &mut Cursor<'_>) -> Result<Import, Stop>
    ensures { Reads (spec.import tokens.old) result tokens.new }
{
    let token = tokens.place();
    tokens.expect(Class::Import)?;
    let text = text(alloc, tokens)?;
    let property = optional_property(tokens)?;
    let c_name = optional_c_name(alloc, tokens)?;
    let kind = import_kind(alloc, tokens)?;
    let name = name(alloc, tokens)?;
    let formals = optional_import_formals(alloc, tokens)?;
    tokens.expect(Class::Semicolon)?;
    Ok(Import {
        token,
        text,
        property,
        c_name,
        kind,
        name,
        formals,
    })
}
