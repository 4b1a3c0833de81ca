//! Types and dimensions of formals of imports (IEEE 1800-2017, 35.5.6).

ghost use Rattle.std.specs.Prelude.{◌≡◌};
ghost use Rattle.dpi_grammar.specs.Parser.{Reads};
ghost use Rattle.sv_types.specs.Reading as spec;

use crate::data_types::{
    begins_dimension, begins_vector, optional_sign, plain_type, range_from, vector_kind,
};
use crate::unpacked::dimension_from;
use dpi_grammar::Stop;
use sqlite_items::Items;
use std::alloc::Global;
use sv_cursor::Cursor;
use sv_tree::{Class, DataType, ImportDimension, ImportType, Range, Sign, VectorKind};

/// What the brackets of a vector have.
#[derive(Drop)]
pub enum Brackets {
    /// Nothing; the number is that of the `[`.
    Empty(u32),
    /// Two bounds.
    Bounds(Range),
}

/// What brackets have behind the first, which has this number.
// "]" | bound ":" bound "]"
#[tactic(auto, unfolding(crate::specs::Reading::bracketed_from))]
fn bracketed_from(alloc: Global, tokens: &mut Cursor<'_>, token: u32) -> Result<Brackets, Stop>
    ensures { Reads (spec.bracketed_from token tokens.old) result tokens.new }
{
    if tokens.sees(Class::CloseBracket) {
        tokens.expect(Class::CloseBracket)?;
        return Ok(Brackets::Empty(token));
    }
    let range = range_from(alloc, tokens, token)?;
    Ok(Brackets::Bounds(range))
}

/// The brackets of a vector.
// "[" "]" | range
#[tactic(auto, unfolding(crate::specs::Reading::bracketed))]
fn bracketed(alloc: Global, tokens: &mut Cursor<'_>) -> Result<Brackets, Stop>
    ensures { Reads (spec.bracketed tokens.old) result tokens.new }
{
    let token = tokens.place();
    tokens.expect(Class::OpenBracket)?;
    bracketed_from(alloc, tokens, token)
}

/// The brackets of a vector where they begin.
fn optional_bracketed(alloc: Global, tokens: &mut Cursor<'_>) -> Result<Option<Brackets>, Stop>
    ensures { Reads (spec.optional_bracketed tokens.old) result tokens.new }
{
    if !begins_dimension(tokens) {
        return Ok(None);
    }
    Ok(Some(bracketed(alloc, tokens)?))
}

/// A vector type of an import, by what its brackets have.
fn import_type_of(
    token: u32,
    kind: VectorKind,
    sign: Option<Sign>,
    brackets: Option<Brackets>,
) -> ImportType
    ensures { result ≡ spec.import_type_of token kind sign brackets }
{
    match brackets {
        None => ImportType::Data(DataType::Vector(token, kind, sign, None)),
        Some(Brackets::Empty(open)) => ImportType::Unsized(token, kind, sign, open),
        Some(Brackets::Bounds(range)) => {
            ImportType::Data(DataType::Vector(token, kind, sign, Some(range)))
        }
    }
}

/// A vector type of an import.
// vec sign? ("[" "]" | range)?
#[tactic(auto, unfolding(crate::specs::Reading::import_vector))]
fn import_vector(alloc: Global, tokens: &mut Cursor<'_>) -> Result<ImportType, Stop>
    ensures { Reads (spec.import_vector tokens.old) result tokens.new }
{
    let token = tokens.place();
    let kind = vector_kind(tokens)?;
    let sign = optional_sign(tokens)?;
    let brackets = optional_bracketed(alloc, tokens)?;
    Ok(import_type_of(token, kind, sign, brackets))
}

/// A type of a formal of an import.
// itype = type | vec sign? "[" "]"
#[tactic(auto, unfolding(crate::specs::Reading::import_type))]
pub fn import_type(alloc: Global, tokens: &mut Cursor<'_>) -> Result<ImportType, Stop>
    ensures { Reads (spec.import_type tokens.old) result tokens.new }
{
    if begins_vector(tokens) {
        return import_vector(alloc, tokens);
    }
    let kind = plain_type(tokens)?;
    Ok(ImportType::Data(kind))
}

/// What a dimension of an import has behind its bracket, which has this number.
#[tactic(auto, unfolding(crate::specs::Reading::import_dimension_from))]
fn import_dimension_from(
    alloc: Global,
    tokens: &mut Cursor<'_>,
    token: u32,
) -> Result<ImportDimension, Stop>
    ensures { Reads (spec.import_dimension_from token tokens.old) result tokens.new }
{
    if tokens.sees(Class::CloseBracket) {
        tokens.expect(Class::CloseBracket)?;
        return Ok(ImportDimension::Unsized(token));
    }
    let dimension = dimension_from(alloc, tokens, token)?;
    Ok(ImportDimension::Sized(dimension))
}

/// A dimension of a formal of an import.
// idim = dim | "[" "]"
#[tactic(auto, unfolding(crate::specs::Reading::import_dimension))]
pub fn import_dimension(alloc: Global, tokens: &mut Cursor<'_>) -> Result<ImportDimension, Stop>
    ensures { Reads (spec.import_dimension tokens.old) result tokens.new }
{
    let token = tokens.place();
    tokens.expect(Class::OpenBracket)?;
    import_dimension_from(alloc, tokens, token)
}

/// Dimensions of a formal of an import for as long as one begins.
// idim*
pub fn import_dimensions(
    alloc: Global,
    tokens: &mut Cursor<'_>,
) -> Result<Items<ImportDimension>, Stop>
    ensures { Reads (spec.import_dimensions tokens.old) result tokens.new }
{
    let mut found = Items::new(alloc);
    for _turn in 0..tokens.left() {
        if !begins_dimension(tokens) {
            return Ok(found);
        }
        found.push(import_dimension(alloc, tokens)?)?;
    }
    Ok(found)
}
