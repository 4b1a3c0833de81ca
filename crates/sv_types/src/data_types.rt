//! Types (IEEE 1800-2017, 6).

ghost use Rattle.std.specs.Prelude.{◌≡◌};
ghost use Rattle.dpi_grammar.specs.Parser.{Reads, first};
ghost use Rattle.sv_types.specs.Reading as spec;

use dpi_grammar::Stop;
use std::alloc::Global;
use sv_cursor::{Cursor, bound};
use sv_tree::{Class, DataType, Range, Sign, Signing, VectorKind, WholeKind};

/// Whether a type begins here.
pub fn begins_data_type(tokens: &Cursor<'_>) -> bool
    ensures { result ≡ spec.begins_data_type (first tokens.now.rest) }
{
    begins_vector(tokens)
        || begins_whole(tokens)
        || tokens.sees(Class::Integer)
        || tokens.sees(Class::String)
        || tokens.sees(Class::Chandle)
}

/// Whether a dimension begins here.
pub fn begins_dimension(tokens: &Cursor<'_>) -> bool
    ensures { result ≡ spec.begins_dimension (first tokens.now.rest) }
{
    tokens.sees(Class::OpenBracket)
}

/// Whether a vector type begins here.
pub(crate) fn begins_vector(tokens: &Cursor<'_>) -> bool
    ensures { result ≡ spec.begins_vector (first tokens.now.rest) }
{
    VectorKind::of(tokens.class()).is_some()
}

/// Whether a type of a fixed width begins here.
fn begins_whole(tokens: &Cursor<'_>) -> bool
    ensures { result ≡ spec.begins_whole (first tokens.now.rest) }
{
    WholeKind::of(tokens.class()).is_some()
}

/// The word of a vector type.
pub(crate) fn vector_kind(tokens: &mut Cursor<'_>) -> Result<VectorKind, Stop>
    ensures { Reads (spec.vector_kind tokens.old) result tokens.new }
{
    match VectorKind::of(tokens.class()) {
        Some(kind) => {
            tokens.skip();
            Ok(kind)
        }
        None => Err(tokens.refuse()),
    }
}

/// The word of a type of a fixed width.
fn whole_kind(tokens: &mut Cursor<'_>) -> Result<WholeKind, Stop>
    ensures { Reads (spec.whole_kind tokens.old) result tokens.new }
{
    match WholeKind::of(tokens.class()) {
        Some(kind) => {
            tokens.skip();
            Ok(kind)
        }
        None => Err(tokens.refuse()),
    }
}

/// The word of a signing.
fn signing(tokens: &mut Cursor<'_>) -> Result<Signing, Stop>
    ensures { Reads (spec.signing tokens.old) result tokens.new }
{
    match Signing::of(tokens.class()) {
        Some(signing) => {
            tokens.skip();
            Ok(signing)
        }
        None => Err(tokens.refuse()),
    }
}

/// A signing (6.11.3).
// sign = "signed" | "unsigned"
#[tactic(auto, unfolding(crate::specs::Reading::sign))]
fn sign(tokens: &mut Cursor<'_>) -> Result<Sign, Stop>
    ensures { Reads (spec.sign tokens.old) result tokens.new }
{
    let token = tokens.place();
    let signing = signing(tokens)?;
    Ok(Sign { token, signing })
}

/// A signing where one begins.
pub(crate) fn optional_sign(tokens: &mut Cursor<'_>) -> Result<Option<Sign>, Stop>
    ensures { Reads (spec.optional_sign tokens.old) result tokens.new }
{
    if Signing::of(tokens.class()).is_none() {
        return Ok(None);
    }
    Ok(Some(sign(tokens)?))
}

/// The bounds of a range behind its bracket, which has this number.
#[tactic(auto, unfolding(crate::specs::Reading::range_from))]
pub(crate) fn range_from(alloc: Global, tokens: &mut Cursor<'_>, token: u32) -> Result<Range, Stop>
    ensures { Reads (spec.range_from token tokens.old) result tokens.new }
{
    let left = bound(alloc, tokens)?;
    tokens.expect(Class::Colon)?;
    let right = bound(alloc, tokens)?;
    tokens.expect(Class::CloseBracket)?;
    Ok(Range { token, left, right })
}

/// The range of a vector (7.4.1).
// range = "[" bound ":" bound "]"
#[tactic(auto, unfolding(crate::specs::Reading::range))]
fn range(alloc: Global, tokens: &mut Cursor<'_>) -> Result<Range, Stop>
    ensures { Reads (spec.range tokens.old) result tokens.new }
{
    let token = tokens.place();
    tokens.expect(Class::OpenBracket)?;
    range_from(alloc, tokens, token)
}

/// A range where one begins.
fn optional_range(alloc: Global, tokens: &mut Cursor<'_>) -> Result<Option<Range>, Stop>
    ensures { Reads (spec.optional_range tokens.old) result tokens.new }
{
    if !begins_dimension(tokens) {
        return Ok(None);
    }
    Ok(Some(range(alloc, tokens)?))
}

/// A vector type (6.9).
// vec sign? range?
#[tactic(auto, unfolding(crate::specs::Reading::vector))]
fn vector(alloc: Global, tokens: &mut Cursor<'_>) -> Result<DataType, Stop>
    ensures { Reads (spec.vector tokens.old) result tokens.new }
{
    let token = tokens.place();
    let kind = vector_kind(tokens)?;
    let sign = optional_sign(tokens)?;
    let range = optional_range(alloc, tokens)?;
    Ok(DataType::Vector(token, kind, sign, range))
}

/// An integer type of a fixed width (6.11).
// whole sign?
#[tactic(auto, unfolding(crate::specs::Reading::whole))]
fn whole(tokens: &mut Cursor<'_>) -> Result<DataType, Stop>
    ensures { Reads (spec.whole tokens.old) result tokens.new }
{
    let token = tokens.place();
    let kind = whole_kind(tokens)?;
    let sign = optional_sign(tokens)?;
    Ok(DataType::Whole(token, kind, sign))
}

/// A type that is no vector.
// whole sign? | "integer" | "string" | "chandle"
#[tactic(auto, unfolding(crate::specs::Reading::plain_type, crate::specs::Reading::integer, crate::specs::Reading::string, crate::specs::Reading::chandle))]
pub(crate) fn plain_type(tokens: &mut Cursor<'_>) -> Result<DataType, Stop>
    ensures { Reads (spec.plain_type tokens.old) result tokens.new }
{
    if begins_whole(tokens) {
        return whole(tokens);
    }
    let token = tokens.place();
    if tokens.sees(Class::Integer) {
        tokens.skip();
        return Ok(DataType::Integer(token));
    }
    if tokens.sees(Class::String) {
        tokens.skip();
        return Ok(DataType::String(token));
    }
    tokens.expect(Class::Chandle)?;
    Ok(DataType::Chandle(token))
}

/// A type.
// type = vec sign? range? | whole sign? | "integer" | "string" | "chandle"
#[tactic(auto, unfolding(crate::specs::Reading::data_type))]
pub fn data_type(alloc: Global, tokens: &mut Cursor<'_>) -> Result<DataType, Stop>
    ensures { Reads (spec.data_type tokens.old) result tokens.new }
{
    if begins_vector(tokens) {
        vector(alloc, tokens)
    } else {
        plain_type(tokens)
    }
}
