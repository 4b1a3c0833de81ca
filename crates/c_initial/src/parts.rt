//! What an initialiser is, by its form and by what its names mean (ISO C 6.6 and 6.7.9).
ghost use Rattle.std.specs.Prelude.{◌≡◌};
ghost use Rattle.dpi_rules.specs.Least.{noted};
ghost use Rattle.c_initial.specs.Parts as spec;

use c_tree::UnaryOperator;
use c_typing::Place;
use dpi_rules::{Violation, note};

/// What a part of an initialiser is. It is so whether or not the part holds a violation.
#[derive(Clone, Copy, Debug, PartialEq, Eq)]
pub enum Part {
    /// One number token.
    Token,
    /// Another number: a character, a define, a constant of `svdpi.h`, or a number behind signs or in
    /// parentheses.
    Number,
    /// A string, `NULL`, or the address of an object that lasts.
    Fixed,
    /// The name of an object that lasts, static or at file scope, and is no array.
    Object,
    /// The name of an array that lasts.
    Array,
    /// A cell of an array that lasts.
    Element,
    /// A name that isn't known.
    Unknown,
    /// Anything else.
    Other,
}

/// A part in parentheses.
pub fn grouped(part: Part) -> Part
    ensures { result ≡ spec.grouped part }
{
    match part {
        Part::Token => Part::Number,
        other => other,
    }
}

fn signed(part: Part) -> Part
    ensures { result ≡ spec.signed part }
{
    match part {
        Part::Token | Part::Number => Part::Number,
        _ => Part::Other,
    }
}

fn addressed(part: Part) -> Part
    ensures { result ≡ spec.addressed part }
{
    match part {
        Part::Object | Part::Element | Part::Unknown => Part::Fixed,
        _ => Part::Other,
    }
}

/// A part behind one prefix: a number behind `+` or `-` is one, and what lasts has an address. A cast
/// and every other operator make an `Other`.
pub fn prefixed(operator: UnaryOperator, part: Part) -> Part
    ensures { result ≡ spec.prefixed operator part }
{
    match operator {
        UnaryOperator::Plus | UnaryOperator::Minus => signed(part),
        UnaryOperator::And => addressed(part),
        _ => Part::Other,
    }
}

fn is_number(part: Part) -> bool
    ensures { result ≡ spec.is_number part }
{
    matches!(part, Part::Token | Part::Number)
}

fn element(part: Part) -> Part
    ensures { result ≡ spec.element part }
{
    match part {
        Part::Array | Part::Unknown => Part::Element,
        _ => Part::Other,
    }
}

/// A part with an index behind it: a cell, where an array stands before a number. Every other suffix
/// makes an `Other`.
pub fn indexed(part: Part, index: Part) -> Part
    ensures { result ≡ spec.indexed part index }
{
    if is_number(index) {
        element(part)
    } else {
        Part::Other
    }
}

/// A call, by whether the called name is `SV_PACKED_DATA_NELEMS`, and by its arguments: that macro
/// of one number token is a number.
pub fn called(counts_words: bool, arguments: &[Part]) -> Part
    ensures { result ≡ spec.called counts_words arguments.now }
{
    match arguments {
        [Part::Token] if counts_words => Part::Number,
        _ => Part::Other,
    }
}

/// Whether an object that lasts may begin with the part: it is a number, a string, `NULL`, the address
/// of an object that lasts, or a name that isn't known, of which another rule speaks.
pub fn is_initial(part: Part) -> bool
    ensures { result ≡ spec.is_initial part }
{
    match part {
        Part::Token | Part::Number | Part::Fixed | Part::Array | Part::Unknown => true,
        Part::Object | Part::Element | Part::Other => false,
    }
}

/// Notes rule 19 at the `=` of a static or file-scope object that begins with such a part, where
/// that may not be (ISO C 6.7.9, paragraph 4).
pub fn note_static(place: Place, value: Part, found: &mut Option<Violation>)
    ensures { found.new ≡ noted found.old (spec.static_violations place value) }
{
    if !is_initial(value) {
        let violation = Violation {
            file: place.file,
            token: place.token,
            rule: 19,
        };
        note(found, violation);
    }
}
