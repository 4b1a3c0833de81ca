//! Which bytes belong together.

ghost use Rattle.std.specs.Prelude.{◌≡◌, ◌≤◌, ◌||◌, not, length, drop, slice_index};
ghost use Rattle.std.specs.List.{prefix_len};
ghost use Rattle.dpi_lex.specs.Bytes as spec;
ghost use Rattle.dpi_lex.specs.Place.{is_line_feed};

use crate::language::Language;

pub(crate) fn is_blank(b: u8) -> bool
    ensures { result ≡ spec.is_blank b }
{
    b == b' ' || b == b'\t' || b == b'\r'
}

pub(crate) fn is_space(b: u8) -> bool
    ensures { result ≡ (spec.is_blank b || is_line_feed b) }
{
    is_blank(b) || b == b'\n'
}

pub(crate) fn is_digit(b: u8) -> bool
    ensures { result ≡ spec.is_digit b }
{
    b'0' <= b && b <= b'9'
}

pub(crate) fn is_letter(b: u8) -> bool
    ensures { result ≡ spec.is_letter b }
{
    b.is_ascii_alphabetic()
}

pub(crate) fn is_name_start(b: u8) -> bool
    ensures { result ≡ spec.is_name_start b }
{
    is_letter(b) || b == b'_'
}

/// Whether a name of the language goes on with the byte.
pub(crate) fn is_name_byte(language: Language, b: u8) -> bool
    ensures { result ≡ spec.is_name_byte language b }
{
    match language {
        Language::SystemVerilog => is_name_start(b) || is_digit(b) || b == b'$',
        Language::C => is_name_start(b) || is_digit(b),
    }
}

/// Whether the byte may follow a backslash of the language.
pub(crate) fn is_escape(language: Language, b: u8) -> bool
    ensures { result ≡ spec.is_escape language b }
{
    match language {
        Language::SystemVerilog => b == b'n' || b == b't' || b == b'\\' || b == b'"',
        Language::C => {
            b == b'n' || b == b't' || b == b'\\' || b == b'\'' || b == b'"' || b == b'0'
        }
    }
}

/// The byte of that number, from 0; 0 past the end.
pub(crate) fn byte_at(bytes: &[u8], i: usize) -> u8
    ensures { result ≡ slice_index bytes.now i }
{
    if i < bytes.len() { bytes[i] } else { 0 }
}

/// The bytes from a place on, at most to the end.
pub(crate) fn bytes_from(bytes: &[u8], place: usize) -> &[u8]
    ensures { result.now ≡ drop place bytes.now }
{
    if place < bytes.len() {
        &bytes[place..]
    } else {
        &bytes[bytes.len()..]
    }
}

/// How many bytes at the front belong to a name.
pub(crate) fn name_len(language: Language, rest: &[u8]) -> usize
    ensures run { result ≡ prefix_len (spec.is_name_byte language) rest.now }
    ensures within { result ≤ length rest.now }
{
    rest.iter()
        .take_while(|b| is_name_byte(language, **b))
        .count()
}

/// How many blanks stand at the front.
pub(crate) fn blanks_len(rest: &[u8]) -> usize
    ensures run { result ≡ prefix_len spec.is_blank rest.now }
    ensures within { result ≤ length rest.now }
{
    rest.iter().take_while(|b| is_blank(**b)).count()
}

/// How many bytes the line has from the front on, without the line feed.
pub(crate) fn line_len(rest: &[u8]) -> usize
    ensures run { result ≡ prefix_len (λ b. not (is_line_feed b)) rest.now }
    ensures within { result ≤ length rest.now }
{
    rest.iter().take_while(|b| **b != b'\n').count()
}
