//! Defines of C (ISO C, 6.10.3).

ghost use Rattle.std.specs.Prelude.{◌≡◌, ◌≤◌, length, drop};
ghost use Rattle.std.specs.List.{prefix_len};
ghost use Rattle.dpi_lex.specs.declared.language.Language.TheVariants.{C};
ghost use Rattle.dpi_lex.specs.Bytes as bytes_spec;
ghost use Rattle.dpi_lex.specs.Define as lex;
ghost use Rattle.dpi_literal.specs.Constants as spec;

use crate::bytes::{byte_at, bytes_from, is_digit};
use crate::c_constants::{CConstant, c_number, number_value};
use crate::number_type::NumberType;

fn is_blank(b: u8) -> bool
    ensures { result ≡ bytes_spec.is_blank b }
{
    b == b' ' || b == b'\t' || b == b'\r'
}

/// How many blanks stand at the front.
fn blanks_len(rest: &[u8]) -> usize
    ensures run { result ≡ prefix_len bytes_spec.is_blank rest.now }
    ensures within { result ≤ length rest.now }
{
    rest.iter().take_while(|b| is_blank(**b)).count()
}

/// Whether a name of C goes on with the byte.
fn is_name_byte(b: u8) -> bool
    ensures { result ≡ bytes_spec.is_name_byte C b }
{
    b.is_ascii_alphabetic() || b == b'_' || is_digit(b)
}

/// How many bytes at the front belong to a name.
fn name_len(rest: &[u8]) -> usize
    ensures run { result ≡ prefix_len (bytes_spec.is_name_byte C) rest.now }
    ensures within { result ≤ length rest.now }
{
    rest.iter().take_while(|b| is_name_byte(**b)).count()
}

/// A define from its name on.
fn from_name(bytes: &[u8]) -> &[u8]
    ensures { result.now ≡ lex.from_name bytes.now }
{
    let rest = bytes_from(bytes, 7);
    bytes_from(rest, blanks_len(rest))
}

/// A define from its value on.
fn from_value(bytes: &[u8]) -> &[u8]
    ensures { result.now ≡ lex.from_value bytes.now }
{
    let name = from_name(bytes);
    let rest = bytes_from(name, name_len(name));
    bytes_from(rest, blanks_len(rest))
}

/// The name of a define (ISO C 6.10.3).
pub fn c_define_name(bytes: &[u8]) -> &[u8]
    ensures { result.now ≡ lex.define_name bytes.now }
{
    let name = from_name(bytes);
    &name[..name_len(name)]
}

/// `-` of a value in its type: an unsigned type counts on from its greatest value (ISO C 6.2.5,
/// paragraph 9).
fn negated(of: NumberType, value: u64) -> i128
    ensures { result ≡ spec.negated of value }
{
    if of.is_signed() || value == 0 {
        -(value as i128)
    } else {
        of.greatest() as i128 + 1 - value as i128
    }
}

/// The number of a define, with its type, and `-` of it where a `-` stands before it (ISO C 6.4.4.1
/// and 6.5.3.3).
pub fn c_define_value(bytes: &[u8]) -> CConstant
    ensures { result ≡ spec.define_value bytes.now }
{
    let given = from_value(bytes);
    if byte_at(given, 0) != b'-' {
        return c_number(given);
    }
    let digits = bytes_from(given, 1);
    let of = c_number(digits).of;
    CConstant {
        of,
        value: negated(of, number_value(digits)),
    }
}
