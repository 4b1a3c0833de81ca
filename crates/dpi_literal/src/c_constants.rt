//! Numbers and characters of C (ISO C, 6.4.4.1 and 6.4.4.4).

ghost use Rattle.std.specs.Prelude.{◌≡◌, ◌≤◌, length};
ghost use Rattle.std.specs.List.{prefix_len, list_any};
ghost use Rattle.dpi_lex.specs.Bytes.{is_among};
ghost use Rattle.dpi_lex.specs.CNumbers as lex;
ghost use Rattle.dpi_literal.specs.Constants as spec;

use crate::bytes::{byte_at, bytes_from, is_digit};
use crate::digits::{is_digit_in, value_up_to};
use crate::number_type::NumberType;
use crate::texts::escaped;

/// A constant of C: its type and its value in that type.
#[derive(Clone, Copy, Debug, Drop, PartialEq, Eq)]
pub struct CConstant {
    /// Its type.
    pub of: NumberType,
    /// Its value.
    pub value: i128,
}

/// The base of a number.
fn base_of(number: &[u8]) -> u8
    ensures { result ≡ lex.base_of_c number.now }
{
    if byte_at(number, 0) != b'0' {
        10
    } else if byte_at(number, 1) == b'x' || byte_at(number, 1) == b'X' {
        16
    } else {
        8
    }
}

/// A number without its `0x`.
fn without_prefix(number: &[u8]) -> &[u8]
    ensures { result.now ≡ lex.without_prefix number.now }
{
    if base_of(number) == 16 {
        bytes_from(number, 2)
    } else {
        number
    }
}

/// Whether the byte may stand among the digits of a number of the base.
fn is_digit_of(base: u8, b: u8) -> bool
    ensures { result ≡ lex.is_digit_of base b }
{
    if base == 16 {
        is_digit_in(16, b)
    } else {
        is_digit(b)
    }
}

/// How many digits stand at the front of a number of the base.
fn digits_len(base: u8, rest: &[u8]) -> usize
    ensures run { result ≡ prefix_len (lex.is_digit_of base) rest.now }
    ensures within { result ≤ length rest.now }
{
    rest.iter().take_while(|b| is_digit_of(base, **b)).count()
}

/// The digits of a number.
fn digits_of(number: &[u8]) -> &[u8]
    ensures { result.now ≡ lex.digits_of number.now }
{
    let rest = without_prefix(number);
    &rest[..digits_len(base_of(number), rest)]
}

/// What follows the digits of a number.
fn suffix_of(number: &[u8]) -> &[u8]
    ensures { result.now ≡ lex.suffix_of number.now }
{
    let rest = without_prefix(number);
    bytes_from(rest, digits_len(base_of(number), rest))
}

fn has_u(suffix: &[u8]) -> bool
    ensures { result ≡ spec.has_u suffix.now }
{
    suffix.iter().any(|b| *b == b'u' || *b == b'U')
}

fn has_l(suffix: &[u8]) -> bool
    ensures { result ≡ spec.has_l suffix.now }
{
    suffix.iter().any(|b| *b == b'l' || *b == b'L')
}

/// Whether a number of the base and the suffix may have the type.
fn is_open_to(base: u8, suffix: &[u8], of: NumberType) -> bool
    ensures { result ≡ spec.is_open_to base suffix.now of }
{
    if base == 10 && suffix.is_empty() {
        return of.is_signed();
    }
    (!has_u(suffix) || !of.is_signed()) && (!has_l(suffix) || of.is_long())
}

/// Whether a number of the base, the suffix and the value may have the type.
fn is_of(base: u8, suffix: &[u8], value: u64, of: NumberType) -> bool
    ensures { result ≡ spec.is_of base suffix.now value of }
{
    is_open_to(base, suffix, of) && value <= of.greatest()
}

/// The first type that is open to a number of the base and the suffix and holds its value.
fn type_by(base: u8, suffix: &[u8], value: u64) -> NumberType
    ensures { result ≡ spec.type_by base suffix.now value }
{
    if is_of(base, suffix, value, NumberType::Int) {
        NumberType::Int
    } else if is_of(base, suffix, value, NumberType::UnsignedInt) {
        NumberType::UnsignedInt
    } else if is_of(base, suffix, value, NumberType::LongLong) {
        NumberType::LongLong
    } else {
        NumberType::UnsignedLongLong
    }
}

/// The value of a number's digits.
pub(crate) fn number_value(number: &[u8]) -> u64
    ensures { result ≡ spec.number_value number.now }
{
    value_up_to(u64::MAX, base_of(number), digits_of(number))
}

/// A number with the first type that holds it: of `int` and `long long` where it's decimal and has
/// no suffix, else of these and their unsigned twins, with a `u` of the unsigned ones alone and with
/// `ll` of those of 64 bits alone (ISO C 6.4.4.1).
pub fn c_number(bytes: &[u8]) -> CConstant
    ensures { result ≡ spec.number_of bytes.now }
{
    let value = number_value(bytes);
    CConstant {
        of: type_by(base_of(bytes), suffix_of(bytes), value),
        value: value as i128,
    }
}

/// A character, which is an `int`: its byte as a `char`, so a byte past 127 is negative
/// (ISO C 6.4.4.4).
pub fn c_character(bytes: &[u8]) -> CConstant
    ensures { result ≡ spec.character_of bytes.now }
{
    let byte = if byte_at(bytes, 1) == b'\\' {
        escaped(byte_at(bytes, 2))
    } else {
        byte_at(bytes, 1)
    };
    let value = if byte < 128 {
        byte as i128
    } else {
        byte as i128 - 256
    };
    CConstant {
        of: NumberType::Int,
        value,
    }
}
