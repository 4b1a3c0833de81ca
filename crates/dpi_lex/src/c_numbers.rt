//! Numbers of C (ISO C, 6.4.4.1).

ghost use Rattle.std.specs.Prelude.{◌≡◌, ◌≤◌, ◌<◌, IsTrue, length, slice_index};
ghost use Rattle.std.specs.List.{list_all, prefix_len};
ghost use Rattle.dpi_lex.specs.Bytes.{is_digit};
ghost use Rattle.dpi_lex.specs.CNumbers as spec;
ghost use Rattle.dpi_lex.specs.Digits.{is_digit_in};
ghost use Rattle.dpi_lex.specs.Stretches.{longest_front, IsPlaced};

use crate::bytes::{byte_at, bytes_from, is_digit, is_letter};
use crate::digits::{is_at_most, is_digit_in, number_if};
use crate::form::Stretch;
use crate::listed::is_listed;

/// The suffixes of numbers.
const SUFFIXES: [&[u8]; 12] = [
    b"u", b"U", b"ll", b"LL", b"ull", b"uLL", b"Ull", b"ULL", b"llu", b"llU", b"LLu", b"LLU",
];

fn is_number_byte(b: u8) -> bool
    ensures { result ≡ spec.is_number_byte b }
{
    is_letter(b) || is_digit(b)
}

/// How many bytes at the front belong to a number.
pub(crate) fn number_len(rest: &[u8]) -> usize
    ensures run { result ≡ prefix_len spec.is_number_byte rest.now }
    ensures within { result ≤ length rest.now }
{
    rest.iter().take_while(|b| is_number_byte(**b)).count()
}

/// The base of the number.
fn base_of(number: &[u8]) -> u8
    ensures { result ≡ spec.base_of_c number.now }
{
    if byte_at(number, 0) != b'0' {
        10
    } else if byte_at(number, 1) == b'x' || byte_at(number, 1) == b'X' {
        16
    } else {
        8
    }
}

/// The number without its `0x`.
fn without_prefix(number: &[u8]) -> &[u8]
    ensures { result.now ≡ spec.without_prefix number.now }
{
    if base_of(number) == 16 {
        bytes_from(number, 2)
    } else {
        number
    }
}

/// Whether the byte may stand among the digits of a number of the base.
fn is_digit_of(base: u8, b: u8) -> bool
    ensures { result ≡ spec.is_digit_of base b }
{
    if base == 16 {
        is_digit_in(16, b)
    } else {
        is_digit(b)
    }
}

/// How many digits stand at the front of a number of the base.
fn digits_len(base: u8, rest: &[u8]) -> usize
    ensures run { result ≡ prefix_len (spec.is_digit_of base) rest.now }
    ensures within { result ≤ length rest.now }
{
    rest.iter().take_while(|b| is_digit_of(base, **b)).count()
}

fn are_digits_in(base: u8, digits: &[u8]) -> bool
    ensures { result ≡ list_all (is_digit_in base) digits.now }
{
    digits.iter().all(|b| is_digit_in(base, *b))
}

/// Whether the bytes are a suffix.
fn is_suffix(bytes: &[u8]) -> bool
    ensures { result ≡ spec.is_suffix bytes.now }
{
    bytes.is_empty() || is_listed(&SUFFIXES, bytes)
}

/// The greatest value that a number of the base and the suffix may have.
fn greatest(base: u8, suffix: &[u8]) -> u64
    ensures { result ≡ spec.greatest base suffix.now }
{
    if base == 10 && suffix.is_empty() {
        9_223_372_036_854_775_807
    } else {
        u64::MAX
    }
}

/// Whether the digits and the suffix are those of a number of the base.
fn is_number_of(base: u8, digits: &[u8], suffix: &[u8]) -> bool
    ensures { result ≡ spec.is_number_of base digits.now suffix.now }
{
    !digits.is_empty()
        && are_digits_in(base, digits)
        && is_suffix(suffix)
        && is_at_most(base, digits, greatest(base, suffix))
}

/// Whether the stretch is a number.
pub(crate) fn is_c_number(number: &[u8]) -> bool
    ensures { result ≡ spec.is_c_number number.now }
{
    let base = base_of(number);
    let rest = without_prefix(number);
    let len = digits_len(base, rest);
    is_number_of(base, &rest[..len], bytes_from(rest, len))
}

/// The number at the front of the bytes, which begin with a digit.
pub(crate) fn c_number(rest: &[u8]) -> Stretch
    requires some { 0 < length rest.now }
    requires starts { IsTrue (is_digit (slice_index rest.now 0)) }
    ensures stretch { result ≡ longest_front spec.c_number_form rest.now }
    ensures placed { IsPlaced result.form }
{
    let len = number_len(rest);
    let form = number_if(is_c_number(&rest[..len]));
    Stretch { form, len }
}
