//! Numbers of SystemVerilog (IEEE 1800-2017, 5.7.1).

ghost use Rattle.std.specs.Prelude.{◌≡◌, ◌≤◌, ◌<◌, ◌+◌, ◌&&◌, ◌||◌, IsTrue, IfSome, MatchOption};
ghost use Rattle.std.specs.Prelude.{length, slice_index};
ghost use Rattle.std.specs.List.{prefix_len, list_all, list_any};
ghost use Rattle.dpi_lex.specs.Bytes.{is_digit, is_underscore, is_apostrophe};
ghost use Rattle.dpi_lex.specs.Digits.{is_digit_in, number_if};
ghost use Rattle.dpi_lex.specs.Stretches.{longest_front, IsPlaced, IsLongest, HasNone};
ghost use Rattle.dpi_lex.specs.SvNumbers as spec;

use crate::bytes::{byte_at, bytes_from, is_digit, is_letter};
use crate::digits::{ends_in_digit, is_at_most, is_digit_in, number_if};
use crate::form::{Form, Stretch};

fn is_plain_byte(b: u8) -> bool
    ensures { result ≡ spec.is_plain_byte b }
{
    is_digit(b) || b == b'_'
}

/// How many bytes at the front belong to a plain number or a size.
fn plain_len(rest: &[u8]) -> usize
    ensures run { result ≡ prefix_len spec.is_plain_byte rest.now }
    ensures within { result ≤ length rest.now }
{
    rest.iter().take_while(|b| is_plain_byte(**b)).count()
}

/// The base of that letter; 0 for another byte.
fn base_of(b: u8) -> u8
    ensures { result ≡ spec.base_of b }
{
    match b {
        b'b' | b'B' => 2,
        b'o' | b'O' => 8,
        b'd' | b'D' => 10,
        b'h' | b'H' => 16,
        _ => 0,
    }
}

/// The bytes of a `'`, an `s` and a base, from the front; 0 where they aren't there.
fn base_len(rest: &[u8]) -> usize
    ensures len { result ≡ spec.base_len rest.now }
    ensures two { 0 < result → 1 < result }
    ensures within { result ≤ length rest.now }
{
    if byte_at(rest, 0) != b'\'' {
        0
    } else if base_of(byte_at(rest, 1)) > 0 {
        2
    } else if byte_at(rest, 1) == b's' && base_of(byte_at(rest, 2)) > 0 {
        3
    } else {
        0
    }
}

fn is_based_byte(b: u8) -> bool
    ensures { result ≡ spec.is_based_byte b }
{
    is_letter(b) || is_digit(b) || b == b'_' || b == b'?'
}

/// Whether the byte goes on a number of the base, behind its first digit.
fn goes_on(base: u8, b: u8) -> bool
    ensures { result ≡ spec.goes_on base b }
{
    is_based_byte(b) && !(base == 10 && b == b'?')
}

/// How many bytes at the front go on a number of the base.
fn goes_on_len(base: u8, rest: &[u8]) -> usize
    ensures run { result ≡ prefix_len (spec.goes_on base) rest.now }
    ensures within { result ≤ length rest.now }
{
    rest.iter().take_while(|b| goes_on(base, **b)).count()
}

/// How many bytes at the front belong to a number of the base.
fn based_len(base: u8, rest: &[u8]) -> usize
    ensures { spec.IsBasedRun base rest.now result }
{
    if !is_based_byte(byte_at(rest, 0)) {
        return 0;
    }
    1 + goes_on_len(base, bytes_from(rest, 1))
}

/// Whether the bytes are the size of a based number, which may be missing.
fn is_size(size: &[u8]) -> bool
    ensures { result ≡ spec.is_size size.now }
{
    if size.is_empty() {
        return true;
    }
    ends_in_digit(size) && !is_at_most(10, size, 0) && is_at_most(10, size, 1024)
}

fn is_four_state(b: u8) -> bool
    ensures { result ≡ spec.is_four_state b }
{
    b == b'x' || b == b'X' || b == b'z' || b == b'Z' || b == b'?'
}

/// How many of the bytes aren't a `_`.
fn given_len(digits: &[u8]) -> usize
    ensures { result ≡ spec.given_len digits.now }
{
    digits.iter().filter(|b| **b != b'_').count()
}

fn has_four_state(digits: &[u8]) -> bool
    ensures { result ≡ list_any spec.is_four_state digits.now }
{
    digits.iter().any(|b| is_four_state(*b))
}

fn has_decimal(digits: &[u8]) -> bool
    ensures { result ≡ list_any is_digit digits.now }
{
    digits.iter().any(|b| is_digit(*b))
}

fn are_plain_bytes(digits: &[u8]) -> bool
    ensures { result ≡ list_all spec.is_plain_byte digits.now }
{
    digits.iter().all(|b| is_plain_byte(*b))
}

/// Whether the bytes are the digits of a number in base 10.
fn are_decimal_digits(digits: &[u8]) -> bool
    ensures { result ≡ spec.are_decimal_digits digits.now }
{
    (given_len(digits) == 1 && has_four_state(digits))
        || (has_decimal(digits) && are_plain_bytes(digits) && is_at_most(10, digits, u64::MAX))
}

/// Whether the byte may stand among the digits of the base.
fn is_given_in(base: u8, b: u8) -> bool
    ensures { result ≡ spec.is_given_in base b }
{
    is_digit_in(base, b) || is_four_state(b) || b == b'_'
}

fn are_given_in(base: u8, digits: &[u8]) -> bool
    ensures { result ≡ list_all (spec.is_given_in base) digits.now }
{
    digits.iter().all(|b| is_given_in(base, *b))
}

/// Whether the bytes are digits of the base, four-state ones among them.
fn are_digits_in(base: u8, digits: &[u8]) -> bool
    ensures { result ≡ spec.are_digits_in base digits.now }
{
    given_len(digits) > 0 && are_given_in(base, digits)
}

/// Whether the bytes are the digits that the base asks for.
fn are_digits(base: u8, digits: &[u8]) -> bool
    ensures { result ≡ spec.are_digits base digits.now }
{
    if base == 10 {
        are_decimal_digits(digits)
    } else {
        are_digits_in(base, digits)
    }
}

/// What a size, a base and digits are.
fn based_number(size: &[u8], base: u8, digits: &[u8]) -> Form
    ensures form { result ≡ number_if (spec.is_size size.now && spec.are_digits base digits.now) }
    ensures placed { IsPlaced result }
{
    number_if(is_size(size) && are_digits(base, digits))
}

/// The based number at the front of the bytes, if there is one.
pub(crate) fn based(rest: &[u8]) -> Option<Stretch>
    requires { IsTrue (is_digit (slice_index rest.now 0)
        || is_apostrophe (slice_index rest.now 0)) }
    ensures longest { MatchOption result
        (HasNone spec.based_form rest.now)
        (IsLongest spec.based_form rest.now) }
    ensures past { IfSome result (λ s. prefix_len spec.is_plain_byte rest.now + 1 < s.len) }
    ensures placed { IfSome result (λ s. IsPlaced s.form) }
{
    let size = plain_len(rest);
    let after = bytes_from(rest, size);
    let head = base_len(after);
    if head == 0 {
        return None;
    }
    let base = base_of(after[head - 1]);
    let given = bytes_from(after, head);
    let digits = based_len(base, given);
    Some(Stretch {
        form: based_number(&rest[..size], base, &given[..digits]),
        len: size + head + digits,
    })
}

/// Whether the bytes are the size, or a plain number.
fn is_plain_number(digits: &[u8]) -> bool
    ensures { result ≡ spec.is_plain_number digits.now }
{
    ends_in_digit(digits) && is_at_most(10, digits, 4_294_967_295)
}

/// The number at the front of the bytes, which begin with a digit.
pub(crate) fn sv_number(rest: &[u8]) -> Stretch
    requires some { 0 < length rest.now }
    requires starts { IsTrue (is_digit (slice_index rest.now 0)) }
    ensures stretch { result ≡ longest_front spec.sv_number_form rest.now }
    ensures placed { IsPlaced result.form }
{
    match based(rest) {
        Some(stretch) => stretch,
        None => {
            let len = plain_len(rest);
            Stretch {
                form: number_if(is_plain_number(&rest[..len])),
                len,
            }
        }
    }
}
