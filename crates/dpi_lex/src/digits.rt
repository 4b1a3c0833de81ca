//! Digits, their value, and what a number is.

ghost use Rattle.std.specs.Prelude.{◌≡◌, ◌≤◌, ◌<◌, nat_le};
ghost use Rattle.dpi_lex.specs.Bytes.{digit_value};
ghost use Rattle.dpi_lex.specs.Digits.{is_digit_in, value_in, ends_in_digit, number_if};
ghost use Rattle.dpi_lex.specs.Stretches.{IsPlaced};

use crate::bytes::is_digit;
use crate::fault::LexFault;
use crate::form::Form;
use crate::token::Kind;

/// The value of a digit in any base up to 36; 36 where it's none.
fn digit_value(b: u8) -> u8
    ensures value { result ≡ digit_value b }
    ensures bound { result ≤ 36 }
{
    match b {
        b'0'..=b'9' => b - b'0',
        b'a'..=b'z' => b - b'a' + 10,
        b'A'..=b'Z' => b - b'A' + 10,
        _ => 36,
    }
}

/// Whether the byte is a digit of the base.
pub(crate) fn is_digit_in(base: u8, b: u8) -> bool
    ensures { result ≡ is_digit_in base b }
{
    digit_value(b) < base
}

/// Whether the value of the digits of the base among the bytes is at most the limit.
pub(crate) fn is_at_most(base: u8, bytes: &[u8], limit: u64) -> bool
    ensures { result ≡ nat_le (value_in base bytes.now) limit }
{
    let mut value: u64 = 0;
    for byte in bytes {
        if is_digit_in(base, *byte) {
            let next = value as u128 * base as u128 + digit_value(*byte) as u128;
            if next > limit as u128 {
                return false;
            }
            value = next as u64;
        }
    }
    true
}

/// Whether the last of the bytes is a decimal digit.
pub(crate) fn ends_in_digit(bytes: &[u8]) -> bool
    ensures { result ≡ ends_in_digit bytes.now }
{
    if bytes.is_empty() {
        return false;
    }
    is_digit(bytes[bytes.len() - 1])
}

/// A token where the rules of numbers hold, else a bad number.
pub(crate) fn number_if(good: bool) -> Form
    ensures form { result ≡ number_if good }
    ensures placed { IsPlaced result }
{
    if good {
        Form::Whole(Kind::Number)
    } else {
        Form::Faulty(LexFault::BadNumber { place: 0 })
    }
}
