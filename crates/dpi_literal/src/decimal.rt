//! Plain decimal numbers of SystemVerilog (IEEE 1800-2017, 5.7.1).

ghost use Rattle.std.specs.Prelude.{◌≡◌};
ghost use Rattle.std.specs.List.{list_all};
ghost use Rattle.dpi_lex.specs.Digits.{ends_in_digit};
ghost use Rattle.dpi_lex.specs.SvNumbers as lex;
ghost use Rattle.dpi_literal.specs.SvNumber.{decimal_of};

use crate::bytes::is_digit;
use crate::digits::value_up_to;
use crate::parts::is_plain_byte;

fn are_plain_bytes(bytes: &[u8]) -> bool
    ensures { result ≡ list_all lex.is_plain_byte bytes.now }
{
    bytes.iter().all(|b| is_plain_byte(*b))
}

/// Whether the bytes are a digit, and bytes with which a plain number goes on.
fn is_plain_stretch(bytes: &[u8]) -> bool
    ensures { result ≡ lex.is_plain_stretch bytes.now }
{
    match bytes {
        [first, more @ ..] => is_digit(*first) && are_plain_bytes(more),
        [] => false,
    }
}

/// Whether the last of the bytes is a decimal digit.
fn ends_in_digit(bytes: &[u8]) -> bool
    ensures { result ≡ ends_in_digit bytes.now }
{
    if bytes.is_empty() {
        return false;
    }
    is_digit(bytes[bytes.len() - 1])
}

/// The value of a plain decimal number; None where the bytes are no such number.
pub fn sv_decimal(bytes: &[u8]) -> Option<u32>
    ensures { result ≡ decimal_of bytes.now }
{
    if !is_plain_stretch(bytes) || !ends_in_digit(bytes) {
        return None;
    }
    let value = value_up_to(1 << 32, 10, bytes);
    if value < 1 << 32 {
        Some(value as u32)
    } else {
        None
    }
}
