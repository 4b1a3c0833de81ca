//! The parts of a based number: its size, its base and its digits (IEEE 1800-2017, 5.7.1).

ghost use Rattle.std.specs.Prelude.{◌≡◌, ◌≤◌, length};
ghost use Rattle.std.specs.List.{prefix_len};
ghost use Rattle.dpi_lex.specs.SvNumbers as lex;

use crate::bytes::{byte_at, bytes_from, is_digit};

pub(crate) fn is_plain_byte(b: u8) -> bool
    ensures { result ≡ lex.is_plain_byte b }
{
    is_digit(b) || b == b'_'
}

/// How many bytes at the front belong to a plain number or a size.
fn plain_len(rest: &[u8]) -> usize
    ensures run { result ≡ prefix_len lex.is_plain_byte rest.now }
    ensures within { result ≤ length rest.now }
{
    rest.iter().take_while(|b| is_plain_byte(**b)).count()
}

/// The base of that letter; 0 for another byte.
fn base_of(b: u8) -> u8
    ensures { result ≡ lex.base_of b }
{
    match b {
        b'b' | b'B' => 2,
        b'o' | b'O' => 8,
        b'd' | b'D' => 10,
        b'h' | b'H' => 16,
        _ => 0,
    }
}

/// The digits and `_` at the front, which are the size of a based number.
pub(crate) fn size_of(bytes: &[u8]) -> &[u8]
    ensures { result.now ≡ lex.size_of bytes.now }
{
    &bytes[..plain_len(bytes)]
}

/// What follows the size.
pub(crate) fn after_size(bytes: &[u8]) -> &[u8]
    ensures { result.now ≡ lex.after_size bytes.now }
{
    bytes_from(bytes, plain_len(bytes))
}

/// The bytes of a `'`, an `s` and a base, from the front; 0 where they aren't there.
pub(crate) fn base_len(after: &[u8]) -> usize
    ensures { result ≡ lex.base_len after.now }
{
    if byte_at(after, 0) != b'\'' {
        0
    } else if base_of(byte_at(after, 1)) > 0 {
        2
    } else if byte_at(after, 1) == b's' && base_of(byte_at(after, 2)) > 0 {
        3
    } else {
        0
    }
}

/// The base that stands in what follows the size.
pub(crate) fn given_base(after: &[u8]) -> u8
    ensures { result ≡ lex.given_base after.now }
{
    base_of(byte_at(after, base_len(after).saturating_sub(1)))
}

/// The digits that stand in what follows the size.
pub(crate) fn given_digits(after: &[u8]) -> &[u8]
    ensures { result.now ≡ lex.given_digits after.now }
{
    bytes_from(after, base_len(after))
}

/// Whether each bit of the digit is unknown or open.
pub(crate) fn is_four_state(b: u8) -> bool
    ensures { result ≡ lex.is_four_state b }
{
    b == b'x' || b == b'X' || b == b'z' || b == b'Z' || b == b'?'
}

/// Whether the bytes are a fill: all bits 0, 1, x or z.
pub(crate) fn is_fill(bytes: &[u8]) -> bool
    ensures { result ≡ lex.is_fill bytes.now }
{
    match bytes {
        [b'\'', b'0' | b'1' | b'x' | b'z'] => true,
        _ => false,
    }
}
