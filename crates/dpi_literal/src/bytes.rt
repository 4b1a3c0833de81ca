//! Bytes of a token by their place.

ghost use Rattle.std.specs.Prelude.{◌≡◌, drop, slice_index};
ghost use Rattle.dpi_lex.specs.Bytes as lex;

/// The byte of that number, from 0; 0 past the end.
pub(crate) fn byte_at(bytes: &[u8], i: usize) -> u8
    ensures { result ≡ slice_index bytes.now i }
{
    if i < bytes.len() { bytes[i] } else { 0 }
}

/// The bytes from a place on, at most to the end.
pub(crate) fn bytes_from(bytes: &[u8], place: usize) -> &[u8]
    ensures { result.now ≡ drop place bytes.now }
{
    if place < bytes.len() {
        &bytes[place..]
    } else {
        &bytes[bytes.len()..]
    }
}

pub(crate) fn is_digit(b: u8) -> bool
    ensures { result ≡ lex.is_digit b }
{
    b'0' <= b && b <= b'9'
}
