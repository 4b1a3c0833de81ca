//! Formats of C's `printf`.

ghost use Rattle.std.specs.Prelude.{◌≡◌, ◌≤◌, IfOk, IsErrOf, List, length, not};
ghost use Rattle.dpi_format.specs.CFormat.{IsCFormat, before_zero, is_zero};
ghost use Rattle.std.specs.List.{prefix_len};

use crate::bytes::bytes_from;
use crate::c_first::{first_of, spelled_len};
use crate::c_piece::CPiece;
use crate::fault::FormatFault;
use std::alloc::Global;

/// How many bytes stand before the first 0.
fn before_zero_len(bytes: &[u8]) -> usize
    ensures run { result ≡ prefix_len (λ b. not (is_zero b)) bytes.now }
    ensures within { result ≤ length bytes.now }
{
    bytes.iter().take_while(|byte| **byte != 0).count()
}

/// The bytes before the first 0, or all where there is none.
fn before_zero(bytes: &[u8]) -> &[u8]
    ensures { result.now ≡ before_zero bytes.now }
{
    &bytes[..before_zero_len(bytes)]
}

/// The pieces of a format of `printf`, in their order: `%%`, `%s`, `%c`, and each of `%d`, `%u` and
/// `%x` with the flag `0` or none, then a width from 1 to 99 or none, then `ll` or nothing; any
/// other byte is a piece of its own (ISO C 7.21.6.1). The format ends before its first byte 0, and
/// the bytes from there on aren't looked at.
///
/// `FormatFault::Unknown` where a `%` begins none of these, and so the bytes are no format:
/// `%00d`, `%100d`, `%ld`, `%5s`, and a `%` at the end among others.
pub fn c_format(alloc: Global, bytes: &[u8]) -> Result<Vec<CPiece>, FormatFault>
    ensures ok { IfOk result (λ pieces. IsCFormat bytes.now pieces.items) }
    ensures unknown { IsErrOf result FormatFault.Unknown → (pieces : List CPiece) → ¬ IsCFormat bytes.now pieces }
{
    let format = before_zero(bytes);
    let mut pieces = Vec::new(alloc);
    let mut place = 0;
    while place < format.len() {
        let Some(piece) = first_of(bytes_from(format, place)) else {
            return Err(FormatFault::Unknown);
        };
        pieces.push(piece)?;
        place += spelled_len(piece);
    }
    Ok(pieces)
}
