//! Formats of `$display` and `$write`.

ghost use Rattle.std.specs.Prelude.{IfOk, IsErrOf, List};
ghost use Rattle.dpi_format.specs.SvFormat.{IsSvFormat};

use crate::bytes::bytes_from;
use crate::fault::FormatFault;
use crate::sv_first::{first_of, spelled_len};
use crate::sv_piece::SvPiece;
use std::alloc::Global;

/// The pieces of a format of `$display` or `$write`, in their order: `%%`, `%s`, and each of `%b`,
/// `%d`, `%h` and `%x` with a `0` behind the percent sign or none; any other byte is a piece of its
/// own (IEEE 1800-2017, 21.2.1).
///
/// `FormatFault::Unknown` where a `%` begins none of these, and so the bytes are no format:
/// `%0s`, `%5d`, `%D`, and a `%` at the end among others.
pub fn sv_format(alloc: Global, bytes: &[u8]) -> Result<Vec<SvPiece>, FormatFault>
    ensures ok { IfOk result (λ pieces. IsSvFormat bytes.now pieces.items) }
    ensures unknown { IsErrOf result FormatFault.Unknown → (pieces : List SvPiece) → ¬ IsSvFormat bytes.now pieces }
{
    let mut pieces = Vec::new(alloc);
    let mut place = 0;
    while place < bytes.len() {
        let Some(piece) = first_of(bytes_from(bytes, place)) else {
            return Err(FormatFault::Unknown);
        };
        pieces.push(piece)?;
        place += spelled_len(piece);
    }
    Ok(pieces)
}
