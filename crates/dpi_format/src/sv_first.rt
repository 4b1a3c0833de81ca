//! The piece that a format of `$display` begins with.

ghost use Rattle.std.specs.Prelude.{◌≡◌, length};
ghost use Rattle.dpi_format.specs.SvFirst as spec;
ghost use Rattle.dpi_format.specs.SvFormat.{spelled};

use crate::sv_piece::{SvLetter, SvNumber, SvPiece};

fn letter_of(byte: u8) -> Option<SvLetter>
    ensures { result ≡ spec.letter_of byte }
{
    match byte {
        b'b' => Some(SvLetter::B),
        b'd' => Some(SvLetter::D),
        b'h' => Some(SvLetter::H),
        b'x' => Some(SvLetter::X),
        _ => None,
    }
}

/// A number with that letter.
fn number_by(zero: bool, byte: u8) -> Option<SvPiece>
    ensures { result ≡ spec.number_by zero (spec.letter_of byte) }
{
    match letter_of(byte) {
        Some(letter) => Some(SvPiece::Number(SvNumber { zero, letter })),
        None => None,
    }
}

/// The piece whose percent sign stands before the bytes.
fn behind_percent(bytes: &[u8]) -> Option<SvPiece>
    ensures { result ≡ spec.behind_percent bytes.now }
{
    match bytes {
        [b'%', ..] => Some(SvPiece::Percent),
        [b's', ..] => Some(SvPiece::Text),
        [b'0', letter, ..] => number_by(true, *letter),
        [letter, ..] => number_by(false, *letter),
        [] => None,
    }
}

/// The piece that the bytes begin with, if any does.
pub(crate) fn first_of(bytes: &[u8]) -> Option<SvPiece>
    ensures { result ≡ spec.first_of bytes.now }
{
    match bytes {
        [b'%', more @ ..] => behind_percent(more),
        [byte, ..] => Some(SvPiece::Byte(*byte)),
        [] => None,
    }
}

/// How many bytes spell the piece.
pub(crate) fn spelled_len(piece: SvPiece) -> usize
    ensures { result ≡ length (spelled piece) }
{
    match piece {
        SvPiece::Byte(_) => 1,
        SvPiece::Percent | SvPiece::Text => 2,
        SvPiece::Number(number) => { if number.zero { 3 } else { 2 } }
    }
}
