//! The piece that a format of `printf` begins with.

ghost use Rattle.std.specs.Prelude.{◌≡◌, ◌≤◌, IfSome, length};
ghost use Rattle.dpi_format.specs.CFirst as spec;
ghost use Rattle.dpi_format.specs.CFormat.{IsPlain, IsWidth, spelled, width_spelled, number_spelled};

use crate::bytes::bytes_from;
use crate::c_piece::{CLetter, CNumber, CPiece};

fn letter_of(byte: u8) -> Option<CLetter>
    ensures { result ≡ spec.letter_of byte }
{
    match byte {
        b'd' => Some(CLetter::D),
        b'u' => Some(CLetter::U),
        b'x' => Some(CLetter::X),
        _ => None,
    }
}

fn first_letter(bytes: &[u8]) -> Option<CLetter>
    ensures { result ≡ spec.first_letter bytes.now }
{
    match bytes {
        [byte, ..] => letter_of(*byte),
        [] => None,
    }
}

fn has_l(bytes: &[u8]) -> bool
    ensures { result ≡ spec.has_l bytes.now }
{
    match bytes {
        [byte, ..] => *byte == b'l',
        [] => false,
    }
}

fn has_long(bytes: &[u8]) -> bool
    ensures { result ≡ spec.has_long bytes.now }
{
    match bytes {
        [byte, more @ ..] => *byte == b'l' && has_l(more),
        [] => false,
    }
}

fn has_zero(bytes: &[u8]) -> bool
    ensures { result ≡ spec.has_zero bytes.now }
{
    match bytes {
        [byte, ..] => *byte == b'0',
        [] => false,
    }
}

/// The width whose first digit is given, with the second one if the bytes begin with one.
fn width_by(digit: u8, bytes: &[u8]) -> u8
    requires { digit ≤ 9 }
    ensures { result ≡ spec.width_by digit bytes.now }
{
    match bytes {
        [byte @ b'0'..=b'9', ..] => digit * 10 + (*byte - b'0'),
        _ => digit,
    }
}

fn width_of(bytes: &[u8]) -> Option<u8>
    ensures { result ≡ spec.width_of bytes.now }
{
    match bytes {
        [byte @ b'1'..=b'9', more @ ..] => Some(width_by(*byte - b'0', more)),
        _ => None,
    }
}

/// How many digits the width has.
fn width_len(width: Option<u8>) -> usize
    requires { IfSome width IsWidth }
    ensures len { result ≡ length (width_spelled width) }
    ensures bound { result ≤ 2 }
{
    match width {
        Some(width) => { if width < 10 { 1 } else { 2 } }
        None => 0,
    }
}

/// The number whose percent sign stands before the bytes.
fn number_of(bytes: &[u8]) -> Option<CPiece>
    ensures { result ≡ spec.number_of bytes.now }
{
    let zero = has_zero(bytes);
    let behind_zero = bytes_from(bytes, if zero { 1 } else { 0 });
    let width = width_of(behind_zero);
    let behind_width = bytes_from(behind_zero, width_len(width));
    let long = has_long(behind_width);
    match first_letter(bytes_from(behind_width, if long { 2 } else { 0 })) {
        Some(letter) => Some(CPiece::Number(CNumber {
            zero,
            width,
            long,
            letter,
        })),
        None => None,
    }
}

/// The piece whose percent sign stands before the bytes.
fn behind_percent(bytes: &[u8]) -> Option<CPiece>
    ensures { result ≡ spec.behind_percent bytes.now }
{
    match bytes {
        [b'%', ..] => Some(CPiece::Percent),
        [b's', ..] => Some(CPiece::Text),
        [b'c', ..] => Some(CPiece::Character),
        _ => number_of(bytes),
    }
}

/// The piece that the bytes begin with, if any does.
pub(crate) fn first_of(bytes: &[u8]) -> Option<CPiece>
    ensures { result ≡ spec.first_of bytes.now }
{
    match bytes {
        [b'%', more @ ..] => behind_percent(more),
        [byte, ..] => Some(CPiece::Byte(*byte)),
        [] => None,
    }
}

/// How many bytes spell the number behind its percent sign.
fn number_len(number: CNumber) -> usize
    requires { IfSome number.width IsWidth }
    ensures len { result ≡ length (number_spelled number) }
    ensures bound { result ≤ 6 }
{
    let zero = if number.zero { 1 } else { 0 };
    let long = if number.long { 2 } else { 0 };
    zero + width_len(number.width) + long + 1
}

/// How many bytes spell the piece.
pub(crate) fn spelled_len(piece: CPiece) -> usize
    requires { IsPlain piece }
    ensures len { result ≡ length (spelled piece) }
    ensures bound { result ≤ 7 }
{
    match piece {
        CPiece::Byte(_) => 1,
        CPiece::Percent | CPiece::Text | CPiece::Character => 2,
        CPiece::Number(number) => 1 + number_len(number),
    }
}
