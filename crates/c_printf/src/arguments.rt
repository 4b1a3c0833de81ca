//! Which arguments a format of `printf` takes (ISO C 7.21.6.1).
ghost use Rattle.std.specs.Prelude.{◌≡◌, IfOk};
ghost use Rattle.c_printf.specs.Arguments as spec;

use c_base::{CBase, CType};
use c_typing::Operand;
use dpi_format::{CPiece, FormatFault, c_format};
use dpi_literal::text_of;
use dpi_ports::NoMemory;
use std::alloc::Global;

fn is_letter(piece: CPiece) -> bool
    ensures { result ≡ spec.is_letter piece }
{
    match piece {
        CPiece::Byte(_) | CPiece::Percent => false,
        CPiece::Text | CPiece::Character | CPiece::Number(_) => true,
    }
}

fn is_text(of: CType) -> bool
    ensures { result ≡ spec.is_text of }
{
    of.stars == 1 && of.base == CBase::Char
}

fn is_character(of: CType) -> bool
    ensures { result ≡ spec.is_character of }
{
    of.is_number() && of.base.promoted() == CBase::Int
}

fn bits_of(long: bool) -> u32
    ensures { result ≡ spec.bits_of long }
{
    if long { 64 } else { 32 }
}

fn is_number_of(long: bool, of: CType) -> bool
    ensures { result ≡ spec.is_number_of long of }
{
    of.is_number() && of.base.promoted().width() == bits_of(long)
}

/// Whether the piece prints arguments of the type.
fn suits(piece: CPiece, of: CType) -> bool
    ensures { result ≡ spec.suits piece of }
{
    match piece {
        CPiece::Text => is_text(of),
        CPiece::Character => is_character(of),
        CPiece::Number(number) => is_number_of(number.long, of),
        CPiece::Byte(_) | CPiece::Percent => true,
    }
}

fn suits_any(piece: CPiece, argument: Option<Operand>) -> bool
    ensures { result ≡ spec.suits_any piece argument }
{
    match argument {
        None => true,
        Some(a) => suits(piece, a.of),
    }
}

/// The pieces that print an argument.
fn letters(alloc: Global, pieces: &[CPiece]) -> Result<Vec<CPiece>, NoMemory>
    ensures { IfOk result (λ v. v.items ≡ spec.letters pieces.now) }
{
    let letters = pieces
        .iter()
        .copied()
        .filter(|piece| is_letter(*piece))
        .collect(alloc)?;
    Ok(letters)
}

/// Whether each argument suits its letter.
fn all_suit(letters: &[CPiece], arguments: &[Option<Operand>]) -> bool
    ensures { result ≡ spec.all_suit letters.now arguments.now }
{
    letters
        .iter()
        .zip(arguments.iter())
        .all(|(piece, argument)| suits_any(*piece, *argument))
}

/// Whether there are as many arguments as letters, and each suits its letter.
fn pieces_fit(
    alloc: Global,
    pieces: &[CPiece],
    arguments: &[Option<Operand>],
) -> Result<bool, NoMemory>
    ensures { IfOk result (λ fits. fits ≡ spec.pieces_fit pieces.now arguments.now) }
{
    let letters = letters(alloc, pieces)?;
    Ok(letters.len() == arguments.len() && all_suit(letters.as_slice(), arguments))
}

/// Whether the arguments fit a format, given by the bytes of its string token: it is a format, there
/// are as many arguments as letters, and each that has a type suits its letter. `%d`, `%u` and `%x`
/// take numbers of 32 bits after promotion, with `ll` of 64; `%c` an `int` after promotion; `%s` a
/// pointer to `char`, const or not (ISO C 7.21.6.1).
pub fn text_fits(
    alloc: Global,
    bytes: &[u8],
    arguments: &[Option<Operand>],
) -> Result<bool, NoMemory>
    ensures { IfOk result (λ fits. fits ≡ spec.text_fits bytes.now arguments.now) }
{
    let text = text_of(alloc, bytes)?;
    match c_format(alloc, text.as_slice()) {
        Ok(pieces) => pieces_fit(alloc, pieces.as_slice(), arguments),
        Err(FormatFault::Unknown) => Ok(false),
        Err(FormatFault::NoMemory) => Err(NoMemory),
    }
}
