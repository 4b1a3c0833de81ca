//! Formats of `$display` and `$write` with their arguments (IEEE 1800-2017, 21.2.1).
ghost use Rattle.std.specs.Prelude.{◌≡◌, IfOk, filter_map, option_map, slice_get};
ghost use Rattle.dpi_rules.specs.Least.{noted};
ghost use Rattle.sv_contexts.specs.Formats as spec;

use dpi_format::{FormatFault, SvLetter, SvPiece, sv_format};
use dpi_literal::text_of;
use dpi_ports::NoMemory;
use dpi_rules::{Violation, note};
use std::alloc::Global;
use sv_typing::{Operand, width_broken};

/// The rule on formats.
const FORMAT_RULE: u8 = 24;

/// The most bits of a number that is shown in decimal.
const MOST_DECIMAL: u32 = 64;

/// An argument of a format.
#[derive(Clone, Copy, Debug, PartialEq, Eq, Drop)]
pub struct Shown {
    /// The number of its first token.
    pub token: u32,
    /// What it is; None where it holds a violation.
    pub operand: Option<Operand>,
}

/// How an argument is shown.
#[derive(Clone, Copy, Debug, PartialEq, Eq, Drop)]
pub(crate) enum Conversion {
    /// As a text: `%s`.
    Text,
    /// As digits of base 2 or 16.
    Digits,
    /// In decimal: `%d` and `%0d`.
    Decimal,
}

fn shown_by(letter: SvLetter) -> Conversion
    ensures { result ≡ spec.shown_by letter }
{
    match letter {
        SvLetter::D => Conversion::Decimal,
        SvLetter::B | SvLetter::H | SvLetter::X => Conversion::Digits,
    }
}

/// How a piece shows an argument, if it shows one.
fn conversion_of(piece: SvPiece) -> Option<Conversion>
    ensures { result ≡ spec.conversion_of piece }
{
    match piece {
        SvPiece::Byte(_) | SvPiece::Percent => None,
        SvPiece::Text => Some(Conversion::Text),
        SvPiece::Number(number) => Some(shown_by(number.letter)),
    }
}

/// How the arguments of a format are shown, in their order.
fn conversions_of(alloc: Global, pieces: &[SvPiece]) -> Result<Vec<Conversion>, NoMemory>
    ensures { IfOk result (λ v. v.items ≡ filter_map spec.conversion_of pieces.now) }
{
    let conversions = pieces
        .iter()
        .filter_map(|piece| conversion_of(*piece))
        .collect(alloc)?;
    Ok(conversions)
}

/// The pieces of a format, or None where it has none.
fn pieces_of(alloc: Global, text: &[u8]) -> Result<Option<Vec<SvPiece>>, NoMemory>
    ensures { IfOk result (λ o. option_map (λ v. v.items) o ≡ spec.pieces_of text.now) }
{
    match sv_format(alloc, text) {
        Ok(pieces) => Ok(Some(pieces)),
        Err(FormatFault::Unknown) => Ok(None),
        Err(FormatFault::NoMemory) => Err(NoMemory),
    }
}

fn fits(conversion: Conversion, operand: Option<Operand>) -> bool
    ensures { result ≡ spec.fits conversion operand }
{
    match operand {
        None => true,
        Some(operand) => match conversion {
            Conversion::Text => operand.of.is_text(),
            Conversion::Digits | Conversion::Decimal => operand.of.is_packed(),
        },
    }
}

fn fits_at(conversion: Option<Conversion>, operand: Option<Operand>) -> bool
    ensures { result ≡ spec.fits_at conversion operand }
{
    match conversion {
        None => false,
        Some(conversion) => fits(conversion, operand),
    }
}

/// How the argument of a place is shown, if it is.
fn conversion_at(conversions: &[Conversion], place: usize) -> Option<Conversion>
    ensures { result ≡ slice_get conversions.now place }
{
    conversions.get(place).copied()
}

/// Whether each argument is shown by what fits it.
fn are_shown(args: &[Shown], conversions: &[Conversion]) -> bool
    ensures { result ≡ spec.are_shown args.now conversions.now }
{
    for (place, arg) in args.iter().enumerate() {
        if !fits_at(conversion_at(conversions, place), arg.operand) {
            return false;
        }
    }
    true
}

/// Whether there are as many arguments as are shown, each of a kind that fits.
fn are_fitting(conversions: &[Conversion], args: &[Shown]) -> bool
    ensures { result ≡ spec.are_fitting conversions.now args.now }
{
    conversions.len() == args.len() && are_shown(args, conversions)
}

/// Notes rule 16 at an argument of more than 64 bits.
fn note_too_wide(file: u32, token: u32, operand: Option<Operand>, found: &mut Option<Violation>)
    ensures { found.new ≡ noted found.old (spec.too_wide file token operand) }
{
    if let Some(operand) = operand {
        if operand.of.width() > MOST_DECIMAL {
            note(found, width_broken(file, token));
        }
    }
}

/// Notes rule 16 where an argument is shown in decimal and has more than 64 bits.
fn note_decimal(
    file: u32,
    arg: Shown,
    conversion: Option<Conversion>,
    found: &mut Option<Violation>,
)
    ensures { found.new ≡ noted found.old (spec.decimal_violations file arg conversion) }
{
    if let Some(Conversion::Decimal) = conversion {
        note_too_wide(file, arg.token, arg.operand, found);
    }
}

/// Notes rule 16 at each argument of more than 64 bits that is shown in decimal.
fn note_decimals(
    file: u32,
    args: &[Shown],
    conversions: &[Conversion],
    found: &mut Option<Violation>,
)
    ensures { found.new ≡ noted found.old (spec.decimals_violations file args.now conversions.now) }
{
    for (place, arg) in args.iter().enumerate() {
        note_decimal(file, *arg, conversion_at(conversions, place), found);
    }
}

fn format_broken(file: u32, token: u32) -> Violation
    ensures { result ≡ spec.format_broken file token }
{
    Violation {
        file,
        token,
        rule: FORMAT_RULE,
    }
}

/// Notes rule 24 where the arguments don't fit.
fn note_fitting(
    file: u32,
    token: u32,
    conversions: &[Conversion],
    args: &[Shown],
    found: &mut Option<Violation>,
)
    ensures { found.new ≡ noted found.old (spec.fitting_violations file token conversions.now args.now) }
{
    if !are_fitting(conversions, args) {
        note(found, format_broken(file, token));
    }
}

/// Notes what the arguments violate that are shown so.
fn note_shown(
    file: u32,
    token: u32,
    conversions: &[Conversion],
    args: &[Shown],
    found: &mut Option<Violation>,
)
    ensures { found.new ≡ noted found.old (spec.shown_violations file token conversions.now args.now) }
{
    note_fitting(file, token, conversions, args, found);
    note_decimals(file, args, conversions, found);
}

/// Notes what a format, by the token and the bytes of its string, quotes included, and its arguments
/// violate. Rule 24 is noted at the string where it has another letter than `b`, `d`, `h`, `x`, each
/// with a `0` before it or none, `s` and `%`, where there are not as many arguments as it shows, and
/// where `%s` shows what isn't a string or another one what isn't packed; rule 16 at the first token
/// of an argument of more than 64 bits that is shown in decimal. Arguments without a type are counted
/// and else passed over.
pub fn note_format(
    alloc: Global,
    file: u32,
    token: u32,
    bytes: &[u8],
    args: &[Shown],
    found: &mut Option<Violation>,
) -> Result<(), NoMemory>
    ensures { IfOk result (λ _. found.new ≡ noted found.old (spec.format_violations file token bytes.now args.now)) }
{
    let text = text_of(alloc, bytes)?;
    match pieces_of(alloc, text.as_slice())? {
        None => note(found, format_broken(file, token)),
        Some(pieces) => {
            let conversions = conversions_of(alloc, pieces.as_slice())?;
            note_shown(file, token, conversions.as_slice(), args, found);
        }
    }
    Ok(())
}
