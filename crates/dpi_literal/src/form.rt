//! What a number of SystemVerilog tells before its value is asked (IEEE 1800-2017, 5.7.1).

ghost use Rattle.std.specs.Prelude.{◌≡◌, ◌≤◌};
ghost use Rattle.std.specs.List.{list_any};
ghost use Rattle.dpi_lex.specs.SvNumbers as lex;
ghost use Rattle.dpi_literal.specs.SvNumber as spec;

use crate::bytes::byte_at;
use crate::digits::value_up_to;
use crate::parts::{after_size, base_len, given_digits, is_fill, is_four_state, size_of};

/// The forms of numbers (IEEE 1800-2017, 5.7.1).
#[derive(Clone, Copy, Debug, Drop, PartialEq, Eq)]
pub enum NumberKind {
    /// Decimal digits alone.
    Plain,
    /// A `'`, a base and digits, with or without a size.
    Based,
    /// `'0`, `'1`, `'x` or `'z`.
    Fill,
}

/// What a number tells of itself.
#[derive(Clone, Copy, Debug, Drop, PartialEq, Eq)]
pub struct NumberForm {
    /// Its width in bits, 1 to 1,024: its size, 32 without one, 1 for a fill.
    pub width: u32,
    /// Whether it's signed: a plain number, or a based one with an `s`.
    pub signed: bool,
    /// Whether one of its digits is x or z, be it past the size.
    pub four: bool,
    /// Whether a size stands before its base.
    pub sized: bool,
    /// Which form it has.
    pub kind: NumberKind,
}

fn has_four_state(digits: &[u8]) -> bool
    ensures { result ≡ list_any lex.is_four_state digits.now }
{
    digits.iter().any(|b| is_four_state(*b))
}

/// The width of a based number with that size, which may be missing.
pub(crate) fn given_width(size: &[u8]) -> u32
    ensures width { result ≡ spec.given_width size.now }
    ensures least { 1 ≤ result }
    ensures most { result ≤ 1024 }
{
    if size.is_empty() {
        return 32;
    }
    value_up_to(1024, 10, size).max(1) as u32
}

/// Which form the number has. What is neither a fill nor based counts as plain.
pub(crate) fn kind_of(bytes: &[u8]) -> NumberKind
    ensures { result ≡ spec.kind_of bytes.now }
{
    if is_fill(bytes) {
        NumberKind::Fill
    } else if base_len(after_size(bytes)) > 0 {
        NumberKind::Based
    } else {
        NumberKind::Plain
    }
}

/// What a based number tells.
fn based_form(bytes: &[u8]) -> NumberForm
    ensures form { result ≡ spec.form_by NumberKind.Based bytes.now }
    ensures least { 1 ≤ result.width }
    ensures most { result.width ≤ 1024 }
{
    let size = size_of(bytes);
    let after = after_size(bytes);
    NumberForm {
        width: given_width(size),
        signed: base_len(after) == 3,
        four: has_four_state(given_digits(after)),
        sized: !size.is_empty(),
        kind: NumberKind::Based,
    }
}

/// What the number tells of itself (IEEE 1800-2017, 5.7.1).
pub fn sv_form(bytes: &[u8]) -> NumberForm
    ensures form { result ≡ spec.form_of bytes.now }
    ensures least { 1 ≤ result.width }
    ensures most { result.width ≤ 1024 }
{
    match kind_of(bytes) {
        NumberKind::Plain => NumberForm {
            width: 32,
            signed: true,
            four: false,
            sized: false,
            kind: NumberKind::Plain,
        },
        NumberKind::Based => based_form(bytes),
        NumberKind::Fill => NumberForm {
            width: 1,
            signed: false,
            four: is_four_state(byte_at(bytes, 1)),
            sized: false,
            kind: NumberKind::Fill,
        },
    }
}
