//! The bits of a number of SystemVerilog (IEEE 1800-2017, 5.7.1).

ghost use Rattle.std.specs.Prelude.{◌≡◌, ◌≤◌, ◌+◌, pos, min, length, [], unwrap_or, IfOk, IsOk, not, find};
ghost use Rattle.dpi_bits.specs.Parts.{put};
ghost use Rattle.dpi_lex.specs.Bytes.{is_underscore};
ghost use Rattle.dpi_lex.specs.SvNumbers as lex;
ghost use Rattle.dpi_literal.specs.SvNumber as spec;

use crate::bytes::byte_at;
use crate::digits::{digit_value, is_digit_in, value_up_to};
use crate::form::{NumberKind, given_width, kind_of};
use crate::parts::{after_size, given_base, given_digits, is_four_state, size_of};
use dpi_bits::{Bit, Packed};
use dpi_ports::NoMemory;
use std::alloc::Global;

/// x or z for a digit of such bits, else 0.
fn filler(b: u8) -> Bit
    ensures { result ≡ spec.filler b }
{
    match b {
        b'x' | b'X' => Bit::X,
        b'z' | b'Z' | b'?' => Bit::Z,
        _ => Bit::Zero,
    }
}

/// The filler of a byte that may be missing.
fn filler_of(b: Option<u8>) -> Bit
    ensures { result ≡ spec.filler_of b }
{
    match b {
        Some(b) => filler(b),
        None => Bit::Zero,
    }
}

/// Whether the byte isn't a `_`.
fn is_given(b: u8) -> bool
    ensures { result ≡ not (is_underscore b) }
{
    b != b'_'
}

/// The first byte that isn't a `_`.
fn leading(digits: &[u8]) -> Option<u8>
    ensures { result ≡ spec.leading digits.now }
{
    digits.iter().copied().find(|b| is_given(*b))
}

/// How many bits a digit of base 2, 8 or 16 stands for.
fn digit_width(base: u8) -> u32
    ensures width { result ≡ spec.digit_width base }
    ensures least { 1 ≤ result }
    ensures most { result ≤ 4 }
{
    match base {
        2 => 1,
        8 => 3,
        _ => 4,
    }
}

/// The bits of a digit of base 2, 8 or 16, which takes no memory.
fn digit_bits(alloc: Global, base: u8, b: u8) -> Option<Packed>
    ensures { spec.digit_bits base b ≡ unwrap_or result [] }
{
    let width = digit_width(base);
    if is_four_state(b) {
        Some(Packed::filled(alloc, width, filler(b)).unwrap())
    } else if is_digit_in(base, b) {
        Some(Packed::from_u64(alloc, width, digit_value(b) as u64).unwrap())
    } else {
        None
    }
}

/// Puts the bits of a digit into the value from a place on, and answers the place behind them.
fn put_digit(alloc: Global, value: &mut Packed, at: u32, base: u8, b: u8) -> u32
    requires { at ≤ length value.old }
    ensures bits { value.new ≡ put (pos at) (spec.digit_bits base b) value.old }
    ensures next { result ≡ min (at + length (spec.digit_bits base b)) (length value.old) }
{
    if at == value.width() {
        return at;
    }
    match digit_bits(alloc, base, b) {
        Some(bits) => {
            value.put_part(at as i64, &bits);
            (at + bits.width()).min(value.width())
        }
        None => at,
    }
}

/// The bits of digits of base 2, 8 or 16 at a width.
fn padded(alloc: Global, width: u32, base: u8, digits: &[u8]) -> Result<Packed, NoMemory>
    requires least { 1 ≤ width }
    requires most { width ≤ 1024 }
    ensures bits { IfOk result (λ r. r ≡ spec.padded width base digits.now) }
    ensures inline { width ≤ 128 → IsOk result }
{
    let mut value = Packed::filled(alloc, width, filler_of(leading(digits)))?;
    let mut at = 0;
    for i in 0..digits.len() {
        at = put_digit(alloc, &mut value, at, base, digits[digits.len() - 1 - i]);
    }
    Ok(value)
}

/// The first of the bytes whose bits are unknown or open.
fn first_four_state(digits: &[u8]) -> Option<u8>
    ensures { result ≡ find lex.is_four_state digits.now }
{
    digits.iter().copied().find(|b| is_four_state(*b))
}

/// The bits of digits of base 10 at a width.
fn decimal_bits(alloc: Global, width: u32, digits: &[u8]) -> Result<Packed, NoMemory>
    requires least { 1 ≤ width }
    requires most { width ≤ 1024 }
    ensures bits { IfOk result (λ r. r ≡ spec.decimal_bits width digits.now) }
    ensures inline { width ≤ 128 → IsOk result }
{
    match first_four_state(digits) {
        Some(b) => Packed::filled(alloc, width, filler(b)),
        None => Packed::from_u64(alloc, width, value_up_to(u64::MAX, 10, digits)),
    }
}

/// The bits of a based number.
fn based_bits(alloc: Global, bytes: &[u8]) -> Result<Packed, NoMemory>
    ensures bits { IfOk result (λ r. r ≡ spec.bits_by NumberKind.Based bytes.now) }
    ensures inline { length (spec.bits_by NumberKind.Based bytes.now) ≤ 128 → IsOk result }
{
    let width = given_width(size_of(bytes));
    let after = after_size(bytes);
    let base = given_base(after);
    if base == 10 {
        decimal_bits(alloc, width, given_digits(after))
    } else {
        padded(alloc, width, base, given_digits(after))
    }
}

/// The bit of a fill.
fn fill_bit(b: u8) -> Bit
    ensures { result ≡ spec.fill_bit b }
{
    if b == b'1' { Bit::One } else { filler(b) }
}

/// The number's bits, as many as its width: its digits from the right, padded on the left with
/// the first digit where that is x or z, else with 0, and cut at the width; a fill's one bit
/// (IEEE 1800-2017, 5.7.1). `NoMemory` comes only past 128 bits.
pub fn sv_value(alloc: Global, bytes: &[u8]) -> Result<Packed, NoMemory>
    ensures bits { IfOk result (λ r. r ≡ spec.number_bits bytes.now) }
    ensures inline { length (spec.number_bits bytes.now) ≤ 128 → IsOk result }
{
    match kind_of(bytes) {
        NumberKind::Plain => Packed::from_u64(alloc, 32, value_up_to(u32::MAX as u64, 10, bytes)),
        NumberKind::Based => based_bits(alloc, bytes),
        NumberKind::Fill => Packed::filled(alloc, 1, fill_bit(byte_at(bytes, 1))),
    }
}
