//! The whole number that a number of SystemVerilog writes (IEEE 1800-2017, 5.7.1).

ghost use Rattle.std.specs.Prelude.{◌≡◌, ◌≤◌, ◌&&◌, length, IfOk, IsOk};
ghost use Rattle.dpi_bits.specs.Lists.{top};
ghost use Rattle.dpi_bits.specs.Sought.{is_one};
ghost use Rattle.dpi_literal.specs.SvNumber as spec;

use crate::bits::sv_value;
use crate::form::sv_form;
use dpi_bits::{Bit, Packed};
use dpi_ports::NoMemory;
use std::alloc::Global;

/// The number itself, where it fits in 64 bits.
fn positive(number: Option<u64>) -> Option<i64>
    ensures { result ≡ spec.positive number }
{
    match number {
        Some(n) if n <= i64::MAX as u64 => Some(n as i64),
        _ => None,
    }
}

/// The whole number whose digits inverted write the number, where it fits in 64 bits.
fn negative(number: Option<u64>) -> Option<i64>
    ensures { result ≡ spec.negative number }
{
    match number {
        Some(n) if n <= i64::MAX as u64 => Some(-1 - n as i64),
        _ => None,
    }
}

/// Whether the bits write a number below 0.
fn is_below(value: &Packed, signed: bool) -> bool
    ensures { result ≡ (signed && is_one (top value.now)) }
{
    match value.bit(value.width() - 1) {
        Bit::One => signed,
        Bit::Zero | Bit::Z | Bit::X => false,
    }
}

/// The whole number that the bits write, where each is known and the number fits in 64 bits.
fn whole_of(alloc: Global, value: &Packed, signed: bool) -> Result<Option<i64>, NoMemory>
    ensures whole { IfOk result (λ v. v ≡ spec.whole_of signed value.now) }
    ensures inline { length value.now ≤ 128 → IsOk result }
{
    if is_below(value, signed) {
        let inverted = value.not(alloc)?;
        return Ok(negative(inverted.to_u64()));
    }
    Ok(positive(value.to_u64()))
}

/// The number's value with its sign, where every bit is known and the value fits in 64 bits: that
/// of `8'shff` is -1. `NoMemory` comes only past 128 bits.
pub fn sv_known(alloc: Global, bytes: &[u8]) -> Result<Option<i64>, NoMemory>
    ensures whole { IfOk result (λ v. v ≡ spec.known_value bytes.now) }
    ensures inline { length (spec.number_bits bytes.now) ≤ 128 → IsOk result }
{
    let value = sv_value(alloc, bytes)?;
    whole_of(alloc, &value, sv_form(bytes).signed)
}
