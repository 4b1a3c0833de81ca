//! Arithmetic on values of at most 64 bits (IEEE 1800-2017, 11.4.3).

ghost use Rattle.std.specs.Prelude.{◌≡◌, ◌≤◌, ◌&&◌, true, false, length, IfOk, IsOk, MatchOption};
ghost use Rattle.dpi_bits.specs.Arithmetic.{negated, sum_of, difference, product_of, quotient, remainder, less_than, twos_complement, value};
ghost use Rattle.dpi_bits.specs.Lists.{known};
ghost use Rattle.dpi_bits.specs.Numbers.{number};
ghost use Rattle.dpi_bits.specs.Signed.{whole, IsProper, IsUndivided, IsDivision};

use crate::bit::Bit;
use crate::packed::Packed;
use crate::signed::Signed;
use dpi_ports::NoMemory;
use std::alloc::Global;

impl Packed {
    /// `-` of a value of at most 64 bits, modulo 2 to the width; all x where a bit is unknown
    /// (IEEE 1800-2017, 11.4.3). It needs no memory.
    pub fn negate(&self, alloc: Global) -> Result<Packed, NoMemory>
        requires { length self.now ≤ 64 }
        ensures bits { IfOk result (λ r. r ≡ negated self.now) }
        ensures inline { IsOk result }
    {
        match self.operands(self) {
            Some(numbers) => Packed::from_u64(alloc, self.width(), 0u64.wrapping_sub(numbers.0)),
            None => Packed::filled(alloc, self.width(), Bit::X),
        }
    }

    /// `+` of values of one width of at most 64 bits, modulo 2 to the width; all x where a bit
    /// is unknown (IEEE 1800-2017, 11.4.3). It needs no memory.
    pub fn add(&self, alloc: Global, other: &Packed) -> Result<Packed, NoMemory>
        requires alike { length self.now ≡ length other.now }
        requires short { length self.now ≤ 64 }
        ensures bits { IfOk result (λ r. r ≡ sum_of self.now other.now) }
        ensures inline { IsOk result }
    {
        match self.operands(other) {
            Some(numbers) => {
                Packed::from_u64(alloc, self.width(), numbers.0.wrapping_add(numbers.1))
            }
            None => Packed::filled(alloc, self.width(), Bit::X),
        }
    }

    /// `-` of values of one width of at most 64 bits, modulo 2 to the width; all x where a bit
    /// is unknown (IEEE 1800-2017, 11.4.3). It needs no memory.
    pub fn sub(&self, alloc: Global, other: &Packed) -> Result<Packed, NoMemory>
        requires alike { length self.now ≡ length other.now }
        requires short { length self.now ≤ 64 }
        ensures bits { IfOk result (λ r. r ≡ difference self.now other.now) }
        ensures inline { IsOk result }
    {
        match self.operands(other) {
            Some(numbers) => {
                Packed::from_u64(alloc, self.width(), numbers.0.wrapping_sub(numbers.1))
            }
            None => Packed::filled(alloc, self.width(), Bit::X),
        }
    }

    /// `*` of values of one width of at most 64 bits, modulo 2 to the width; all x where a bit
    /// is unknown (IEEE 1800-2017, 11.4.3). It needs no memory.
    pub fn mul(&self, alloc: Global, other: &Packed) -> Result<Packed, NoMemory>
        requires alike { length self.now ≡ length other.now }
        requires short { length self.now ≤ 64 }
        ensures bits { IfOk result (λ r. r ≡ product_of self.now other.now) }
        ensures inline { IsOk result }
    {
        match self.operands(other) {
            Some(numbers) => {
                Packed::from_u64(alloc, self.width(), numbers.0.wrapping_mul(numbers.1))
            }
            None => Packed::filled(alloc, self.width(), Bit::X),
        }
    }

    /// `/` of values of one width of at most 64 bits, rounded toward zero; all x where a bit is
    /// unknown or the divisor is 0, and modulo 2 to the width, so that the least number over -1
    /// is itself (IEEE 1800-2017, 11.4.3). It needs no memory.
    pub fn div(&self, alloc: Global, other: &Packed, signed: bool) -> Result<Packed, NoMemory>
        requires alike { length self.now ≡ length other.now }
        requires short { length self.now ≤ 64 }
        ensures bits { IfOk result (λ r. r ≡ quotient signed self.now other.now) }
        ensures inline { IsOk result }
    {
        match self.division(other, signed) {
            Some(numbers) => written(alloc, self.width(), numbers.0.over(numbers.1)),
            None => Packed::filled(alloc, self.width(), Bit::X),
        }
    }

    /// `%` of values of one width of at most 64 bits, with the sign of the first; all x where a
    /// bit is unknown or the divisor is 0 (IEEE 1800-2017, 11.4.3). It needs no memory.
    pub fn rem(&self, alloc: Global, other: &Packed, signed: bool) -> Result<Packed, NoMemory>
        requires alike { length self.now ≡ length other.now }
        requires short { length self.now ≤ 64 }
        ensures bits { IfOk result (λ r. r ≡ remainder signed self.now other.now) }
        ensures inline { IsOk result }
    {
        match self.division(other, signed) {
            Some(numbers) => written(alloc, self.width(), numbers.0.left_by(numbers.1)),
            None => Packed::filled(alloc, self.width(), Bit::X),
        }
    }

    /// `<` of values of one width of at most 64 bits; x where a bit is unknown
    /// (IEEE 1800-2017, 11.4.4).
    pub fn less(&self, other: &Packed, signed: bool) -> Bit
        requires alike { length self.now ≡ length other.now }
        requires short { length self.now ≤ 64 }
        ensures { result ≡ less_than signed self.now other.now }
    {
        match self.operands(other) {
            Some(_) if self.whole(signed).is_below(other.whole(signed)) => Bit::One,
            Some(_) => Bit::Zero,
            None => Bit::X,
        }
    }

    /// The numbers of two values, where no bit of either is unknown.
    fn operands(&self, other: &Packed) -> Option<(u64, u64)>
        requires left { length self.now ≤ 64 }
        requires right { length other.now ≤ 64 }
        ensures { MatchOption result (known self.now && known other.now ≡ false)
            (λ p. (known self.now && known other.now ≡ true) × (p.0 ≡ number self.now)
            × (p.1 ≡ number other.now)) }
    {
        if !self.known() {
            return None;
        }
        if !other.known() {
            return None;
        }
        Some((self.low_digits(), other.low_digits()))
    }

    /// The whole numbers of two values, where no bit of either is unknown and the second is not 0.
    fn division(&self, other: &Packed, signed: bool) -> Option<(Signed, Signed)>
        requires alike { length self.now ≡ length other.now }
        requires short { length self.now ≤ 64 }
        ensures { MatchOption result (IsUndivided self.now other.now)
            (λ p. IsDivision signed self.now other.now p.0 p.1) }
    {
        let numbers = self.operands(other)?;
        if numbers.1 == 0 {
            return None;
        }
        Some((self.whole(signed), other.whole(signed)))
    }

    /// The whole number of known bits.
    fn whole(&self, signed: bool) -> Signed
        requires known { known self.now ≡ true }
        requires short { length self.now ≤ 64 }
        ensures value { whole result ≡ value signed self.now }
        ensures proper { IsProper result }
        ensures zero { result.size ≡ 0 → number self.now ≡ 0 }
    {
        let number = self.low_digits();
        match self.extension(signed) {
            Bit::One => Signed {
                negative: true,
                size: (u64::MAX >> (64 - self.width())) - number + 1,
            },
            _ => Signed {
                negative: false,
                size: number,
            },
        }
    }
}

/// The list that a whole number writes in two's complement.
fn written(alloc: Global, width: u32, number: Signed) -> Result<Packed, NoMemory>
    requires least { 1 ≤ width }
    requires most { width ≤ 64 }
    ensures bits { IfOk result (λ r. r ≡ twos_complement width (whole number)) }
    ensures inline { IsOk result }
{
    let digits = if number.negative {
        0u64.wrapping_sub(number.size)
    } else {
        number.size
    };
    Packed::from_u64(alloc, width, digits)
}
