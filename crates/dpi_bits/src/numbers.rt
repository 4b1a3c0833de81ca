//! The numbers that values of at most 64 bits write in base two.

ghost use Rattle.std.specs.Prelude.{◌≡◌, ◌+◌, ◌-◌, ◌^◌, ◌<◌, ◌≤◌, ◌↔◌, ℕ, true, slice_index_or, IfOk, IsOk, IfSome, IsSome};
ghost use Rattle.std.specs.Int.{bit_at};
ghost use Rattle.dpi_bits.specs.declared.bit.Bit.TheVariants.{Zero};
ghost use Rattle.dpi_bits.specs.Lists.{known};
ghost use Rattle.dpi_bits.specs.Numbers.{number, binary};
ghost use Rattle.dpi_bits.specs.Words.{aval};

use crate::bit::Bit;
use crate::packed::Packed;
use crate::sought::Sought;
use crate::window::{BELOW, Window, gather, word_or_blank};
use crate::word::Word4;
use dpi_ports::NoMemory;
use std::alloc::Global;

impl Packed {
    /// The low bits of a number, as many as the width, the lowest first. `NoMemory` comes only
    /// past 128 bits.
    pub fn from_u64(alloc: Global, width: u32, value: u64) -> Result<Packed, NoMemory>
        requires least { 1 ≤ width }
        requires most { width ≤ 1024 }
        ensures bits { IfOk result (λ r. r ≡ binary width value) }
        ensures inline { width ≤ 128 → IsOk result }
    {
        let words = [
            Word4 {
                aval: (value & 0xffff_ffff) as u32,
                bval: 0,
            },
            Word4 {
                aval: (value >> 32) as u32,
                bval: 0,
            },
        ];
        gather(alloc, &words, 64, Window::whole(Bit::Zero), width)
    }

    /// The number that the bits write in base two; None exactly where a bit is unknown or the
    /// number has a 1 past its 64 lowest digits.
    pub fn to_u64(&self) -> Option<u64>
        ensures some { IsSome result ↔ ((known self.now ≡ true) × (number self.now < 2 ^ 64)) }
        ensures value { IfSome result (λ n. n ≡ number self.now) }
    {
        if !self.known() {
            return None;
        }
        if self.stands(Sought::One, self, 2) {
            return None;
        }
        Some(self.low_digits())
    }

    /// The first digits of the 64 lowest bits.
    pub(crate) fn low_digits(&self) -> u64
        ensures { (i : ℕ) → i < 64 → bit_at result i ≡ aval (slice_index_or self.now i Zero) }
    {
        let low = word_or_blank(self.words.as_slice(), BELOW / 32);
        let high = word_or_blank(self.words.as_slice(), BELOW / 32 + 1);
        joined(low.aval, high.aval)
    }
}

/// Two numbers of 32 digits as one, the first below.
fn joined(low: u32, high: u32) -> u64
    ensures near { (i : ℕ) → i < 32 → bit_at result i ≡ bit_at low i }
    ensures far { (i : ℕ) → 32 ≤ i → bit_at result i ≡ bit_at high (i - 32) }
{
    ((high as u64) << 32) | low as u64
}
