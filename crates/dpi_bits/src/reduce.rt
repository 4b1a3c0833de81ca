//! Reductions (IEEE 1800-2017, 11.4.9).

ghost use Rattle.std.specs.Prelude.{◌≡◌, ◌*◌, ◌≤◌, length};
ghost use Rattle.dpi_bits.specs.Layout.{digits_below};
ghost use Rattle.dpi_bits.specs.Lists.{reduce_and, reduce_or, reduce_xor};

use crate::bit::Bit;
use crate::packed::Packed;
use crate::sought::Sought;
use crate::word::Word4;

impl Packed {
    /// `&` of all bits: 0 where a bit is 0, else x where one is unknown, else 1
    /// (IEEE 1800-2017, 11.4.9).
    pub fn reduce_and(&self) -> Bit
        ensures { result ≡ reduce_and self.now }
    {
        if self.stands(Sought::Zero, self, 0) {
            Bit::Zero
        } else if self.stands(Sought::Unknown, self, 0) {
            Bit::X
        } else {
            Bit::One
        }
    }

    /// `|` of all bits: 1 where a bit is 1, else x where one is unknown, else 0
    /// (IEEE 1800-2017, 11.4.9).
    pub fn reduce_or(&self) -> Bit
        ensures { result ≡ reduce_or self.now }
    {
        if self.stands(Sought::One, self, 0) {
            Bit::One
        } else if self.stands(Sought::Unknown, self, 0) {
            Bit::X
        } else {
            Bit::Zero
        }
    }

    /// `^` of all bits: x where a bit is unknown, else 1 where the number of 1s is odd
    /// (IEEE 1800-2017, 11.4.9).
    pub fn reduce_xor(&self) -> Bit
        ensures { result ≡ reduce_xor self.now }
    {
        if !self.known() {
            Bit::X
        } else if count_ones(self.words.as_slice()) % 2 == 0 {
            Bit::Zero
        } else {
            Bit::One
        }
    }
}

/// How many 1 digits the first numbers of all words have.
fn count_ones(words: &[Word4]) -> u32
    requires { length words.now ≤ 32 }
    ensures { result ≡ digits_below words.now (32 * length words.now) }
{
    let mut count = 0;
    for j in 0..words.len() {
        count += words[j].aval.count_ones();
    }
    count
}
