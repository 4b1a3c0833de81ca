//! Searches for a kind of bit in one list or two, a word at a time.

ghost use Rattle.std.specs.Prelude.{◌≡◌, ◌*◌, ◌<◌, ◌≤◌, ℕ, true, false, length, if◌then◌else◌, IsTrue, IsFalse};
ghost use Rattle.std.specs.Int.{bit_at};
ghost use Rattle.dpi_bits.specs.Words.{bit_in, held};
ghost use Rattle.dpi_bits.specs.Sought.{is_sought};

use crate::word::{Word4, ones_between, without};

/// What is sought among the bits of a first list and a second one.
#[derive(Clone, Copy, Debug, Drop, PartialEq, Eq)]
pub(crate) enum Sought {
    /// A 0 in the first.
    Zero,
    /// A 1 in the first.
    One,
    /// An unknown bit in either.
    Unknown,
    /// Two known bits that differ.
    Opposed,
    /// Two bits of different states.
    Unlike,
}

impl Sought {
    /// A mask of the places of two words where the sought stands.
    fn mask(self, a: Word4, b: Word4) -> u32
        ensures { (i : ℕ) → i < 32
            → bit_at result i ≡ (if is_sought self (bit_in a i) (bit_in b i) then 1 else 0) }
    {
        match self {
            Sought::Zero => without(u32::MAX, a.aval | a.bval),
            Sought::One => without(a.aval, a.bval),
            Sought::Unknown => a.bval | b.bval,
            Sought::Opposed => without(a.aval ^ b.aval, a.bval | b.bval),
            Sought::Unlike => (a.aval ^ b.aval) | (a.bval ^ b.bval),
        }
    }

    /// Whether the sought stands among the bits below the width, from word `first` on.
    pub(crate) fn stands_in(self, a: &[Word4], b: &[Word4], first: u32, width: u32) -> bool
        requires alike { length a.now ≡ length b.now }
        requires few { length a.now ≤ 32 }
        requires covered { width ≤ 32 * length a.now }
        ensures nowhere { IsFalse result → (i : ℕ) → 32 * first ≤ i → i < width
            → is_sought self (held a.now i) (held b.now i) ≡ false }
        ensures somewhere { IsTrue result → (i : ℕ) × (32 * first ≤ i) × (i < width)
            × (is_sought self (held a.now i) (held b.now i) ≡ true) }
    {
        for j in first..a.len() as u32 {
            let used = width.saturating_sub(32 * j).min(32);
            let place = j as usize;
            if self.mask(a[place], b[place]) & ones_between(0, used) != 0 {
                return true;
            }
        }
        false
    }
}
