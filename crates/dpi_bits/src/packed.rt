//! The packed value: its words, and the calls that read or write one bit or word.

ghost use Rattle.std.specs.Prelude.{◌≡◌, ◌+◌, ◌*◌, ◌<◌, ◌≤◌, ℕ, pos, map, length, replicate, slice_index_or, slice_set, IfOk, IsOk, IsTrue, IsFalse, true, false};
ghost use Rattle.dpi_bits.specs.declared.bit.Bit.TheVariants.{X, Zero};
ghost use Rattle.dpi_bits.specs.Lists.{known, two_state, word_bits};
ghost use Rattle.dpi_bits.specs.Numbers.{word_of};
ghost use Rattle.dpi_bits.specs.Parts.{put, extension, spread};
ghost use Rattle.dpi_bits.specs.Sought.{is_sought};

use crate::bit::Bit;
use crate::sought::Sought;
use crate::window::{Window, gather, overlay};
use crate::word::{Word4, clear_unknown, fitting, ones_between};
use dpi_ports::NoMemory;
use smallvec::SmallVec;
use std::alloc::Global;
use std::marker::Model;

/// A list of 1 to 1,024 bits, bit 0 first (IEEE 1800-2017, 7.4.1). Up to 128 bits stand in the
/// value itself, more in an allocation.
#[derive(Debug, Drop)]
pub struct Packed {
    pub(crate) width: u32,
    pub(crate) words: SmallVec<Word4, 4>,
}

impl Model for Packed {
    ghost use Rattle.std.specs.Prelude.{List};
    ghost use Rattle.dpi_bits.specs.declared.bit.Bit.{Bit};
    ghost use Rattle.dpi_bits.specs.Words.{bits_of};
    ghost use Rattle.dpi_bits.specs.Layout.{IsCanonical};

    ghost Value = { List Bit };

    ghost view = { λ p. bits_of p.width p.words.items };

    ghost invariant = { λ p. IsCanonical p.width p.words.items };
}

impl Packed {
    /// So many equal bits. `NoMemory` comes only past 128 bits.
    pub fn filled(alloc: Global, width: u32, bit: Bit) -> Result<Packed, NoMemory>
        requires least { 1 ≤ width }
        requires most { width ≤ 1024 }
        ensures bits { IfOk result (λ r. r ≡ replicate width bit) }
        ensures inline { width ≤ 128 → IsOk result }
    {
        gather(alloc, &[], 0, Window::whole(bit), width)
    }

    /// The number of bits, 1 to 1,024.
    pub fn width(&self) -> u32
        ensures bits { result ≡ length self.now }
        ensures least { 1 ≤ result }
        ensures most { result ≤ 1024 }
    {
        self.width
    }

    /// Bit i, where i is below the width.
    pub fn bit(&self, i: u32) -> Bit
        requires { i < length self.now }
        ensures { result ≡ slice_index_or self.now i X }
    {
        self.words[(i / 32) as usize].bit(i % 32)
    }

    /// Writes bit i, where i is below the width. It takes no memory.
    pub fn set_bit(&mut self, i: u32, bit: Bit)
        requires { i < length self.old }
        ensures { self.new ≡ slice_set self.old i bit }
    {
        let place = (i / 32) as usize;
        let mask = ones_between(i % 32, i % 32 + 1);
        self.words[place] = Word4::filled(bit).choose(mask, self.words[place]);
    }

    /// Word j, which holds bits 32 j to 32 j + 31; its bits past the width are 0
    /// (IEEE 1800-2017, H.10.1.2). The value has a word for each 32 bits that it begins.
    pub fn word(&self, j: u32) -> Word4
        requires { 32 * j < length self.now }
        ensures { result ≡ word_of self.now j }
    {
        fitting(self.words[j as usize])
    }

    /// Writes word j. Bits of the word past the width are dropped. It takes no memory.
    pub fn set_word(&mut self, j: u32, word: Word4)
        requires { 32 * j < length self.old }
        ensures { self.new ≡ put (pos (32 * j)) (word_bits word) self.old }
    {
        let width = self.width();
        let window = Window {
            start: 0,
            back: 32 * j,
            outside: Bit::Zero,
        };
        overlay(self.words.as_mut_slice(), width, &[word], 32, window);
    }

    /// Turns x and z into 0, as a value of two states has it (IEEE 1800-2017, 6.3.1). It takes
    /// no memory.
    pub fn to_two_state(&mut self)
        ensures { self.new ≡ map two_state self.old }
    {
        clear_unknown(self.words.as_mut_slice());
    }

    /// The bit with which the value is extended: its top bit where it is signed, else 0.
    pub(crate) fn extension(&self, signed: bool) -> Bit
        ensures { result ≡ extension signed self.now }
    {
        if signed {
            self.bit(self.width() - 1)
        } else {
            Bit::Zero
        }
    }

    /// What the window takes of the bits, as many as the width.
    pub(crate) fn seen_through(
        &self,
        alloc: Global,
        window: Window,
        width: u32,
    ) -> Result<Packed, NoMemory>
        requires start { window.start ≤ 1024 }
        requires back { window.back ≤ 1024 }
        requires least { 1 ≤ width }
        requires most { width ≤ 1024 }
        ensures bits { IfOk result
            (λ r. r ≡ spread self.now window.start window.back window.outside width) }
        ensures short { length self.now ≤ 1024 }
        ensures inline { width ≤ 128 → IsOk result }
    {
        gather(alloc, self.words.as_slice(), self.width, window, width)
    }

    /// The same value once more.
    pub(crate) fn copied(&self, alloc: Global) -> Result<Packed, NoMemory>
        ensures bits { IfOk result (λ r. r ≡ self.now) }
        ensures inline { length self.now ≤ 128 → IsOk result }
    {
        self.seen_through(alloc, Window::whole(Bit::Zero), self.width())
    }

    /// Whether no bit is x or z.
    pub fn known(&self) -> bool
        ensures { result ≡ known self.now }
    {
        !self.stands(Sought::Unknown, self, 0)
    }

    /// Whether the sought stands among the bits of both values from word `first` on.
    pub(crate) fn stands(&self, sought: Sought, other: &Packed, first: u32) -> bool
        requires { length self.now ≡ length other.now }
        ensures nowhere { IsFalse result → (i : ℕ) → 32 * first ≤ i → i < length self.now
            → is_sought sought (slice_index_or self.now i Zero) (slice_index_or other.now i Zero)
            ≡ false }
        ensures somewhere { IsTrue result → (i : ℕ) × (32 * first ≤ i)
            × (i < length self.now)
            × (is_sought sought (slice_index_or self.now i Zero) (slice_index_or other.now i Zero)
            ≡ true) }
    {
        sought.stands_in(
            self.words.as_slice(),
            other.words.as_slice(),
            first,
            self.width,
        )
    }
}
