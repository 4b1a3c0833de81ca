//! Cuts, extensions, parts and concatenations.

ghost use Rattle.std.specs.Prelude.{◌≡◌, ◌+◌, ◌≤◌, ◌++◌, length, IfOk, IsOk};
ghost use Rattle.dpi_bits.specs.Parts.{resized, part, put};

use crate::bit::Bit;
use crate::packed::Packed;
use crate::window::{Window, overlay};
use dpi_ports::NoMemory;
use std::alloc::Global;

impl Packed {
    /// The value at another width: its low bits, or all of them with the top bit above them
    /// where it is signed, an x or z too, and else with 0 (IEEE 1800-2017, 10.7 and 11.8.4).
    /// `NoMemory` comes only past 128 bits.
    pub fn resize(&self, alloc: Global, width: u32, signed: bool) -> Result<Packed, NoMemory>
        requires least { 1 ≤ width }
        requires most { width ≤ 1024 }
        ensures bits { IfOk result (λ r. r ≡ resized width signed self.now) }
        ensures inline { width ≤ 128 → IsOk result }
    {
        self.seen_through(alloc, Window::whole(self.extension(signed)), width)
    }

    /// So many bits from bit `low` on, lowest first, x wherever the value has no bit
    /// (IEEE 1800-2017, 11.5.1). `NoMemory` comes only past 128 bits.
    pub fn part(&self, alloc: Global, low: i64, width: u32) -> Result<Packed, NoMemory>
        requires least { 1 ≤ width }
        requires most { width ≤ 1024 }
        ensures bits { IfOk result (λ r. r ≡ part low width self.now) }
        ensures inline { width ≤ 128 → IsOk result }
    {
        self.seen_through(alloc, Window::from_bit(low, Bit::X), width)
    }

    /// Writes the bits of `value` from bit `low` on, and drops those that fall outside
    /// (IEEE 1800-2017, 11.5.1). It takes no memory.
    pub fn put_part(&mut self, low: i64, value: &Packed)
        ensures { self.new ≡ put low value.now self.old }
    {
        let width = self.width();
        let window = Window::onto_bit(low);
        overlay(
            self.words.as_mut_slice(),
            width,
            value.words.as_slice(),
            value.width,
            window,
        );
    }

    /// The bits of `high` above those of `low` (IEEE 1800-2017, 11.4.12). `NoMemory` comes only
    /// past 128 bits.
    pub fn concat(alloc: Global, high: &Packed, low: &Packed) -> Result<Packed, NoMemory>
        requires { length high.now + length low.now ≤ 1024 }
        ensures bits { IfOk result (λ r. r ≡ low.now ++ high.now) }
        ensures inline { length high.now + length low.now ≤ 128 → IsOk result }
    {
        let mut whole = low.resize(alloc, high.width() + low.width(), false)?;
        whole.put_part(low.width() as i64, high);
        Ok(whole)
    }
}
