//! Shifts (IEEE 1800-2017, 11.4.10).

ghost use Rattle.std.specs.Prelude.{◌≡◌, ◌≤◌, true, length, min, IfOk, IsOk};
ghost use Rattle.dpi_bits.specs.Arithmetic.{shift_left, shift_right};
ghost use Rattle.dpi_bits.specs.Lists.{known};
ghost use Rattle.dpi_bits.specs.Numbers.{number};

use crate::bit::Bit;
use crate::packed::Packed;
use crate::window::Window;
use dpi_ports::NoMemory;
use std::alloc::Global;

impl Packed {
    /// `<<`: the bits raised by the number that all bits of `by` write, 0 below; all x where a
    /// bit of `by` is unknown (IEEE 1800-2017, 11.4.10). `NoMemory` comes only past 128 bits.
    pub fn shl(&self, alloc: Global, by: &Packed) -> Result<Packed, NoMemory>
        ensures bits { IfOk result (λ r. r ≡ shift_left self.now by.now) }
        ensures inline { length self.now ≤ 128 → IsOk result }
    {
        if !by.known() {
            return Packed::filled(alloc, self.width(), Bit::X);
        }
        let window = Window {
            start: 0,
            back: by.shift_count(),
            outside: Bit::Zero,
        };
        self.seen_through(alloc, window, self.width())
    }

    /// `>>`, or `>>>` where it is arithmetic: the bits lowered by the number that all bits of
    /// `by` write, with 0 above, or with the top bit, an x or z too; all x where a bit of `by`
    /// is unknown (IEEE 1800-2017, 11.4.10). `NoMemory` comes only past 128 bits.
    pub fn shr(&self, alloc: Global, by: &Packed, arithmetic: bool) -> Result<Packed, NoMemory>
        ensures bits { IfOk result (λ r. r ≡ shift_right arithmetic self.now by.now) }
        ensures inline { length self.now ≤ 128 → IsOk result }
    {
        if !by.known() {
            return Packed::filled(alloc, self.width(), Bit::X);
        }
        let window = Window {
            start: by.shift_count(),
            back: 0,
            outside: self.extension(arithmetic),
        };
        self.seen_through(alloc, window, self.width())
    }

    /// The number of known bits, at most 1,024, which leaves no bit of any value in place.
    fn shift_count(&self) -> u32
        requires { known self.now ≡ true }
        ensures { result ≡ min (number self.now) 1024 }
    {
        match self.to_u64() {
            Some(count) => count.min(1024) as u32,
            None => 1024,
        }
    }
}
