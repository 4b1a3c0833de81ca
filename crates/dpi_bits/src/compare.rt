//! Comparisons (IEEE 1800-2017, 11.4.4 and 11.4.5).

ghost use Rattle.std.specs.Prelude.{◌≡◌, ◌↔◌, length, IsTrue};
ghost use Rattle.dpi_bits.specs.Compare.{equal};

use crate::bit::Bit;
use crate::packed::Packed;
use crate::sought::Sought;

impl Packed {
    /// `==` of values of one width: 0 where two known bits differ, else x where a bit is
    /// unknown, else 1 (IEEE 1800-2017, 11.4.5).
    pub fn eq4(&self, other: &Packed) -> Bit
        requires { length self.now ≡ length other.now }
        ensures { result ≡ equal self.now other.now }
    {
        if self.stands(Sought::Opposed, other, 0) {
            Bit::Zero
        } else if self.stands(Sought::Unknown, other, 0) {
            Bit::X
        } else {
            Bit::One
        }
    }

    /// `===` of values of one width: whether all bits have the same states
    /// (IEEE 1800-2017, 11.4.5).
    pub fn case_eq(&self, other: &Packed) -> bool
        requires { length self.now ≡ length other.now }
        ensures { IsTrue result ↔ (self.now ≡ other.now) }
    {
        !self.stands(Sought::Unlike, other, 0)
    }
}
