//! Whole numbers as a sign and a size, in which signed division and comparison are done.

ghost use Rattle.std.specs.Prelude.{◌≡◌, ◌≢◌, ◌<◌, true, int_lt, int_div, int_rem};
ghost use Rattle.dpi_bits.specs.Signed.{whole, IsProper};

/// A whole number by its sign and its size.
#[derive(Clone, Copy, Debug, Drop)]
pub(crate) struct Signed {
    /// Whether the number is below 0.
    pub(crate) negative: bool,
    /// Its distance from 0.
    pub(crate) size: u64,
}

impl Signed {
    /// The quotient, rounded toward zero.
    pub(crate) fn over(self, other: Signed) -> Signed
        requires left { IsProper self }
        requires right { IsProper other }
        requires divisor { other.size ≢ 0 }
        ensures { whole result ≡ int_div (whole self) (whole other) }
    {
        let negative = if other.negative {
            !self.negative
        } else {
            self.negative
        };
        Signed {
            negative,
            size: self.size / other.size,
        }
    }

    /// The remainder, which has the sign of the first number.
    pub(crate) fn left_by(self, other: Signed) -> Signed
        requires left { IsProper self }
        requires right { IsProper other }
        requires divisor { other.size ≢ 0 }
        ensures { whole result ≡ int_rem (whole self) (whole other) }
    {
        Signed {
            negative: self.negative,
            size: self.size % other.size,
        }
    }

    /// Whether this number is the lesser one.
    pub(crate) fn is_below(self, other: Signed) -> bool
        requires left { IsProper self }
        requires right { IsProper other }
        ensures { result ≡ int_lt (whole self) (whole other) }
    {
        match (self.negative, other.negative) {
            (false, false) => self.size < other.size,
            (false, true) => false,
            (true, false) => true,
            (true, true) => other.size < self.size,
        }
    }
}
