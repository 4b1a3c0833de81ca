//! A declared range: which indices it has, and in which direction.
ghost use Rattle.std.specs.Prelude.{◌≡◌, ℕ, ◌≤◌, ◌^◌, pos, ◌+ℤ◌, ◌<ℤ◌, ◌↔◌, IsTrue, IsSome, IfSome};
ghost use Rattle.dpi_shape.specs.Range.{lower, upper, size, IsIndex, IsAlike};

/// A range as it is declared, `[left:right]`, with either bound the greater
/// (IEEE 1800-2017, 7.4).
#[derive(Clone, Copy, Debug, PartialEq, Eq)]
pub struct Range {
    /// The bound that is written first.
    pub left: i32,
    /// The bound that is written second.
    pub right: i32,
}

impl Range {
    /// The lower of the two bounds, `svLow` (IEEE 1800-2017, H.12.2).
    pub fn lower(self) -> i32
        ensures { result ≡ lower self }
    {
        self.left.min(self.right)
    }

    /// The higher of the two bounds, `svHigh` (IEEE 1800-2017, H.12.2).
    pub fn upper(self) -> i32
        ensures { result ≡ upper self }
    {
        self.left.max(self.right)
    }

    /// How many indices the range has, from 1 to 2 to the 32nd (IEEE 1800-2017, H.12.2).
    pub fn size(self) -> u64
        ensures value { result ≡ size self }
        ensures bound { result ≤ 2 ^ 32 }
    {
        u64::from(self.left.abs_diff(self.right)) + 1
    }

    /// Whether the indices rise from the left bound to the right one.
    pub fn is_rising(self) -> bool
        ensures { IsTrue result ↔ (self.left <ℤ self.right) }
    {
        self.left < self.right
    }

    /// The element that the index names, counted from 0 in natural order, or None where the index
    /// is outside. Natural order is by rising index, however the range was declared
    /// (IEEE 1800-2017, H.7).
    pub fn element(self, index: i32) -> Option<u32>
        ensures inside { IsSome result ↔ IsIndex self index }
        ensures value { IfSome result (λ k. lower self +ℤ pos k ≡ index) }
    {
        if self.lower() <= index && index <= self.upper() {
            Some(index.abs_diff(self.lower()))
        } else {
            None
        }
    }

    /// Whether two ranges have as many indices and, where they are two or more, one direction.
    pub fn is_alike(self, other: Range) -> bool
        ensures { IsTrue result ↔ IsAlike self other }
    {
        self.size() == other.size() && self.is_rising() == other.is_rising()
    }
}
