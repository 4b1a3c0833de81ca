//! The packed part of a type: what one element is.
ghost use Rattle.std.specs.Prelude.{◌≡◌, ℕ, ◌<◌, ◌≤◌};
ghost use Rattle.dpi_shape.specs.Leaf.{width, is_four_state, element_cells, cell_bytes, used_bits};
ghost use Rattle.dpi_shape.specs.Leaf.{mask};

use super::range::Range;

/// The packed part of a type (IEEE 1800-2017, 6.11 and 7.4). Each variant says whether it is
/// signed; a leaf with a range is a vector, at one bit too.
#[derive(Clone, Copy, Debug, PartialEq, Eq)]
pub enum Leaf {
    /// One bit of two states: `bit`.
    Bit { signed: bool },
    /// One bit of four states: `logic` and `reg`.
    Logic { signed: bool },
    /// 8 bits of two states: `byte`.
    Byte { signed: bool },
    /// 16 bits of two states: `shortint`.
    Short { signed: bool },
    /// 32 bits of two states: `int`.
    Int { signed: bool },
    /// 64 bits of two states: `longint`.
    Long { signed: bool },
    /// A vector of two states: `bit` with a packed range.
    BitVec { range: Range, signed: bool },
    /// A vector of four states: `logic` or `reg` with a packed range, and `integer`.
    LogicVec { range: Range, signed: bool },
}

impl Leaf {
    /// The bits of one element (IEEE 1800-2017, 6.11).
    pub fn width(self) -> u64
        ensures { result ≡ width self }
    {
        match self {
            Leaf::Bit { .. } | Leaf::Logic { .. } => 1,
            Leaf::Byte { .. } => 8,
            Leaf::Short { .. } => 16,
            Leaf::Int { .. } => 32,
            Leaf::Long { .. } => 64,
            Leaf::BitVec { range, .. } | Leaf::LogicVec { range, .. } => range.size(),
        }
    }

    /// Whether a bit has four states, 0, 1, x and z (IEEE 1800-2017, 6.3.1).
    pub fn is_four_state(self) -> bool
        ensures { result ≡ is_four_state self }
    {
        matches!(self, Leaf::Logic { .. } | Leaf::LogicVec { .. })
    }

    /// The cells of one element: one for each started 32 bits of a vector, else one
    /// (IEEE 1800-2017, H.7.7 and H.10.1.2).
    pub fn cells(self) -> u64
        ensures { result ≡ element_cells self }
    {
        match self {
            Leaf::BitVec { range, .. } | Leaf::LogicVec { range, .. } => range.size().div_ceil(32),
            _ => 1,
        }
    }

    /// The bytes of one cell in C: those of `char`, `short`, `int` and `long long`, of `svBit` and
    /// `svLogic`, of `svBitVecVal`, and of the pair `svLogicVecVal` (IEEE 1800-2017, H.7.4, H.10).
    pub fn cell_bytes(self) -> u32
        ensures { result ≡ cell_bytes self }
    {
        match self {
            Leaf::Bit { .. } | Leaf::Logic { .. } | Leaf::Byte { .. } => 1,
            Leaf::Short { .. } => 2,
            Leaf::Int { .. } | Leaf::BitVec { .. } => 4,
            Leaf::Long { .. } | Leaf::LogicVec { .. } => 8,
        }
    }

    /// The used bits of a cell of an element, with the cells counted from 0: all bits of a whole
    /// type, the lowest one of a scalar, and in a vector 32 bits, or what is left in the last word
    /// (IEEE 1800-2017, H.7.7). In four states they are those of the aval and of the bval bits.
    pub fn mask(self, cell: u64) -> u64
        requires { cell < element_cells self }
        ensures { result ≡ mask self cell }
    {
        match self {
            Leaf::Bit { .. } | Leaf::Logic { .. } => 1,
            Leaf::Byte { .. } => 0xff,
            Leaf::Short { .. } => 0xffff,
            Leaf::Int { .. } => 0xffff_ffff,
            Leaf::Long { .. } => u64::MAX,
            Leaf::BitVec { range, .. } | Leaf::LogicVec { range, .. } => {
                let used = (range.size() - 32 * cell).min(32);
                (1 << used) - 1
            }
        }
    }
}
