//! The types of cells.
ghost use Rattle.std.specs.Prelude.{◌≡◌, ◌↔◌, IsTrue};
ghost use Rattle.c_memory.specs.CellType.{number_bytes, same_type, IsCellType, fits, all_bits};
ghost use Rattle.c_memory.specs.CellType.{zero_of, type_of_leaf};

use crate::ccell::CCell;
use crate::pointer::Pointer;
use dpi_bits::Word4;
use dpi_shape::Leaf;

/// The type of the cells of an object.
#[derive(Clone, Copy, Debug, PartialEq, Eq)]
pub enum CellType {
    /// A whole number of 1, 2, 4 or 8 bytes.
    Number { bytes: u8, signed: bool },
    /// A scalar `bit`: `svBit`, which C accesses as an unsigned char.
    Bit,
    /// A scalar `logic`: `svLogic`, which C accesses as an unsigned char, aval + 2 bval.
    Logic,
    /// A pointer.
    Pointer,
    /// A handle of an open array.
    Handle,
    /// A scope.
    Scope,
    /// A pair of aval and bval bits: `svLogicVecVal`.
    LogicPair,
}

impl CellType {
    /// The bytes of a number of this type, or None where it is none.
    fn number_bytes(self) -> Option<u8>
        ensures { result ≡ number_bytes self }
    {
        match self {
            CellType::Number { bytes, .. } => Some(bytes),
            CellType::Bit | CellType::Logic => Some(1),
            _ => None,
        }
    }

    /// Whether a cell of the one type is accessed by the other: numbers by their bytes, signedness
    /// aside, the others by themselves alone.
    pub fn is_same(self, other: CellType) -> bool
        ensures { result ≡ same_type self other }
    {
        match (self, other) {
            (CellType::Pointer, CellType::Pointer)
            | (CellType::Handle, CellType::Handle)
            | (CellType::Scope, CellType::Scope)
            | (CellType::LogicPair, CellType::LogicPair) => true,
            _ => match (self.number_bytes(), other.number_bytes()) {
                (Some(m), Some(n)) => m == n,
                _ => false,
            },
        }
    }

    /// Whether a number of this type has 1, 2, 4 or 8 bytes.
    pub fn is_sized(self) -> bool
        ensures { IsTrue result ↔ IsCellType self }
    {
        !matches!(self, CellType::Number { bytes, .. } if !matches!(bytes, 1 | 2 | 4 | 8))
    }

    /// Whether the value is one of this type: a number for a number, `Bit` or `Logic`.
    pub fn fits(self, cell: CCell) -> bool
        ensures { result ≡ fits self cell }
    {
        match cell {
            CCell::Number(_) => self.number_bytes().is_some(),
            CCell::Pointer(_) => self.is_same(CellType::Pointer),
            CCell::Handle(_) => self.is_same(CellType::Handle),
            CCell::Scope(_) => self.is_same(CellType::Scope),
            CCell::Pair(_) => self.is_same(CellType::LogicPair),
        }
    }

    /// All bits of a number, or of one member of a pair.
    pub(crate) fn all_bits(self) -> u64
        requires { IsCellType self }
        ensures { result ≡ all_bits self }
    {
        match self {
            CellType::Number { bytes: 1, .. } | CellType::Bit | CellType::Logic => 0xff,
            CellType::Number { bytes: 2, .. } => 0xffff,
            CellType::Number { bytes: 4, .. } | CellType::LogicPair => 0xffff_ffff,
            CellType::Number { .. } => u64::MAX,
            CellType::Pointer | CellType::Handle | CellType::Scope => 0,
        }
    }

    /// The zero of this type.
    pub(crate) fn zero(self) -> CCell
        ensures { result ≡ zero_of self }
    {
        match self {
            CellType::Number { .. } | CellType::Bit | CellType::Logic => CCell::Number(0),
            CellType::Pointer => CCell::Pointer(Pointer::Null),
            CellType::Handle => CCell::Handle(0),
            CellType::Scope => CCell::Scope(None),
            CellType::LogicPair => CCell::Pair(Word4 { aval: 0, bval: 0 }),
        }
    }

    /// The type of C's cells for elements of this leaf (IEEE 1800-2017, H.7.4, H.10).
    pub(crate) fn of_leaf(leaf: Leaf) -> CellType
        ensures typed { IsCellType result }
        ensures value { result ≡ type_of_leaf leaf }
    {
        match leaf {
            Leaf::Bit { .. } => CellType::Bit,
            Leaf::Logic { .. } => CellType::Logic,
            Leaf::Byte { signed } => CellType::Number { bytes: 1, signed },
            Leaf::Short { signed } => CellType::Number { bytes: 2, signed },
            Leaf::Int { signed } => CellType::Number { bytes: 4, signed },
            Leaf::Long { signed } => CellType::Number { bytes: 8, signed },
            Leaf::BitVec { .. } => CellType::Number {
                bytes: 4,
                signed: false,
            },
            Leaf::LogicVec { .. } => CellType::LogicPair,
        }
    }
}
