//! What one cell of C memory holds.
ghost use Rattle.std.specs.Prelude.{◌≡◌, IsTrue};
ghost use Rattle.c_memory.specs.CellType.{fits};
ghost use Rattle.c_memory.specs.Memory.{with_member};
ghost use Rattle.c_memory.specs.declared.cell_type.CellType.TheVariants.{LogicPair};

use crate::pointer::Pointer;
use dpi_bits::Word4;

/// The value of one cell.
#[derive(Clone, Copy, Debug, PartialEq, Eq)]
pub enum CCell {
    /// A whole number by its bits; those past the cell's size are dropped when it is stored.
    Number(u64),
    /// A pointer.
    Pointer(Pointer),
    /// A handle of an open array, `svOpenArrayHandle`; 0 for null.
    Handle(u64),
    /// A scope, `svScope`; None for null.
    Scope(Option<u32>),
    /// A pair of 32 bits, `svLogicVecVal` (IEEE 1800-2017, H.10.1.2).
    Pair(Word4),
}

impl CCell {
    ghost use Rattle.c_memory.specs.Object.{masked};

    /// The value with these bits of a number, or of each member of a pair, alone.
    pub(crate) fn masked(self, bits: u64) -> CCell
        ensures { result ≡ masked bits self }
    {
        match self {
            CCell::Number(n) => CCell::Number(n & bits),
            CCell::Pair(w) => CCell::Pair(Word4 {
                aval: (u64::from(w.aval) & bits) as u32,
                bval: (u64::from(w.bval) & bits) as u32,
            }),
            other => other,
        }
    }
}

/// The pair after a store into one member: the other one stays, and is 0 where there was no pair.
pub(crate) fn with_member(present: Option<CCell>, aval: bool, value: u32) -> CCell
    ensures typed { IsTrue (fits LogicPair result) }
    ensures value { result ≡ with_member present aval value }
{
    let pair = match present {
        Some(CCell::Pair(pair)) => pair,
        _ => Word4 { aval: 0, bval: 0 },
    };
    CCell::Pair(if aval {
        Word4 {
            aval: value,
            ..pair
        }
    } else {
        Word4 {
            bval: value,
            ..pair
        }
    })
}
