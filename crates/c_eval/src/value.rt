//! Typed values.
ghost use Rattle.std.specs.Prelude.{◌≡◌, ◌<◌};
ghost use Rattle.c_eval.specs.Whole.{size, value_of, bits_of};
ghost use Rattle.c_eval.specs.Values.{number, truth, typed, bits_in, is_set, same, same_pointer};
ghost use Rattle.c_eval.specs.Values.{same_scope};

use crate::trap::OpTrap;
use crate::whole::{bits_of, value_of};
use c_base::{CBase, CType};
use c_memory::{CCell, Pointer};

/// A value of C with its type. A whole number stands in its cell by its bits at the width of the
/// type, in two's complement, with no bit past the width.
#[derive(Clone, Copy, Debug, PartialEq, Eq)]
pub struct CValue {
    /// The type.
    pub of: CType,
    /// The value.
    pub cell: CCell,
}

/// The number of a whole type by its bits.
pub(crate) fn number(of: CBase, bits: u64) -> CValue
    ensures { result ≡ number of bits }
{
    CValue {
        of: CType::plain(of),
        cell: CCell::Number(bits),
    }
}

/// What a comparison or a logical operator gives: an `int` of 1 or 0 (ISO C 6.5.8).
pub(crate) fn truth(holds: bool) -> CValue
    ensures { result ≡ truth holds }
{
    number(CBase::Int, u64::from(holds))
}

/// The number of a whole type by its bits, or the trap in their place.
pub(crate) fn typed(of: CBase, bits: Result<u64, OpTrap>) -> Result<CValue, OpTrap>
    ensures { result ≡ typed of bits }
{
    match bits {
        Ok(bits) => Ok(number(of, bits)),
        Err(trap) => Err(trap),
    }
}

/// The bits of the number at another type (ISO C 6.3.1.3).
pub(crate) fn bits_at(from: CBase, to: CBase, bits: u64) -> u64
    ensures value { result ≡ bits_of to (value_of from bits) }
    ensures fits { result < size to }
{
    bits_of(to, value_of(from, bits))
}

/// The bits of a number; 0 for another cell.
pub(crate) fn bits_in(cell: CCell) -> u64
    ensures { result ≡ bits_in cell }
{
    match cell {
        CCell::Number(bits) => bits,
        _ => 0,
    }
}

/// Whether the cell is true as a condition: neither 0 nor null (ISO C 6.5.3.3).
pub(crate) fn is_set(cell: CCell) -> bool
    ensures { result ≡ is_set cell }
{
    match cell {
        CCell::Number(bits) => bits != 0,
        CCell::Pointer(p) => !p.is_null(),
        CCell::Handle(serial) => serial != 0,
        CCell::Scope(scope) => scope.is_some(),
        CCell::Pair(_) => true,
    }
}

/// Whether two pointers are equal: both null, or to one place of one object (ISO C 6.5.9).
fn same_pointer(p: Pointer, q: Pointer) -> bool
    ensures { result ≡ same_pointer p q }
{
    match (p, q) {
        (Pointer::Null, Pointer::Null) => true,
        (
            Pointer::At { serial, offset },
            Pointer::At {
                serial: other,
                offset: place,
            },
        ) => serial == other && offset == place,
        _ => false,
    }
}

/// Whether two scopes are equal.
fn same_scope(a: Option<u32>, b: Option<u32>) -> bool
    ensures { result ≡ same_scope a b }
{
    match (a, b) {
        (None, None) => true,
        (Some(a), Some(b)) => a == b,
        _ => false,
    }
}

/// Whether two cells that aren't both numbers are equal; of two kinds, whether both are null or 0.
pub(crate) fn same(a: CCell, b: CCell) -> bool
    ensures { result ≡ same a b }
{
    match (a, b) {
        (CCell::Pointer(p), CCell::Pointer(q)) => same_pointer(p, q),
        (CCell::Handle(m), CCell::Handle(n)) => m == n,
        (CCell::Scope(s), CCell::Scope(t)) => same_scope(s, t),
        _ => !is_set(a) && !is_set(b),
    }
}
