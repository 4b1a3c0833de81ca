//! Conversions.
ghost use Rattle.std.specs.Prelude.{◌≡◌};
ghost use Rattle.c_eval.specs.Convert.{as_pointer, as_handle, as_scope, as_other, as_type};

use crate::value::{CValue, bits_at, bits_in};
use c_base::{CBase, CType};
use c_memory::{CCell, Pointer};

/// The cell as a pointer: itself, or null for 0.
fn as_pointer(cell: CCell) -> CCell
    ensures { result ≡ as_pointer cell }
{
    match cell {
        CCell::Pointer(p) => CCell::Pointer(p),
        _ => CCell::Pointer(Pointer::Null),
    }
}

/// The cell as a handle: itself, or null for 0 and the null pointer.
fn as_handle(cell: CCell) -> CCell
    ensures { result ≡ as_handle cell }
{
    match cell {
        CCell::Handle(serial) => CCell::Handle(serial),
        _ => CCell::Handle(0),
    }
}

/// The cell as a scope: itself, or null for 0 and the null pointer.
fn as_scope(cell: CCell) -> CCell
    ensures { result ≡ as_scope cell }
{
    match cell {
        CCell::Scope(scope) => CCell::Scope(scope),
        _ => CCell::Scope(None),
    }
}

/// The cell at a type that isn't a whole one.
fn as_other(to: CType, cell: CCell) -> CCell
    ensures { result ≡ as_other to cell }
{
    if to.is_pointer() {
        return as_pointer(cell);
    }
    match to.base {
        CBase::Handle => as_handle(cell),
        CBase::Scope => as_scope(cell),
        _ => cell,
    }
}

/// The value at another type. A number is taken modulo 2 to the width, so that one that a signed
/// type doesn't have wraps (ISO C 6.3.1.3). A pointer stays, and 0 and NULL become the null of a
/// pointer, a handle or a scope (ISO C 6.3.2.3). A pair stays, and so does a value that is cast to
/// `void`. It can't fail.
pub fn convert(a: &CValue, to: CType) -> CValue
    ensures of { result.of ≡ to }
    ensures cell { result.cell ≡ as_type a.now.of to a.now.cell }
{
    let cell = if to.is_number() {
        CCell::Number(bits_at(a.of.base, to.base, bits_in(a.cell)))
    } else {
        as_other(to, a.cell)
    };
    CValue { of: to, cell }
}
