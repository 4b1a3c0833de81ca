//! Which C types a formal and a result may have (IEEE 1800-2017, 35.5.6 and H.7).
ghost use Rattle.std.specs.Prelude.{◌≡◌};
ghost use Rattle.dpi_boundary.specs.Fits as spec;

use crate::table::{input_type, output_type, result_type};
use c_base::{CBase, CType};
use dpi_shape::Leaf;
use sv_shapes::{FormalKind, VarKind};
use sv_signatures::Returns;
use sv_tree::Direction;

pub(crate) fn agree(a: bool, b: bool) -> bool
    ensures { result ≡ spec.agree a b }
{
    if a { b } else { !b }
}

/// Whether two types are the same, each const aside.
fn same_but_const(a: CType, b: CType) -> bool
    ensures { result ≡ spec.same_but_const a b }
{
    a.stars == b.stars && a.base == b.base
}

/// Whether two types are the same (ISO C 6.2.7).
fn same_type(a: CType, b: CType) -> bool
    ensures { result ≡ spec.same_type a b }
{
    let bases = agree(a.base_const, b.base_const);
    let inner = agree(a.inner_const, b.inner_const);
    same_but_const(a, b) && bases && inner
}

/// Whether an element is a signed `byte`.
fn is_byte(kind: VarKind) -> bool
    ensures { result ≡ spec.is_byte kind }
{
    match kind {
        VarKind::Cells(shape) => matches!(shape.leaf(), Leaf::Byte { signed: true }),
        VarKind::Text => false,
        VarKind::Chandle => false,
    }
}

/// The type as it counts for this kind: `unsigned char` stands for the `char` of a `byte`.
fn counted(kind: VarKind, of: CType) -> CType
    ensures { result ≡ spec.counted kind of }
{
    if is_byte(kind) && of.base == CBase::UnsignedChar {
        CType {
            base: CBase::Char,
            base_const: of.base_const,
            stars: of.stars,
            inner_const: of.inner_const,
        }
    } else {
        of
    }
}

/// Whether a parameter of this type can stand for an open array: a `svOpenArrayHandle`, const or
/// not, in each direction (IEEE 1800-2017, H.12).
fn is_handle(of: CType) -> bool
    ensures { result ≡ spec.is_handle of }
{
    of.stars == 0 && of.base == CBase::Handle
}

/// Whether a parameter of this type can stand for a formal of this direction and kind: the type is
/// that of the table. On an input each const may be left out or added; `byte` takes `char` and
/// `unsigned char` (IEEE 1800-2017, 35.5.6, H.7 and H.8).
pub fn fits_variable(direction: Direction, kind: VarKind, of: CType) -> bool
    ensures { result ≡ spec.fits_variable direction kind of }
{
    match direction {
        Direction::Input => same_but_const(counted(kind, of), input_type(kind)),
        Direction::Output => same_type(counted(kind, of), output_type(kind)),
        Direction::Inout => same_type(counted(kind, of), output_type(kind)),
    }
}

/// Whether a parameter of this type can stand for a formal of an import of this direction and kind:
/// an open array is a `svOpenArrayHandle`, const or not, in each direction; see `fits_variable` for
/// the others (IEEE 1800-2017, 35.5.6 and H.12).
pub fn fits_formal(direction: Direction, formal: FormalKind, of: CType) -> bool
    ensures { result ≡ spec.fits_formal direction formal of }
{
    match formal {
        FormalKind::Sized(kind) => fits_variable(direction, kind, of),
        FormalKind::Open { .. } => is_handle(of),
    }
}

/// Whether this type is that of a value of this kind as a result. One that isn't small has none, and
/// another rule names it.
fn fits_value(kind: VarKind, of: CType) -> bool
    ensures { result ≡ spec.fits_value kind of }
{
    match result_type(kind) {
        Some(wanted) => same_type(counted(kind, of), wanted),
        None => true,
    }
}

/// Whether this type is that of a value of this kind; a refused kind has each type.
fn fits_known_value(kind: Option<VarKind>, of: CType) -> bool
    ensures { result ≡ spec.fits_known_value kind of }
{
    match kind {
        Some(kind) => fits_value(kind, of),
        None => true,
    }
}

/// Whether a C function with this result can stand for a subroutine that gives this: `int` for a
/// task, `void` for a void function, else the type of the table. `byte` takes `char` and `unsigned
/// char`. A result that is refused or isn't small fits each type (IEEE 1800-2017, 35.5.5 and 35.8).
pub fn fits_result(returns: Returns, is_task: bool, of: CType) -> bool
    ensures { result ≡ spec.fits_result returns is_task of }
{
    if is_task {
        return same_type(of, CType::plain(CBase::Int));
    }
    match returns {
        Returns::Void => same_type(of, CType::plain(CBase::Void)),
        Returns::Value(kind) => fits_known_value(kind, of),
    }
}
