//! The C type of each kind of formal and result (IEEE 1800-2017, H.7.4, H.8 and H.10).
ghost use Rattle.std.specs.Prelude.{◌≡◌};
ghost use Rattle.dpi_boundary.specs.Table as spec;

use c_base::{CBase, CType};
use dpi_shape::{Leaf, Shape};
use sv_shapes::VarKind;
use sv_signatures::Returns;

/// The C type of one cell of this leaf: a whole type, `svBit`, `svLogic`, `svBitVecVal` or
/// `svLogicVecVal` (IEEE 1800-2017, H.7.4, H.10).
fn cell(leaf: Leaf) -> CBase
    ensures { result ≡ spec.cell leaf }
{
    match leaf {
        Leaf::Byte { signed: true } => CBase::Char,
        Leaf::Byte { signed: false } => CBase::UnsignedChar,
        Leaf::Short { signed: true } => CBase::Short,
        Leaf::Short { signed: false } => CBase::UnsignedShort,
        Leaf::Int { signed: true } => CBase::Int,
        Leaf::Int { signed: false } => CBase::UnsignedInt,
        Leaf::Long { signed: true } => CBase::LongLong,
        Leaf::Long { signed: false } => CBase::UnsignedLongLong,
        Leaf::Bit { .. } | Leaf::Logic { .. } => CBase::UnsignedChar,
        Leaf::BitVec { .. } => CBase::UnsignedInt,
        Leaf::LogicVec { .. } => CBase::LogicVec,
    }
}

fn is_vector(leaf: Leaf) -> bool
    ensures { result ≡ spec.is_vector leaf }
{
    matches!(leaf, Leaf::BitVec { .. } | Leaf::LogicVec { .. })
}

/// Whether an input of this shape goes by value: one scalar or one whole number.
fn is_value(shape: Shape) -> bool
    ensures { result ≡ spec.is_value shape }
{
    shape.dims() == 0 && !is_vector(shape.leaf())
}

/// The pointer with so many stars to this base, const or not.
fn pointer(base_const: bool, base: CBase, stars: u8) -> CType
    ensures { result ≡ spec.pointer base_const base stars }
{
    CType {
        base,
        base_const,
        stars,
        inner_const: false,
    }
}

/// The C type of an input of this kind: numbers go by value, vectors and arrays by a pointer to
/// const cells (IEEE 1800-2017, H.8).
pub fn input_type(kind: VarKind) -> CType
    ensures { result ≡ spec.input_type kind }
{
    match kind {
        VarKind::Cells(shape) => {
            if is_value(shape) {
                CType::plain(cell(shape.leaf()))
            } else {
                pointer(true, cell(shape.leaf()), 1)
            }
        }
        VarKind::Text => pointer(true, CBase::Char, 1),
        VarKind::Chandle => pointer(false, CBase::Void, 1),
    }
}

/// The C type of an output or inout of this kind, a pointer (IEEE 1800-2017, H.8).
pub fn output_type(kind: VarKind) -> CType
    ensures { result ≡ spec.output_type kind }
{
    match kind {
        VarKind::Cells(shape) => pointer(false, cell(shape.leaf()), 1),
        VarKind::Text => pointer(true, CBase::Char, 2),
        VarKind::Chandle => pointer(false, CBase::Void, 2),
    }
}

/// The C type of a result of this kind. None exactly for a vector and an array, which aren't small
/// (IEEE 1800-2017, 35.5.5 and H.9).
pub fn result_type(kind: VarKind) -> Option<CType>
    ensures { result ≡ spec.result_type kind }
{
    match kind {
        VarKind::Cells(shape) => {
            if is_value(shape) {
                Some(CType::plain(cell(shape.leaf())))
            } else {
                None
            }
        }
        VarKind::Text => Some(pointer(true, CBase::Char, 1)),
        VarKind::Chandle => Some(pointer(false, CBase::Void, 1)),
    }
}

/// Whether a result is small: void, a whole type of at most 64 bits but `integer`, a scalar, a string
/// or a chandle (IEEE 1800-2017, 35.5.5). A refused type counts as small.
pub fn is_small(returns: Returns) -> bool
    ensures { result ≡ spec.is_small returns }
{
    match returns {
        Returns::Void => true,
        Returns::Value(None) => true,
        Returns::Value(Some(VarKind::Cells(shape))) => is_value(shape),
        Returns::Value(Some(VarKind::Text)) => true,
        Returns::Value(Some(VarKind::Chandle)) => true,
    }
}
