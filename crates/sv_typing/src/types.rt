//! Types of expressions (IEEE 1800-2017, 11.6 to 11.8).
ghost use Rattle.std.specs.Prelude.{◌≡◌, ◌+◌};
ghost use Rattle.dpi_shape.specs.Shape.{leaf_of};
ghost use Rattle.sv_typing.specs.Types as spec;

use dpi_rules::Violation;
use dpi_shape::{Leaf, Range, Shape};
use sv_shapes::VarKind;

/// The type of an expression by itself, whatever stands around it.
#[derive(Clone, Copy, Debug, PartialEq, Eq)]
pub enum ExprType {
    /// Packed bits: how many, whether they are signed, and whether one of them can be x or z.
    Bits {
        width: u32,
        signed: bool,
        four: bool,
    },
    /// A string (6.16).
    Text,
    /// A chandle, `null` too (6.14).
    Chandle,
    /// An unpacked array (7.4.2): what the first `taken` indices of a variable of this shape name,
    /// fewer than it has dimensions.
    Array {
        shape: Shape,
        taken: u32,
    },
    /// What a void function or a task gives (13.4.1).
    Void,
}

/// An expression that violates nothing by itself.
#[derive(Clone, Copy, Debug, PartialEq, Eq)]
pub struct Operand {
    /// Its type.
    pub of: ExprType,
    /// The least violation of rule 16 among its operators that a wider context reaches: one of more
    /// than 64 bits violates it.
    pub reach: Option<Violation>,
}

/// Whether a leaf has values below 0.
pub fn is_signed(leaf: Leaf) -> bool
    ensures { result ≡ spec.is_signed leaf }
{
    match leaf {
        Leaf::Bit { signed }
        | Leaf::Logic { signed }
        | Leaf::Byte { signed }
        | Leaf::Short { signed }
        | Leaf::Int { signed }
        | Leaf::Long { signed }
        | Leaf::BitVec { signed, .. }
        | Leaf::LogicVec { signed, .. } => signed,
    }
}

/// Whether so many indices of a variable of this shape leave a dimension.
pub(crate) fn is_array(shape: &Shape, taken: u32) -> bool
    ensures { result ≡ spec.is_array shape.now taken }
{
    taken < shape.dims()
}

/// The type of one element.
fn element_type(shape: &Shape) -> ExprType
    ensures { result ≡ spec.element_type (leaf_of shape.now) }
{
    ExprType::Bits {
        width: shape.width(),
        signed: is_signed(shape.leaf()),
        four: shape.leaf().is_four_state(),
    }
}

/// The type of what the first `taken` indices of a variable of this shape name: an array of the
/// dimensions that are left, or packed bits where none is (7.4.6).
pub fn part_type(shape: &Shape, taken: u32) -> ExprType
    ensures { result ≡ spec.part_type shape.now taken }
{
    if is_array(shape, taken) {
        ExprType::Array {
            shape: *shape,
            taken,
        }
    } else {
        element_type(shape)
    }
}

/// The range of a dimension that so many indices leave, counted from 0.
pub fn range_left(shape: &Shape, taken: u32, step: u32) -> Option<Range>
    ensures { result ≡ spec.range_left shape.now taken step }
{
    if taken < shape.dims() && step < shape.dims() - taken {
        shape.range(taken + step + 1)
    } else {
        None
    }
}

/// The type of what one index more names.
pub fn inner_type(shape: &Shape, taken: u32) -> ExprType
    ensures { result ≡ spec.part_type shape.now (taken + 1) }
{
    if is_array(shape, taken) {
        part_type(shape, taken + 1)
    } else {
        element_type(shape)
    }
}

/// The type of a whole variable of this kind.
pub fn kind_type(kind: &VarKind) -> ExprType
    ensures { result ≡ spec.kind_type kind.now }
{
    match kind {
        VarKind::Cells(shape) => part_type(shape, 0),
        VarKind::Text => ExprType::Text,
        VarKind::Chandle => ExprType::Chandle,
    }
}

impl ExprType {
    /// Whether it is packed bits.
    pub fn is_packed(self) -> bool
        ensures { result ≡ spec.is_packed self }
    {
        matches!(self, ExprType::Bits { .. })
    }

    /// Whether it can be true or false: packed bits or a chandle (12.4).
    pub fn is_condition(self) -> bool
        ensures { result ≡ spec.is_condition self }
    {
        matches!(self, ExprType::Bits { .. } | ExprType::Chandle)
    }

    /// Whether it is a string.
    pub fn is_text(self) -> bool
        ensures { result ≡ spec.is_text self }
    {
        matches!(self, ExprType::Text)
    }

    /// Whether it is a chandle.
    pub(crate) fn is_chandle(self) -> bool
        ensures { result ≡ spec.is_chandle self }
    {
        matches!(self, ExprType::Chandle)
    }

    /// Whether it is packed bits that are signed.
    pub(crate) fn is_signed(self) -> bool
        ensures { result ≡ spec.is_signed_bits self }
    {
        match self {
            ExprType::Bits { signed, .. } => signed,
            _ => false,
        }
    }

    /// The bits of packed bits; 0 of another type.
    pub fn width(self) -> u32
        ensures { result ≡ spec.width_of self }
    {
        match self {
            ExprType::Bits { width, .. } => width,
            _ => 0,
        }
    }

    /// Whether it is packed bits of which one can be x or z.
    pub(crate) fn is_four(self) -> bool
        ensures { result ≡ spec.is_four self }
    {
        match self {
            ExprType::Bits { four, .. } => four,
            _ => false,
        }
    }
}
