//! Shapes of formals.
ghost use Rattle.std.specs.Prelude.{◌≡◌};
ghost use Rattle.sv_shapes.specs.Kinds.{shape_kept, shape_at};
ghost use Rattle.sv_formals.specs.Formals as spec;

use dpi_shape::{Leaf, Range, Shape};
use sv_shapes::{FormalKind, OpenLeaf, VarKind};

/// The shape of this leaf and these ranges, within the limits.
fn within(leaf: Leaf, ranges: &[Range]) -> Option<Shape>
    ensures { result ≡ shape_kept leaf ranges.now }
{
    Shape::new(leaf, ranges)
}

/// The bits of an element of the actual, numbered from 0.
fn packed_range(actual: &Shape) -> Range
    ensures { result ≡ spec.packed_range actual.now }
{
    Range {
        left: actual.width() as i32 - 1,
        right: 0,
    }
}

/// The packed part of a formal for this actual.
fn taken_leaf(leaf: OpenLeaf, actual: &Shape) -> Leaf
    ensures { result ≡ spec.taken_leaf actual.now leaf }
{
    match leaf {
        OpenLeaf::Leaf(leaf) => leaf,
        OpenLeaf::AnyBit { signed } => Leaf::BitVec {
            range: packed_range(actual),
            signed,
        },
        OpenLeaf::AnyLogic { signed } => Leaf::LogicVec {
            range: packed_range(actual),
            signed,
        },
    }
}

/// The range of a dimension: where it is open, that of the actual's dimension of this number, counted
/// from 1.
fn taken_range(range: Option<Range>, actual: &Shape, number: u32) -> Option<Range>
    ensures { result ≡ spec.taken_range actual.now number range }
{
    match range {
        Some(range) => Some(range),
        None => actual.range(number),
    }
}

/// The shape of this leaf and these dimensions, whose open ones take the actual's ranges.
fn taken_shape(leaf: Leaf, dims: &[Option<Range>], actual: &Shape) -> Option<Shape>
    ensures { result ≡ shape_at leaf (spec.taken_ranges actual.now 1 dims.now) }
{
    match dims {
        [] => within(leaf, &[]),
        [a] => {
            let a = taken_range(*a, actual, 1)?;
            within(leaf, &[a])
        }
        [a, b] => {
            let a = taken_range(*a, actual, 1)?;
            let b = taken_range(*b, actual, 2)?;
            within(leaf, &[a, b])
        }
        [a, b, c] => {
            let a = taken_range(*a, actual, 1)?;
            let b = taken_range(*b, actual, 2)?;
            let c = taken_range(*c, actual, 3)?;
            within(leaf, &[a, b, c])
        }
        _ => None,
    }
}

/// The shape of a formal of this kind for an actual of that shape. None exactly where the formal is a
/// string or a chandle, the actual has no range for an open dimension, or a limit is passed.
pub fn formal_shape(kind: FormalKind, actual: &Shape) -> Option<Shape>
    ensures { result ≡ spec.formal_shape kind actual.now }
{
    match kind {
        FormalKind::Sized(VarKind::Cells(shape)) => Some(shape),
        FormalKind::Sized(_) => None,
        FormalKind::Open { leaf, dims } => {
            taken_shape(taken_leaf(leaf, actual), dims.as_slice(), actual)
        }
    }
}
