//! Actuals of imports (IEEE 1800-2017, 35.5.6 and 35.5.6.1).
ghost use Rattle.std.specs.Prelude.{◌≡◌, ◌&&◌, Some};
ghost use Rattle.dpi_shape.specs.Shape.{leaf_of};
ghost use Rattle.dpi_rules.specs.Least.{noted};
ghost use Rattle.sv_typing.specs.Types.{range_left};
ghost use Rattle.sv_contexts.specs.Actuals as spec;

use crate::assignments::{are_elements_equal, note_assigned, note_fitted, note_kinds};
use dpi_rules::Violation;
use dpi_shape::{Leaf, Range, Shape};
use sv_shapes::{FormalKind, OpenDims, OpenLeaf, VarKind};
use sv_typing::{ExprType, Operand, kind_type, range_left};

/// The leaf of a packed variable that an actual names without selects. None of an array, a string and
/// a chandle.
pub fn plain_leaf(kind: &VarKind) -> Option<Leaf>
    ensures { result ≡ spec.plain_leaf kind.now }
{
    match kind {
        VarKind::Cells(shape) => {
            if shape.dims() == 0 {
                Some(shape.leaf())
            } else {
                None
            }
        }
        VarKind::Text | VarKind::Chandle => None,
    }
}

fn fits_leaf(leaf: OpenLeaf, actual: Leaf) -> bool
    ensures { result ≡ spec.fits_leaf leaf actual }
{
    match leaf {
        OpenLeaf::Leaf(leaf) => are_elements_equal(leaf, actual),
        OpenLeaf::AnyBit { .. } => matches!(actual, Leaf::BitVec { .. }),
        OpenLeaf::AnyLogic { .. } => matches!(actual, Leaf::LogicVec { .. }),
    }
}

fn fits_plain(leaf: OpenLeaf, plain: Option<Leaf>) -> bool
    ensures { result ≡ spec.fits_plain leaf plain }
{
    match plain {
        None => true,
        Some(actual) => fits_leaf(leaf, actual),
    }
}

fn fits_dimension(formal: Option<Option<Range>>, actual: Option<Range>) -> bool
    ensures { result ≡ spec.fits_dimension formal actual }
{
    match (formal, actual) {
        (None, None) => true,
        (Some(None), Some(_)) => true,
        (Some(Some(formal)), Some(actual)) => formal.size() == actual.size(),
        _ => false,
    }
}

/// A dimension of the formal, counted from 0; one that is open has no range.
fn formal_range(dims: &OpenDims, step: usize) -> Option<Option<Range>>
    ensures { result ≡ spec.formal_range dims.now step }
{
    dims.as_slice().get(step).copied()
}

/// Whether the dimensions of that number fit each other.
fn is_alike(dims: &OpenDims, shape: &Shape, taken: u32, step: u32) -> bool
    ensures { result ≡ spec.fits_dimension (spec.formal_range dims.now step) (range_left shape.now taken step) }
{
    fits_dimension(
        formal_range(dims, step as usize),
        range_left(shape, taken, step),
    )
}

fn are_dimensions_fitting(dims: &OpenDims, shape: &Shape, taken: u32) -> bool
    ensures { result ≡ spec.are_dimensions_fitting dims.now shape.now taken }
{
    is_alike(dims, shape, taken, 0)
        && (is_alike(dims, shape, taken, 1) && is_alike(dims, shape, taken, 2))
}

fn is_flat(dims: &OpenDims) -> bool
    ensures { result ≡ spec.is_flat dims.now }
{
    dims.as_slice().len() == 0
}

fn is_fitting(leaf: OpenLeaf, dims: &OpenDims, shape: &Shape, taken: u32) -> bool
    ensures { result ≡ (spec.fits_leaf leaf (leaf_of shape.now) && spec.are_dimensions_fitting dims.now shape.now taken) }
{
    fits_leaf(leaf, shape.leaf()) && are_dimensions_fitting(dims, shape, taken)
}

/// Notes what an actual of this type violates for an open formal.
fn note_opened(
    file: u32,
    token: u32,
    leaf: OpenLeaf,
    dims: OpenDims,
    plain: Option<Leaf>,
    actual: ExprType,
    found: &mut Option<Violation>,
)
    ensures { found.new ≡ noted found.old (spec.opened file token leaf dims plain actual) }
{
    let flat = is_flat(&dims);
    match actual {
        ExprType::Bits { .. } if flat => {
            note_fitted(file, token, fits_plain(leaf, plain), found);
        }
        ExprType::Array { shape, taken } if !flat => {
            note_fitted(file, token, is_fitting(leaf, &dims, &shape, taken), found);
        }
        _ => note_kinds(file, token, found),
    }
}

/// Notes what an actual violates for a formal of this kind.
fn note_formal(
    file: u32,
    token: u32,
    formal: FormalKind,
    plain: Option<Leaf>,
    actual: Option<Operand>,
    found: &mut Option<Violation>,
)
    ensures { found.new ≡ noted found.old (spec.passed file token (Some formal) plain actual) }
{
    match formal {
        FormalKind::Sized(kind) => {
            note_assigned(file, token, Some(kind_type(&kind)), actual, found);
        }
        FormalKind::Open { leaf, dims } => {
            if let Some(actual) = actual {
                note_opened(file, token, leaf, dims, plain, actual.of, found);
            }
        }
    }
}

/// Notes what an actual violates for a formal of an import. The token is the actual's first one, and
/// `plain` the leaf of the packed variable that the actual names without selects, if it does. For a
/// formal without open parts it is an assignment. Else nothing widens the actual; rule 17 is noted
/// where one of them is an array and the other packed bits, or the actual is a string or a chandle;
/// rule 14 where a plain packed actual or an element isn't a vector of the states of the open packed
/// part (`integer` is one of four states), where an element isn't of the width, states and sign of a
/// packed part that isn't open, and where dimensions differ in number or, sized, in indices. Where
/// either has no type, nothing is noted.
pub fn note_passed(
    file: u32,
    token: u32,
    formal: Option<FormalKind>,
    plain: Option<Leaf>,
    actual: Option<Operand>,
    found: &mut Option<Violation>,
)
    ensures { found.new ≡ noted found.old (spec.passed file token formal plain actual) }
{
    if let Some(formal) = formal {
        note_formal(file, token, formal, plain, actual, found);
    }
}
