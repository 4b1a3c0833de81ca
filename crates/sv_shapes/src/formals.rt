//! Formals of imports: what one element is, and the dimensions, of which each may be open
//! (IEEE 1800-2017, 35.5.6 and 35.5.6.1).
ghost use Rattle.std.specs.Prelude.{◌≡◌};
ghost use Rattle.dpi_rules.specs.Least.{noted};
ghost use Rattle.sv_shapes.specs.Formals as spec;

use crate::bounds::SHAPE_RULE;
use crate::dimensions::{bracket, dimension_range, note_dimension};
use crate::elements::{Element, element_of, is_signed, note_type};
use dpi_rules::{Violation, note};
use dpi_shape::{Leaf, MOST_CELLS, Range};
use sv_tree::{DataType, Dimension, ImportDimension, ImportType, VectorKind};

/// The packed part of a formal of an import.
#[derive(Clone, Copy, Debug, PartialEq, Eq)]
pub enum OpenLeaf {
    /// A packed part that isn't open.
    Leaf(Leaf),
    /// `bit []`: packed bits of two states, as many as the actual has.
    AnyBit { signed: bool },
    /// `logic []` or `reg []`: packed bits of four states, as many as the actual has.
    AnyLogic { signed: bool },
}

/// The ranges of at most three unpacked dimensions, the first one first; None is an open dimension,
/// which takes the actual's range.
#[derive(Clone, Copy, Debug, PartialEq, Eq)]
pub enum OpenDims {
    /// No dimension: one element.
    Zero,
    /// One dimension.
    One([Option<Range>; 1]),
    /// Two dimensions.
    Two([Option<Range>; 2]),
    /// Three dimensions.
    Three([Option<Range>; 3]),
}

impl OpenDims {
    /// The ranges in order.
    pub fn as_slice(&self) -> &[Option<Range>]
        ensures { result.now ≡ spec.open_ranges_of self.now }
    {
        match self {
            OpenDims::Zero => &[],
            OpenDims::One(ranges) => ranges,
            OpenDims::Two(ranges) => ranges,
            OpenDims::Three(ranges) => ranges,
        }
    }
}

/// What one element of a formal of an import is.
#[derive(Clone, Copy, Debug, PartialEq, Eq)]
pub enum OpenElement {
    /// Packed bits.
    Packed(OpenLeaf),
    /// A string (6.16).
    Text,
    /// A chandle (6.14).
    Chandle,
}

impl OpenLeaf {
    /// The cells of one element; an open packed part counts as one.
    pub fn cells(self) -> u64
        ensures { result ≡ spec.open_cells self }
    {
        match self {
            OpenLeaf::Leaf(leaf) => leaf.cells(),
            OpenLeaf::AnyBit { .. } | OpenLeaf::AnyLogic { .. } => 1,
        }
    }
}

/// The open packed part of this kind.
fn any(kind: VectorKind, signed: bool) -> OpenLeaf
    ensures { result ≡ spec.any kind signed }
{
    match kind {
        VectorKind::Bit => OpenLeaf::AnyBit { signed },
        VectorKind::Logic | VectorKind::Reg => OpenLeaf::AnyLogic { signed },
    }
}

/// An element that isn't open.
fn opened(element: Element) -> OpenElement
    ensures { result ≡ spec.opened element }
{
    match element {
        Element::Packed(leaf) => OpenElement::Packed(OpenLeaf::Leaf(leaf)),
        Element::Text => OpenElement::Text,
        Element::Chandle => OpenElement::Chandle,
    }
}

/// What one element of a formal of this type is; an open packed part is unsigned where no sign is
/// written. None exactly where the range of a vector is refused.
pub(crate) fn formal_element(kind: &ImportType) -> Option<OpenElement>
    ensures { result ≡ spec.formal_element kind.now }
{
    match kind {
        ImportType::Data(data_type) => match element_of(data_type) {
            Some(element) => Some(opened(element)),
            None => None,
        },
        ImportType::Unsized(_, vector, sign, _) => {
            Some(OpenElement::Packed(any(*vector, is_signed(false, sign))))
        }
    }
}

/// The range of a dimension, if it isn't open; None where the dimension is refused.
pub(crate) fn formal_range(dimension: &ImportDimension) -> Option<Option<Range>>
    ensures { result ≡ spec.formal_range dimension.now }
{
    match dimension {
        ImportDimension::Sized(dimension) => match dimension_range(dimension) {
            Some(range) => Some(Some(range)),
            None => None,
        },
        ImportDimension::Unsized(_) => Some(None),
    }
}

/// The ranges of these dimensions. None exactly where one is refused, or there are more than three.
pub(crate) fn open_dims(dimensions: &[ImportDimension]) -> Option<OpenDims>
    ensures { result ≡ spec.open_dims (spec.formal_ranges dimensions.now) }
{
    match dimensions {
        [] => Some(OpenDims::Zero),
        [a] => {
            let a = formal_range(a)?;
            Some(OpenDims::One([a]))
        }
        [a, b] => {
            let a = formal_range(a)?;
            let b = formal_range(b)?;
            Some(OpenDims::Two([a, b]))
        }
        [a, b, c] => {
            let a = formal_range(a)?;
            let b = formal_range(b)?;
            let c = formal_range(c)?;
            Some(OpenDims::Three([a, b, c]))
        }
        _ => None,
    }
}

fn is_open(dimension: &ImportDimension) -> bool
    ensures { result ≡ spec.is_open dimension.now }
{
    matches!(dimension, ImportDimension::Unsized(_))
}

/// Whether one of the dimensions is open.
pub(crate) fn has_open(dimensions: &[ImportDimension]) -> bool
    ensures { result ≡ spec.has_open dimensions.now }
{
    for dimension in dimensions {
        if is_open(dimension) {
            return true;
        }
    }
    false
}

/// The `[` of the first dimension with which a limit is passed, where there is room for so many
/// dimensions and an element has so many cells. Open dimensions take room and have no cells.
pub(crate) fn formal_limit(room: usize, cells: u64, dimensions: &[ImportDimension]) -> Option<u32>
    ensures { result ≡ spec.formal_limit room cells dimensions.now }
{
    match dimensions {
        [] => None,
        [first, more @ ..] => match first {
            ImportDimension::Unsized(token) => {
                if room > 0 {
                    formal_limit(room - 1, cells, more)
                } else {
                    Some(*token)
                }
            }
            ImportDimension::Sized(dimension) => match dimension_range(dimension) {
                None if room > 0 => None,
                None => Some(bracket(dimension)),
                Some(range) => {
                    let cells = cells as u128 * range.size() as u128;
                    if room > 0 && cells <= MOST_CELLS as u128 {
                        formal_limit(room - 1, cells as u64, more)
                    } else {
                        Some(bracket(dimension))
                    }
                }
            },
        },
    }
}

/// Notes what the type of a formal breaks: see `note_type`.
pub(crate) fn note_formal_type(file: u32, kind: &ImportType, found: &mut Option<Violation>)
    ensures { found.new ≡ noted found.old (spec.formal_type_violations file kind.now) }
{
    if let ImportType::Data(data_type) = kind {
        note_type(file, data_type, found);
    }
}

/// Notes what a dimension of a formal breaks by itself: see `note_dimension`.
pub(crate) fn note_formal_dimension(
    file: u32,
    dimension: &ImportDimension,
    found: &mut Option<Violation>,
)
    ensures { found.new ≡ noted found.old (spec.formal_dimension_violations file dimension.now) }
{
    if let ImportDimension::Sized(dimension) = dimension {
        note_dimension(file, dimension, found);
    }
}
