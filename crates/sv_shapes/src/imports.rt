//! The kind of a formal of an import (IEEE 1800-2017, 35.5.6).
ghost use Rattle.std.specs.Prelude.{◌≡◌, flat_map};
ghost use Rattle.dpi_rules.specs.Least.{noted};
ghost use Rattle.sv_shapes.specs.Formals.{formal_dimension_violations};
ghost use Rattle.sv_shapes.specs.Imports as spec;

use crate::dimensions::{dimension_range, note_limit};
use crate::formals::{
    OpenDims, OpenElement, OpenLeaf, formal_element, formal_limit, has_open, note_formal_dimension,
    note_formal_type, open_dims,
};
use crate::kinds::{VarKind, within};
use dpi_rules::{Violation, note};
use dpi_shape::{Leaf, MOST_DIMS, Range, Shape};
use sv_tree::{DataType, ImportDimension, ImportType};

/// The rule on arrays of strings and chandles.
const ARRAY_RULE: u8 = 9;

/// The rule on open dimensions of a type that they can't stand behind.
const CLOSED_RULE: u8 = 11;

/// The kind of a formal of an import.
#[derive(Clone, Copy, Debug, PartialEq, Eq)]
pub enum FormalKind {
    /// Nothing is open: the kind of a variable.
    Sized(VarKind),
    /// An open array: the packed part or a dimension is open (35.5.6.1).
    Open { leaf: OpenLeaf, dims: OpenDims },
}

/// The range of a dimension that isn't open. None where it is refused or open.
fn sized_range(dimension: &ImportDimension) -> Option<Range>
    ensures { result ≡ spec.sized_range dimension.now }
{
    match dimension {
        ImportDimension::Sized(dimension) => dimension_range(dimension),
        ImportDimension::Unsized(_) => None,
    }
}

/// The shape of this leaf and these dimensions. None exactly where a dimension is open or has no
/// range, or a limit is passed.
fn sized_shape(leaf: Leaf, dimensions: &[ImportDimension]) -> Option<Shape>
    ensures { result ≡ spec.sized_shape leaf dimensions.now }
{
    match dimensions {
        [] => within(leaf, &[]),
        [a] => {
            let a = sized_range(a)?;
            within(leaf, &[a])
        }
        [a, b] => {
            let a = sized_range(a)?;
            let b = sized_range(b)?;
            within(leaf, &[a, b])
        }
        [a, b, c] => {
            let a = sized_range(a)?;
            let b = sized_range(b)?;
            let c = sized_range(c)?;
            within(leaf, &[a, b, c])
        }
        _ => None,
    }
}

/// The kind, where there are no dimensions.
fn single(kind: VarKind, dimensions: &[ImportDimension]) -> Option<VarKind>
    ensures { result ≡ spec.single kind dimensions.now }
{
    match dimensions {
        [] => Some(kind),
        _ => None,
    }
}

/// The kind of a formal without open parts.
fn sized_kind(element: Option<OpenElement>, dimensions: &[ImportDimension]) -> Option<VarKind>
    ensures { result ≡ spec.sized_kind element dimensions.now }
{
    match element {
        Some(OpenElement::Packed(OpenLeaf::Leaf(leaf))) => match sized_shape(leaf, dimensions) {
            Some(shape) => Some(VarKind::Cells(shape)),
            None => None,
        },
        Some(OpenElement::Text) => single(VarKind::Text, dimensions),
        Some(OpenElement::Chandle) => single(VarKind::Chandle, dimensions),
        _ => None,
    }
}

/// Whether no open dimension can stand behind the type: `integer`, `string` and `chandle`.
fn is_closed(kind: &ImportType) -> bool
    ensures { result ≡ spec.is_closed kind.now }
{
    match kind {
        ImportType::Data(data_type) => matches!(
            data_type,
            DataType::Integer(_) | DataType::String(_) | DataType::Chandle(_)
        ),
        ImportType::Unsized(_, _, _, _) => false,
    }
}

/// Whether the packed part is open.
fn is_unsized(kind: &ImportType) -> bool
    ensures { result ≡ spec.is_unsized kind.now }
{
    matches!(kind, ImportType::Unsized(_, _, _, _))
}

/// The open array of this packed part and these dimensions. None exactly where a dimension is
/// refused, or a limit is passed.
fn open_array(leaf: OpenLeaf, dimensions: &[ImportDimension]) -> Option<FormalKind>
    ensures { result ≡ spec.open_array leaf dimensions.now }
{
    match formal_limit(MOST_DIMS, leaf.cells(), dimensions) {
        Some(_) => None,
        None => match open_dims(dimensions) {
            Some(dims) => Some(FormalKind::Open { leaf, dims }),
            None => None,
        },
    }
}

/// The kind of a formal with an open part.
fn open_kind(kind: &ImportType, dimensions: &[ImportDimension]) -> Option<FormalKind>
    ensures { result ≡ spec.open_kind kind.now dimensions.now }
{
    if is_closed(kind) {
        return None;
    }
    match formal_element(kind) {
        Some(OpenElement::Packed(leaf)) => open_array(leaf, dimensions),
        _ => None,
    }
}

/// The kind of a formal of an import that has this type and these dimensions, where nothing in them
/// is refused; else None. Without an open part it is the kind of a variable.
pub fn formal_kind(kind: &ImportType, dimensions: &[ImportDimension]) -> Option<FormalKind>
    ensures { result ≡ spec.formal_kind kind.now dimensions.now }
{
    if is_unsized(kind) || has_open(dimensions) {
        open_kind(kind, dimensions)
    } else {
        match sized_kind(formal_element(kind), dimensions) {
            Some(kind) => Some(FormalKind::Sized(kind)),
            None => None,
        }
    }
}

/// Notes the rule at the name, where it is broken.
fn note_at(broken: bool, violation: Violation, found: &mut Option<Violation>)
    ensures { found.new ≡ noted found.old (spec.only_if broken violation) }
{
    if broken {
        note(found, violation);
    }
}

/// Whether it is an array of strings or chandles.
fn is_text_array(kind: &ImportType, dimensions: &[ImportDimension]) -> bool
    ensures { result ≡ spec.is_text_array kind.now dimensions.now }
{
    match (kind, dimensions) {
        (_, []) => false,
        (ImportType::Data(DataType::String(_)), _) => true,
        (ImportType::Data(DataType::Chandle(_)), _) => true,
        _ => false,
    }
}

/// Notes rule 8 where a dimension of a formal has no range: see `note_dimension`.
pub fn note_formal_dimensions(
    file: u32,
    dimensions: &[ImportDimension],
    found: &mut Option<Violation>,
)
    ensures { found.new ≡ noted found.old (flat_map (formal_dimension_violations file) dimensions.now) }
{
    for dimension in dimensions {
        note_formal_dimension(file, dimension, found);
    }
}

/// Notes rule 8 at the first dimension with which a limit is passed, where an element has cells.
fn note_formal_cells(
    file: u32,
    element: Option<OpenElement>,
    dimensions: &[ImportDimension],
    found: &mut Option<Violation>,
)
    ensures { found.new ≡ noted found.old (spec.formal_cells_violations file element dimensions.now) }
{
    if let Some(OpenElement::Packed(leaf)) = element {
        let token = formal_limit(MOST_DIMS, leaf.cells(), dimensions);
        note_limit(file, token, found);
    }
}

/// Notes rules 9 and 11 at the name.
fn note_formal_name(
    file: u32,
    name: u32,
    kind: &ImportType,
    dimensions: &[ImportDimension],
    found: &mut Option<Violation>,
)
    ensures { found.new ≡ noted found.old (spec.formal_name_violations file name kind.now dimensions.now) }
{
    let array = Violation {
        file,
        token: name,
        rule: ARRAY_RULE,
    };
    note_at(is_text_array(kind, dimensions), array, found);
    let closed = Violation {
        file,
        token: name,
        rule: CLOSED_RULE,
    };
    note_at(is_closed(kind) && has_open(dimensions), closed, found);
}

/// Notes what the type and the dimensions of a formal of an import violate. Rule 8 is broken where
/// it is for a variable, and open dimensions count for the limit of three dimensions and not for
/// cells; an element of an open packed part counts as one cell. Rule 9 is broken at the name of an
/// array of strings or chandles, rule 11 at the name of a formal of type `integer`, `string` or
/// `chandle` with an open dimension (IEEE 1800-2017, 35.5.6.1).
pub fn note_formal(
    file: u32,
    name: u32,
    kind: &ImportType,
    dimensions: &[ImportDimension],
    found: &mut Option<Violation>,
)
    ensures { found.new ≡ noted found.old (spec.formal_violations file name kind.now dimensions.now) }
{
    note_formal_type(file, kind, found);
    note_formal_name(file, name, kind, dimensions, found);
    note_formal_dimensions(file, dimensions, found);
    note_formal_cells(file, formal_element(kind), dimensions, found);
}
