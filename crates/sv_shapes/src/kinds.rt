//! The kind of a declared name (IEEE 1800-2017, 6.8).
ghost use Rattle.std.specs.Prelude.{◌≡◌, option_map};
ghost use Rattle.dpi_rules.specs.Least.{noted};
ghost use Rattle.sv_shapes.specs.Kinds as spec;
ghost use Rattle.sv_shapes.specs.Dimensions.{ranges_of};

use crate::dimensions::{dimension_range, limit_token, note_dimensions, note_limit};
use crate::elements::{Element, element_of, note_type};
use dpi_rules::{Violation, note};
use dpi_shape::{Leaf, MOST_DIMS, Range, Shape};
use sv_tree::{DataType, Dimension};

/// The rule on arrays of strings and chandles.
const ARRAY_RULE: u8 = 9;

/// The kind of a variable or of a formal.
#[derive(Clone, Copy, Debug, PartialEq, Eq)]
pub enum VarKind {
    /// Packed bits, or an unpacked array of such: at least one cell.
    Cells(Shape),
    /// A string (6.16).
    Text,
    /// A chandle (6.14).
    Chandle,
}

/// The shape of this leaf and these ranges, within the limits.
pub(crate) fn within(leaf: Leaf, ranges: &[Range]) -> Option<Shape>
    ensures told { option_map spec.shape_told result ≡ spec.within leaf ranges.now }
    ensures kept { result ≡ spec.shape_kept leaf ranges.now }
{
    Shape::new(leaf, ranges)
}

/// The shape of this leaf and these dimensions. None exactly where a dimension has no range, or a
/// limit is passed.
fn shape_of(leaf: Leaf, dimensions: &[Dimension]) -> Option<Shape>
    ensures told { option_map spec.shape_told result ≡ spec.shape_by leaf (ranges_of dimensions.now) }
    ensures kept { result ≡ spec.shape_at leaf (ranges_of dimensions.now) }
{
    match dimensions {
        [] => within(leaf, &[]),
        [a] => {
            let a = dimension_range(a)?;
            within(leaf, &[a])
        }
        [a, b] => {
            let a = dimension_range(a)?;
            let b = dimension_range(b)?;
            within(leaf, &[a, b])
        }
        [a, b, c] => {
            let a = dimension_range(a)?;
            let b = dimension_range(b)?;
            let c = dimension_range(c)?;
            within(leaf, &[a, b, c])
        }
        _ => None,
    }
}

/// The kind, where there are no dimensions.
fn alone(kind: VarKind, dimensions: &[Dimension]) -> Option<VarKind>
    ensures told { option_map spec.kind_told result ≡ spec.alone (spec.kind_told kind) dimensions.now }
    ensures kept { result ≡ spec.alone kind dimensions.now }
{
    match dimensions {
        [] => Some(kind),
        _ => None,
    }
}

/// The kind of a name that is declared with this type and these dimensions, where nothing in them
/// is refused; else None. A shape has the type's leaf and the dimensions' ranges; `[n]` is
/// `[0:n-1]` (IEEE 1800-2017, 7.4.2).
pub fn kind_of(data_type: &DataType, dimensions: &[Dimension]) -> Option<VarKind>
    ensures told { option_map spec.kind_told result ≡ spec.kind_of data_type.now dimensions.now }
    ensures kept { result ≡ spec.var_kind data_type.now dimensions.now }
{
    match element_of(data_type) {
        None => None,
        Some(Element::Packed(leaf)) => match shape_of(leaf, dimensions) {
            Some(shape) => Some(VarKind::Cells(shape)),
            None => None,
        },
        Some(Element::Text) => alone(VarKind::Text, dimensions),
        Some(Element::Chandle) => alone(VarKind::Chandle, dimensions),
    }
}

/// Notes rule 9 at the name, where there are dimensions.
fn note_array_at(file: u32, name: u32, dimensions: &[Dimension], found: &mut Option<Violation>)
    ensures { found.new ≡ noted found.old (spec.array_broken file name dimensions.now) }
{
    match dimensions {
        [] => {}
        _ => {
            let violation = Violation {
                file,
                token: name,
                rule: ARRAY_RULE,
            };
            note(found, violation);
        }
    }
}

/// Notes rule 9 at the name of an array of strings or chandles.
fn note_array(
    file: u32,
    name: u32,
    element: Option<Element>,
    dimensions: &[Dimension],
    found: &mut Option<Violation>,
)
    ensures { found.new ≡ noted found.old (spec.array_violations file name element dimensions.now) }
{
    match element {
        Some(Element::Text) => note_array_at(file, name, dimensions, found),
        Some(Element::Chandle) => note_array_at(file, name, dimensions, found),
        _ => {}
    }
}

/// Notes rule 8 at the first dimension with which a limit is passed, where an element has cells.
fn note_cells(
    file: u32,
    element: Option<Element>,
    dimensions: &[Dimension],
    found: &mut Option<Violation>,
)
    ensures { found.new ≡ noted found.old (spec.cells_violations file element dimensions.now) }
{
    if let Some(Element::Packed(leaf)) = element {
        let token = limit_token(MOST_DIMS, leaf.cells(), dimensions);
        note_limit(file, token, found);
    }
}

/// The kind of a name that is declared, at this token, with this type and these dimensions; None
/// exactly where the declaration violates a rule. What it violates is noted. Rule 8, on shapes, is
/// broken at
/// - the number of a bound that isn't plain decimal or isn't of 32 signed bits,
/// - the `[` of a vector of more than 1,024 bits,
/// - the `[` of a dimension `[n]` where n isn't a plain decimal number, is 0, or is more than 65,536,
/// - the `[` of the first dimension with which the array has more than three of them, or more than
///   65,536 cells. A vector has a cell for each started 32 bits, another element one. This is looked
///   at up to the first part that is refused by itself.
///
/// Rule 9 is broken at the name of an array of strings or chandles (IEEE 1800-2017, 6.8, 7.4).
pub fn variable_kind(
    file: u32,
    name: u32,
    data_type: &DataType,
    dimensions: &[Dimension],
    found: &mut Option<Violation>,
) -> Option<VarKind>
    ensures told { option_map spec.kind_told result ≡ spec.kind_of data_type.now dimensions.now }
    ensures kind { result ≡ spec.var_kind data_type.now dimensions.now }
    ensures violations { found.new ≡ noted found.old (spec.kind_violations file name data_type.now dimensions.now) }
{
    let element = element_of(data_type);
    note_type(file, data_type, found);
    note_array(file, name, element, dimensions, found);
    note_dimensions(file, dimensions, found);
    note_cells(file, element, dimensions, found);
    kind_of(data_type, dimensions)
}
