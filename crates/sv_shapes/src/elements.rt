//! Types: what one element of a variable is (IEEE 1800-2017, 6.11, 6.14, 6.16 and 7.4.1).
ghost use Rattle.std.specs.Prelude.{◌≡◌};
ghost use Rattle.dpi_rules.specs.Least.{noted};
ghost use Rattle.sv_shapes.specs.Elements as spec;

use crate::bounds::{SHAPE_RULE, note_bounds, range_between};
use dpi_rules::{Violation, note};
use dpi_shape::{Leaf, MOST_WIDTH, Range};
use sv_tree::{DataType, Range as PackedRange, Sign, Signing, VectorKind, WholeKind};

/// What one element of a variable is.
#[derive(Clone, Copy, Debug, PartialEq, Eq)]
pub enum Element {
    /// Packed bits.
    Packed(Leaf),
    /// A string (6.16).
    Text,
    /// A chandle (6.14).
    Chandle,
}

/// The sign that is written, else the usual one of the type (6.11.3).
pub(crate) fn is_signed(usual: bool, sign: &Option<Sign>) -> bool
    ensures { result ≡ spec.is_signed usual sign.now }
{
    match sign {
        None => usual,
        Some(sign) => matches!(sign.signing, Signing::Signed),
    }
}

fn scalar(kind: VectorKind, signed: bool) -> Leaf
    ensures { result ≡ spec.scalar kind signed }
{
    match kind {
        VectorKind::Bit => Leaf::Bit { signed },
        VectorKind::Logic | VectorKind::Reg => Leaf::Logic { signed },
    }
}

fn vector(kind: VectorKind, signed: bool, range: Range) -> Leaf
    ensures { result ≡ spec.vector kind signed range }
{
    match kind {
        VectorKind::Bit => Leaf::BitVec { range, signed },
        VectorKind::Logic | VectorKind::Reg => Leaf::LogicVec { range, signed },
    }
}

fn whole(kind: WholeKind, signed: bool) -> Leaf
    ensures { result ≡ spec.whole kind signed }
{
    match kind {
        WholeKind::Byte => Leaf::Byte { signed },
        WholeKind::ShortInt => Leaf::Short { signed },
        WholeKind::Int => Leaf::Int { signed },
        WholeKind::LongInt => Leaf::Long { signed },
    }
}

/// The type `integer` (6.11).
fn integer() -> Leaf
    ensures { result ≡ spec.integer }
{
    Leaf::LogicVec {
        range: Range { left: 31, right: 0 },
        signed: true,
    }
}

/// The range of a vector, where it has at most 1,024 bits.
fn packed_range(range: &PackedRange) -> Option<Range>
    ensures { result ≡ spec.packed_range range.now }
{
    match range_between(&range.left, &range.right) {
        Some(range) if range.size() <= MOST_WIDTH => Some(range),
        _ => None,
    }
}

fn packed(kind: VectorKind, signed: bool, range: &Option<PackedRange>) -> Option<Leaf>
    ensures { result ≡ spec.packed kind signed range.now }
{
    match range {
        None => Some(scalar(kind, signed)),
        Some(range) => match packed_range(range) {
            Some(range) => Some(vector(kind, signed, range)),
            None => None,
        },
    }
}

/// What one element of a variable of this type is: `bit`, `logic` and `reg` are unsigned and the
/// other types signed where no sign is written, and `integer` is a vector of four states. None
/// exactly where the range of a vector is refused.
pub fn element_of(data_type: &DataType) -> Option<Element>
    ensures { result ≡ spec.element_of data_type.now }
{
    match data_type {
        DataType::Vector(_, kind, sign, range) => {
            match packed(*kind, is_signed(false, sign), range) {
                Some(leaf) => Some(Element::Packed(leaf)),
                None => None,
            }
        }
        DataType::Whole(_, kind, sign) => {
            Some(Element::Packed(whole(*kind, is_signed(true, sign))))
        }
        DataType::Integer(_) => Some(Element::Packed(integer())),
        DataType::String(_) => Some(Element::Text),
        DataType::Chandle(_) => Some(Element::Chandle),
    }
}

/// Notes rule 8 at the `[` of a vector of more than 1,024 bits.
fn note_width(file: u32, token: u32, range: Option<Range>, found: &mut Option<Violation>)
    ensures { found.new ≡ noted found.old (spec.width_violations file token range) }
{
    if let Some(range) = range {
        if range.size() > MOST_WIDTH {
            let violation = Violation {
                file,
                token,
                rule: SHAPE_RULE,
            };
            note(found, violation);
        }
    }
}

/// Notes what the range of a vector breaks.
fn note_range(file: u32, range: &PackedRange, found: &mut Option<Violation>)
    ensures { found.new ≡ noted found.old (spec.range_violations file range.now) }
{
    note_bounds(file, &range.left, &range.right, found);
    let between = range_between(&range.left, &range.right);
    note_width(file, range.token, between, found);
}

/// Notes what a type breaks: rule 8 at the number of a bound that isn't plain decimal or isn't of
/// 32 signed bits, and at the `[` of a vector of more than 1,024 bits.
pub fn note_type(file: u32, data_type: &DataType, found: &mut Option<Violation>)
    ensures { found.new ≡ noted found.old (spec.type_violations file data_type.now) }
{
    if let DataType::Vector(_, _, _, Some(range)) = data_type {
        note_range(file, range, found);
    }
}
