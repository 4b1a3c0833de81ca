//! Selects of elements, bits and parts (IEEE 1800-2017, 7.4.6 and 11.5.1).
ghost use Rattle.std.specs.Prelude.{◌≡◌, IfOk, ◌++◌};
ghost use Rattle.dpi_rules.specs.Least.{noted};
ghost use Rattle.dpi_shape.specs.Shape.{leaf_of};
ghost use Rattle.dpi_shape.specs.Leaf.{is_four_state};
ghost use Rattle.sv_shapes.specs.Bounds.{range_between, bounds_violations};
ghost use Rattle.sv_typing.specs.Selects as spec;

use crate::judged::kind_broken;
use crate::types::{ExprType, Operand, is_array, part_type};
use dpi_literal::sv_known;
use dpi_ports::NoMemory;
use dpi_rules::{Violation, note};
use dpi_shape::{Leaf, MOST_WIDTH, Range, Shape};
use std::alloc::Global;
use sv_shapes::{VarKind, bound_value, note_bound};
use sv_tree::Bound;

/// The rule on what can be selected from.
const SELECT_RULE: u8 = 18;

/// What a name is with the selects up to one of them.
#[derive(Clone, Copy, Debug, PartialEq, Eq)]
pub enum Selected {
    /// What the first `taken` indices of a variable of this shape name: an array or an element.
    Cells { shape: Shape, taken: u32 },
    /// A string.
    Text,
    /// A chandle.
    Chandle,
    /// A bit or a part of an element: how many bits, and whether one of them can be x or z.
    Bits { width: u32, four: bool },
}

/// A whole variable, before its first select.
pub fn variable(kind: &VarKind) -> Selected
    ensures { result ≡ spec.variable kind.now }
{
    match kind {
        VarKind::Cells(shape) => Selected::Cells {
            shape: *shape,
            taken: 0,
        },
        VarKind::Text => Selected::Text,
        VarKind::Chandle => Selected::Chandle,
    }
}

/// The type of what is selected. Bits and parts of an element are unsigned; an element of an array
/// keeps its type.
pub fn selected_type(selected: Selected) -> ExprType
    ensures { result ≡ spec.selected_type selected }
{
    match selected {
        Selected::Cells { shape, taken } => part_type(&shape, taken),
        Selected::Text => ExprType::Text,
        Selected::Chandle => ExprType::Chandle,
        Selected::Bits { width, four } => ExprType::Bits {
            width,
            signed: false,
            four,
        },
    }
}

/// The expression that a name with its selects is. None where a select violates something.
pub fn read(selected: Option<Selected>) -> Option<Operand>
    ensures { result ≡ spec.read selected }
{
    match selected {
        Some(selected) => Some(Operand {
            of: selected_type(selected),
            reach: None,
        }),
        None => None,
    }
}

/// Notes rule 18 at the `[`.
fn refuse(file: u32, token: u32, found: &mut Option<Violation>) -> Option<Selected>
    ensures value { result ≡ (spec.refused (spec.select_broken file token)).value }
    ensures found { found.new ≡ noted found.old (spec.refused (spec.select_broken file token)).found }
{
    let violation = Violation {
        file,
        token,
        rule: SELECT_RULE,
    };
    note(found, violation);
    None
}

fn falling(left: i32) -> Range
    ensures { result ≡ spec.range_down left }
{
    Range { left, right: 0 }
}

/// The indices of an element's bits. A whole type and `integer` have them from the width less one
/// down to 0; a scalar has none.
fn bit_range(leaf: Leaf) -> Option<Range>
    ensures { result ≡ spec.bit_range leaf }
{
    match leaf {
        Leaf::Bit { .. } | Leaf::Logic { .. } => None,
        Leaf::Byte { .. } => Some(falling(7)),
        Leaf::Short { .. } => Some(falling(15)),
        Leaf::Int { .. } => Some(falling(31)),
        Leaf::Long { .. } => Some(falling(63)),
        Leaf::BitVec { range, .. } | Leaf::LogicVec { range, .. } => Some(range),
    }
}

/// A bit of an element.
fn bit_of(file: u32, token: u32, leaf: Leaf, found: &mut Option<Violation>) -> Option<Selected>
    ensures value { result ≡ (spec.bit_of file token (is_four_state leaf) (spec.bit_range leaf)).value }
    ensures found { found.new ≡ noted found.old (spec.bit_of file token (is_four_state leaf) (spec.bit_range leaf)).found }
{
    match bit_range(leaf) {
        None => refuse(file, token, found),
        Some(_) => Some(Selected::Bits {
            width: 1,
            four: leaf.is_four_state(),
        }),
    }
}

/// What an index of an array or of an element's bits names.
fn index_of(
    file: u32,
    token: u32,
    selected: Selected,
    found: &mut Option<Violation>,
) -> Option<Selected>
    ensures value { result ≡ (spec.index_of file token selected).value }
    ensures found { found.new ≡ noted found.old (spec.index_of file token selected).found }
{
    match selected {
        Selected::Cells { shape, taken } => {
            if taken < shape.dims() {
                Some(Selected::Cells {
                    shape,
                    taken: taken + 1,
                })
            } else {
                bit_of(file, token, shape.leaf(), found)
            }
        }
        Selected::Text | Selected::Chandle | Selected::Bits { .. } => refuse(file, token, found),
    }
}

/// What `[` index `]` makes of what stands before it. Noted at the `[`: rule 15 where the index isn't
/// packed, and rule 18 where nothing can be indexed: a scalar, a string, a chandle, or what a bit or
/// part select gave. None where a part has no type or a rule is broken.
pub fn select_index(
    file: u32,
    token: u32,
    selected: Option<Selected>,
    index: Option<Operand>,
    found: &mut Option<Violation>,
) -> Option<Selected>
    ensures value { result ≡ (spec.indexed file token selected index).value }
    ensures found { found.new ≡ noted found.old (spec.indexed file token selected index).found }
{
    let selected = selected?;
    let index = index?;
    if index.of.is_packed() {
        index_of(file, token, selected, found)
    } else {
        note(found, kind_broken(file, token));
        None
    }
}

fn is_inside(range: Range, index: i32) -> bool
    ensures { result ≡ spec.is_inside range index }
{
    range.lower() <= index && index <= range.upper()
}

fn is_along(range: Range, part: Range) -> bool
    ensures { result ≡ spec.is_along range part }
{
    if range.left < range.right {
        part.left <= part.right
    } else {
        part.right <= part.left
    }
}

pub(crate) fn is_part(range: Range, part: Range) -> bool
    ensures { result ≡ spec.is_part range part }
{
    is_inside(range, part.left)
        && (is_inside(range, part.right) && (is_along(range, part) && part.size() <= MOST_WIDTH))
}

/// A part of an element.
fn part_of(
    file: u32,
    token: u32,
    leaf: Leaf,
    part: Range,
    found: &mut Option<Violation>,
) -> Option<Selected>
    ensures value { result ≡ (spec.part_of file token (is_four_state leaf) (spec.bit_range leaf) part).value }
    ensures found { found.new ≡ noted found.old (spec.part_of file token (is_four_state leaf) (spec.bit_range leaf) part).found }
{
    match bit_range(leaf) {
        Some(range) if is_part(range, part) => Some(Selected::Bits {
            width: part.size() as u32,
            four: leaf.is_four_state(),
        }),
        _ => refuse(file, token, found),
    }
}

/// What bounds name.
fn range_of(
    file: u32,
    token: u32,
    selected: Selected,
    part: Range,
    found: &mut Option<Violation>,
) -> Option<Selected>
    ensures value { result ≡ (spec.range_of file token selected part).value }
    ensures found { found.new ≡ noted found.old (spec.range_of file token selected part).found }
{
    match selected {
        Selected::Cells { shape, taken } => {
            if is_array(&shape, taken) {
                refuse(file, token, found)
            } else {
                part_of(file, token, shape.leaf(), part, found)
            }
        }
        Selected::Text | Selected::Chandle | Selected::Bits { .. } => refuse(file, token, found),
    }
}

/// The range from one bound to the other, where both have values.
fn part_between(left: &Bound, right: &Bound) -> Option<Range>
    ensures { result ≡ range_between left.now right.now }
{
    match (bound_value(left), bound_value(right)) {
        (Some(left), Some(right)) => Some(Range { left, right }),
        _ => None,
    }
}

fn note_bounds(file: u32, left: &Bound, right: &Bound, found: &mut Option<Violation>)
    ensures { found.new ≡ noted found.old (bounds_violations file left.now right.now) }
{
    note_bound(file, left, found);
    note_bound(file, right, found);
}

/// What bounds with values name.
fn range_by(
    file: u32,
    token: u32,
    selected: Option<Selected>,
    part: Option<Range>,
    found: &mut Option<Violation>,
) -> Option<Selected>
    ensures value { result ≡ (spec.range_by file token selected part).value }
    ensures found { found.new ≡ noted found.old (spec.range_by file token selected part).found }
{
    let selected = selected?;
    let part = part?;
    range_of(file, token, selected, part, found)
}

/// What `[` left `:` right `]` makes of what stands before it: a part of an element. Rule 8 is noted
/// at the number of a bound that isn't plain decimal or isn't of 32 signed bits, whatever stands
/// before. Where both have values, rule 18 is noted at the `[` of what isn't an element with a range
/// or a whole type, and where a bound is outside or they stand against the declared direction. None
/// where what stands before has no type or a rule is broken.
pub fn select_range(
    file: u32,
    token: u32,
    selected: Option<Selected>,
    left: &Bound,
    right: &Bound,
    found: &mut Option<Violation>,
) -> Option<Selected>
    ensures value { result ≡ (spec.ranged file token selected left.now right.now).value }
    ensures found { found.new ≡ noted found.old (spec.ranged file token selected left.now right.now).found }
{
    let part = part_between(left, right);
    note_bounds(file, left, right, found);
    range_by(file, token, selected, part, found)
}

fn size_by(number: Option<i64>) -> Option<u32>
    ensures { result ≡ spec.size_by number }
{
    match number {
        Some(n) if n > 0 && n <= MOST_WIDTH as i64 => Some(n as u32),
        _ => None,
    }
}

/// The size of a part by the bytes of its number. None where it isn't a known number from 1 to 1,024.
pub fn part_size(alloc: Global, bytes: &[u8]) -> Result<Option<u32>, NoMemory>
    ensures { IfOk result (λ size. size ≡ spec.part_size bytes.now) }
{
    Ok(size_by(sv_known(alloc, bytes)?))
}

/// So many bits of an element.
fn stretch_of(
    file: u32,
    token: u32,
    leaf: Leaf,
    size: Option<u32>,
    found: &mut Option<Violation>,
) -> Option<Selected>
    ensures value { result ≡ (spec.stretch_of file token (is_four_state leaf) (spec.bit_range leaf) size).value }
    ensures found { found.new ≡ noted found.old (spec.stretch_of file token (is_four_state leaf) (spec.bit_range leaf) size).found }
{
    match (bit_range(leaf), size) {
        (Some(_), Some(width)) => Some(Selected::Bits {
            width,
            four: leaf.is_four_state(),
        }),
        _ => refuse(file, token, found),
    }
}

/// What an index and a size name.
fn slice_of(
    file: u32,
    token: u32,
    selected: Selected,
    size: Option<u32>,
    found: &mut Option<Violation>,
) -> Option<Selected>
    ensures value { result ≡ (spec.slice_of file token selected size).value }
    ensures found { found.new ≡ noted found.old (spec.slice_of file token selected size).found }
{
    match selected {
        Selected::Cells { shape, taken } => {
            if is_array(&shape, taken) {
                refuse(file, token, found)
            } else {
                stretch_of(file, token, shape.leaf(), size, found)
            }
        }
        Selected::Text | Selected::Chandle | Selected::Bits { .. } => refuse(file, token, found),
    }
}

/// What `[` index `+:` size `]` or `[` index `-:` size `]` makes of what stands before it: so many
/// bits of an element. Noted at the `[`: rule 15 where the index isn't packed, and rule 18 where what
/// stands before isn't an element with a range or a whole type, or the size is None (see
/// `part_size`). None where a part has no type or a rule is broken.
pub fn select_bits(
    file: u32,
    token: u32,
    selected: Option<Selected>,
    index: Option<Operand>,
    size: Option<u32>,
    found: &mut Option<Violation>,
) -> Option<Selected>
    ensures value { result ≡ (spec.sliced file token selected index size).value }
    ensures found { found.new ≡ noted found.old (spec.sliced file token selected index size).found }
{
    let selected = selected?;
    let index = index?;
    if index.of.is_packed() {
        slice_of(file, token, selected, size, found)
    } else {
        note(found, kind_broken(file, token));
        None
    }
}
