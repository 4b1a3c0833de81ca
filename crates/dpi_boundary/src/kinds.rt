//! Equal kinds: leaf types and dimension sizes (IEEE 1800-2017, 35.5.4).
ghost use Rattle.std.specs.Prelude.{◌≡◌, ◌&&◌};
ghost use Rattle.dpi_boundary.specs.Kinds as spec;

use crate::fits::agree;
use dpi_shape::{Leaf, Range, Shape};
use sv_shapes::{FormalKind, OpenDims, OpenLeaf, VarKind};

/// How a leaf type is written.
#[derive(Clone, Copy, Debug, PartialEq, Eq)]
enum Form {
    /// One bit: `bit`, `logic` or `reg`.
    Scalar,
    /// Bits with a packed range.
    Vector,
    /// `byte`, `shortint`, `int` or `longint`.
    Whole,
}

fn form_of(leaf: Leaf) -> Form
    ensures { result ≡ spec.form_of leaf }
{
    match leaf {
        Leaf::Bit { .. } | Leaf::Logic { .. } => Form::Scalar,
        Leaf::BitVec { .. } | Leaf::LogicVec { .. } => Form::Vector,
        Leaf::Byte { .. } | Leaf::Short { .. } | Leaf::Int { .. } | Leaf::Long { .. } => {
            Form::Whole
        }
    }
}

fn is_signed(leaf: Leaf) -> bool
    ensures { result ≡ spec.is_signed leaf }
{
    match leaf {
        Leaf::Bit { signed } => signed,
        Leaf::Logic { signed } => signed,
        Leaf::Byte { signed } => signed,
        Leaf::Short { signed } => signed,
        Leaf::Int { signed } => signed,
        Leaf::Long { signed } => signed,
        Leaf::BitVec { signed, .. } => signed,
        Leaf::LogicVec { signed, .. } => signed,
    }
}

/// Whether two leaves are of one form, width, number of states and sign.
fn same_leaf(a: Leaf, b: Leaf) -> bool
    ensures { result ≡ spec.same_leaf a b }
{
    let signs = agree(is_signed(a), is_signed(b));
    let states = agree(a.is_four_state(), b.is_four_state());
    form_of(a) == form_of(b) && a.width() == b.width() && states && signs
}

/// Whether two dimensions are both absent, or of one size.
fn same_size(a: Option<Range>, b: Option<Range>) -> bool
    ensures { result ≡ spec.same_size a b }
{
    match (a, b) {
        (Some(a), Some(b)) => a.size() == b.size(),
        (None, None) => true,
        _ => false,
    }
}

fn all_three(a: bool, b: bool, c: bool) -> bool
    ensures { result ≡ (a && (b && c)) }
{
    if a { b && c } else { false }
}

/// Whether two shapes have as many dimensions, of the same sizes.
fn same_sizes(a: Shape, b: Shape) -> bool
    ensures { result ≡ spec.same_sizes a b }
{
    let first = same_size(a.range(1), b.range(1));
    let second = same_size(a.range(2), b.range(2));
    let third = same_size(a.range(3), b.range(3));
    all_three(first, second, third)
}

/// Whether two kinds are equal: both a string, both a chandle, or arrays of leaves of one form,
/// width, number of states and sign with as many dimensions of the same sizes. The bounds don't
/// count (IEEE 1800-2017, 35.5.4).
pub fn same_kind(a: VarKind, b: VarKind) -> bool
    ensures { result ≡ spec.same_kind a b }
{
    match (a, b) {
        (VarKind::Cells(a), VarKind::Cells(b)) => {
            same_leaf(a.leaf(), b.leaf()) && same_sizes(a, b)
        }
        (VarKind::Text, VarKind::Text) => true,
        (VarKind::Chandle, VarKind::Chandle) => true,
        _ => false,
    }
}

fn same_open_leaf(a: OpenLeaf, b: OpenLeaf) -> bool
    ensures { result ≡ spec.same_open_leaf a b }
{
    match (a, b) {
        (OpenLeaf::Leaf(a), OpenLeaf::Leaf(b)) => same_leaf(a, b),
        (OpenLeaf::AnyBit { signed: a }, OpenLeaf::AnyBit { signed: b }) => agree(a, b),
        (OpenLeaf::AnyLogic { signed: a }, OpenLeaf::AnyLogic { signed: b }) => agree(a, b),
        _ => false,
    }
}

/// Whether there are as many dimensions, each both open or both of one size.
fn same_open_sizes(a: &[Option<Range>], b: &[Option<Range>]) -> bool
    ensures { result ≡ spec.same_open_sizes a.now b.now }
{
    match a {
        [] => match b {
            [] => true,
            [_, ..] => false,
        },
        [r, more @ ..] => match b {
            [] => false,
            [q, others @ ..] => same_size(*r, *q) && same_open_sizes(more, others),
        },
    }
}

fn same_open_dims(a: OpenDims, b: OpenDims) -> bool
    ensures { result ≡ spec.same_open_dims a b }
{
    same_open_sizes(a.as_slice(), b.as_slice())
}

/// Whether two kinds of formals of imports are equal: equal kinds without an open part, or open
/// arrays of equal leaves with as many dimensions, each both open or both of one size
/// (IEEE 1800-2017, 35.5.4 and 35.5.6.1).
pub fn same_formal_kind(a: FormalKind, b: FormalKind) -> bool
    ensures { result ≡ spec.same_formal_kind a b }
{
    match (a, b) {
        (FormalKind::Sized(a), FormalKind::Sized(b)) => same_kind(a, b),
        (FormalKind::Open { leaf: a, dims: d }, FormalKind::Open { leaf: b, dims: e }) => {
            same_open_leaf(a, b) && same_open_dims(d, e)
        }
        _ => false,
    }
}
