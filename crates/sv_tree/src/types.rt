//! Types and dimensions (IEEE 1800-2017, 6 and 7.4).

use crate::kinds::{Signing, VectorKind, WholeKind};
use crate::leaves::{Bound, Number};

/// `[` bound `:` bound `]`
#[derive(Drop)]
pub struct Range {
    /// The number of the `[`.
    pub token: u32,
    /// The left bound.
    pub left: Bound,
    /// The right bound.
    pub right: Bound,
}

/// A signing.
#[derive(Drop)]
pub struct Sign {
    /// The number of its token.
    pub token: u32,
    /// Which one it is.
    pub signing: Signing,
}

/// A type. The first number is that of its first token.
#[derive(Drop)]
pub enum DataType {
    /// vec sign? range?
    Vector(u32, VectorKind, Option<Sign>, Option<Range>),
    /// whole sign?
    Whole(u32, WholeKind, Option<Sign>),
    /// `integer`
    Integer(u32),
    /// `string`
    String(u32),
    /// `chandle`
    Chandle(u32),
}

/// An unpacked dimension. The first number is that of its `[`.
#[derive(Drop)]
pub enum Dimension {
    /// `[` bound `:` bound `]`
    Range(u32, Bound, Bound),
    /// `[` number `]`
    Size(u32, Number),
}

/// A type of a formal of an import (35.5.6). The first number is that of its first token.
#[derive(Drop)]
pub enum ImportType {
    /// A type.
    Data(DataType),
    /// vec sign? `[` `]`; the second number is that of the `[`.
    Unsized(u32, VectorKind, Option<Sign>, u32),
}

/// An unpacked dimension of a formal of an import (35.5.6.1).
#[derive(Drop)]
pub enum ImportDimension {
    /// A dimension.
    Sized(Dimension),
    /// `[` `]`, with the number of the `[`.
    Unsized(u32),
}
