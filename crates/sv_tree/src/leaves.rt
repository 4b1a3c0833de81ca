//! Parts that are one token with a value.

use sqlite_items::Items;

/// An identifier (IEEE 1800-2017, 5.6), with its bytes.
#[derive(Drop)]
pub struct Name {
    /// The number of its token.
    pub token: u32,
    /// Its bytes.
    pub bytes: Items<u8>,
}

/// A number (5.7), with its bytes.
#[derive(Drop)]
pub struct Number {
    /// The number of its token.
    pub token: u32,
    /// Its bytes, from the size or the first digit on.
    pub bytes: Items<u8>,
}

/// A string (5.9), with its bytes.
#[derive(Drop)]
pub struct Text {
    /// The number of its token.
    pub token: u32,
    /// Its bytes, with the quotes.
    pub bytes: Items<u8>,
}

/// A bound of a dimension or a range, `-`? number.
#[derive(Drop)]
pub struct Bound {
    /// The number of its first token.
    pub token: u32,
    /// Whether a `-` stands before the number.
    pub negative: bool,
    /// The number.
    pub number: Number,
}
