//! Parts that are one token with a value.

use sqlite_items::Items;

/// An identifier (ISO C 6.4.2), with its bytes.
#[derive(Drop)]
pub struct Name {
    /// The number of its token.
    pub token: u32,
    /// Its bytes.
    pub bytes: Items<u8>,
}

/// A number (6.4.4.1), with its bytes.
#[derive(Drop)]
pub struct Number {
    /// The number of its token.
    pub token: u32,
    /// Its bytes, with the suffix.
    pub bytes: Items<u8>,
}

/// A character (6.4.4.4), with its bytes.
#[derive(Drop)]
pub struct Character {
    /// The number of its token.
    pub token: u32,
    /// Its bytes, with the quotes.
    pub bytes: Items<u8>,
}

/// A string (6.4.5), with its bytes.
#[derive(Drop)]
pub struct Text {
    /// The number of its token.
    pub token: u32,
    /// Its bytes, with the quotes.
    pub bytes: Items<u8>,
}

/// A define (6.10.3), with its bytes.
#[derive(Drop)]
pub struct Define {
    /// The number of its token.
    pub token: u32,
    /// Its bytes, from the `#` to the last one of its number.
    pub bytes: Items<u8>,
}
