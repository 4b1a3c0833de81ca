//! A token: its kind and its span.

/// What a token is.
#[derive(Clone, Copy, Debug, PartialEq, Eq)]
pub enum Kind {
    /// An identifier, a keyword or a system name.
    Word,
    /// A number with all that belongs to it: base, digits, suffix.
    Number,
    /// A character of C with its quotes.
    Character,
    /// A string with its quotes.
    Text,
    /// An operator or a mark of punctuation.
    Sign,
    /// A whole `#define` of C, from the `#` to the last byte of its number.
    Define,
}

/// A token of a text: the bytes from `start` up to `end`, both in bytes from the text's beginning.
#[derive(Clone, Copy, Debug, PartialEq, Eq)]
pub struct Token {
    /// What it is.
    pub kind: Kind,
    /// The place of its first byte.
    pub start: u32,
    /// The place after its last byte.
    pub end: u32,
}
