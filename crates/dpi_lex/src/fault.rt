//! What stops the reading of tokens.

use thiserror::Error;

/// Why a text has no tokens. The place is a number of bytes from 0.
#[derive(Clone, Copy, Debug, PartialEq, Eq, Error)]
pub enum LexFault {
    /// A byte at which no token begins, or that a string can't hold.
    #[error("bad byte at {place}")]
    BadByte {
        /// The byte's place.
        place: u32,
    },
    /// A number that breaks a rule of its form or is past its limit.
    #[error("bad number at {place}")]
    BadNumber {
        /// The place of the number's first byte.
        place: u32,
    },
    /// A string or a comment without its end.
    #[error("unclosed at {place}")]
    Unclosed {
        /// The place of its first byte.
        place: u32,
    },
    /// No memory was found for the tokens.
    #[error("out of memory")]
    NoMemory,
}
