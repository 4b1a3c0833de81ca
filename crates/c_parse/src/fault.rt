//! What stops the reading of a file.

use thiserror::Error;

/// Why a file's tokens aren't read to their end. Tokens are numbered from 0, and the end of the
/// file counts as one.
#[derive(Clone, Copy, Debug, PartialEq, Eq, Error)]
pub enum ParseFault {
    /// The tokens before this one begin a file, and no file goes on with it (ISO C 6.5 to 6.9).
    #[error("syntax error at token {token}")]
    Syntax {
        /// The number of the token.
        token: u32,
    },
    /// This token opens a level too many: it opens a parenthesised expression, the arguments of a
    /// call, an index, the part of a conditional from its `?` on, or a statement in 24 others.
    #[error("too many levels at token {token}")]
    TooDeep {
        /// The number of the token.
        token: u32,
    },
    /// No memory was found for the tree.
    #[error("out of memory")]
    NoMemory,
}
