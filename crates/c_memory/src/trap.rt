//! What stops an access.
use thiserror::Error;

/// What stops an access to C memory. Where several hold, the answer is the first in this order.
#[derive(Clone, Copy, Debug, PartialEq, Eq, Error)]
pub enum MemTrap {
    /// The pointer is null (ISO C 6.5.3.2).
    #[error("null pointer")]
    Null,
    /// The object has ended, or was never made (ISO C 6.2.4).
    #[error("the object has ended")]
    Dead,
    /// The place is outside the object: for a move, before it or more than one past its last cell
    /// (ISO C 6.5.6).
    #[error("outside the object")]
    OutOfBounds,
    /// The type isn't the cell's, signedness aside (ISO C 6.5).
    #[error("another type")]
    TypeMismatch,
    /// The object can't be written.
    #[error("read-only object")]
    ReadOnly,
    /// The cell has no value.
    #[error("a cell without a value")]
    Uninitialised,
    /// The two pointers are into two objects (ISO C 6.5.6, 6.5.8).
    #[error("pointers into two objects")]
    DifferentObjects,
}
