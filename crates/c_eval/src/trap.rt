//! What stops an operator.
use c_memory::MemTrap;
use thiserror::Error;

/// What stops an operator of C. A shift looks for `ShiftRange`, then for `SignedOverflow`.
#[derive(Clone, Copy, Debug, PartialEq, Eq, Error)]
pub enum OpTrap {
    /// A signed result that its type doesn't have, a signed remainder whose quotient its type
    /// doesn't have, or a left shift of a negative number (ISO C 6.5, 6.5.5, 6.5.7).
    #[error("signed overflow")]
    SignedOverflow,
    /// A quotient or remainder by 0 (ISO C 6.5.5).
    #[error("division by zero")]
    DivideByZero,
    /// A shift by a negative number, or by the width or more (ISO C 6.5.7).
    #[error("shift count out of range")]
    ShiftRange,
    /// What stops arithmetic on pointers.
    #[error("{0}")]
    Memory(MemTrap),
}
