//! A part behind the statement of an `if`.

use c_tree::{Else, ElseIf};

/// A part behind the statement of an `if`, from its `else` on (ISO C 6.8.4.1).
#[derive(Drop)]
pub enum Branch {
    /// An `else if` part.
    Other(ElseIf),
    /// The last `else`, whose statement is no `if`.
    Last(Else),
}
