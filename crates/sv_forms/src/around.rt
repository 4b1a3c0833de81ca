//! Where a statement stands.

/// The body that a statement is part of.
#[derive(Clone, Copy, Debug, PartialEq, Eq)]
pub enum Surroundings {
    /// An initial block (9.2.1).
    Initial,
    /// A task, or a void function (13.3, 13.4.1).
    Plain,
    /// A function with a result (13.4.1).
    Valued,
}

/// Where a statement stands, as far as the rules of form look at it.
#[derive(Clone, Copy, Debug, PartialEq, Eq)]
pub struct Around {
    /// The body.
    pub body: Surroundings,
    /// Whether it is that of an automatic subroutine (6.21).
    pub automatic: bool,
    /// Whether a loop of this body stands around the statement (12.7).
    pub looped: bool,
}
