//! Where a statement stands.

/// Where a statement stands, as far as the rules of form look at it.
#[derive(Clone, Copy, Debug, PartialEq, Eq)]
pub struct Around {
    /// Whether the function around it has a result (ISO C, 6.8.6.4).
    pub valued: bool,
    /// Whether a loop stands around it (6.8.5).
    pub looped: bool,
}
