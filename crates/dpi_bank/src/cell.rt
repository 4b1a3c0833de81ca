//! One cell.

/// One cell of an element. A cell of two states has its bits in `a`, and `b` is 0. A cell of four
/// states has its aval bits in `a` and its bval bits in `b`, a scalar `logic` too
/// (IEEE 1800-2017, H.10.1.2).
#[derive(Clone, Copy, Debug, Default, PartialEq, Eq)]
pub struct Cell {
    /// The bits of two states, or the aval bits.
    pub a: u64,
    /// The bval bits; 0 in two states.
    pub b: u32,
}
