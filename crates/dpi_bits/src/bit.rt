//! One bit of four states.

/// A bit of SystemVerilog (IEEE 1800-2017, 6.3.1).
#[derive(Clone, Copy, Debug, Drop, PartialEq, Eq)]
pub enum Bit {
    /// A logic 0.
    Zero,
    /// A logic 1.
    One,
    /// High impedance; operators take it as an unknown bit.
    Z,
    /// Unknown.
    X,
}
