//! The two languages.

/// A language whose tokens are read.
#[derive(Clone, Copy, Debug, PartialEq, Eq)]
pub enum Language {
    /// SystemVerilog (IEEE 1800-2017).
    SystemVerilog,
    /// C (ISO C).
    C,
}
