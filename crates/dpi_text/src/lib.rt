//! The texts that the program prints, byte by byte.
//!
//! Each call appends to a list of bytes, and leaves it as it was where no memory is found. Stated in
//! `specs/FaultLine.antt`.
#![tactic(auto)]

mod lines;
#[cfg(test)]
mod tests;

pub use lines::fault_line;
