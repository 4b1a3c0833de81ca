//! Banks: the cells in which the values of SystemVerilog variables stand.
//!
//! A cell holds up to 64 bits of an element, and a second digit for each of its low 32 bits where
//! they have four states. Nothing here takes memory.
#![tactic(auto)]

mod cell;

pub use cell::Cell;
