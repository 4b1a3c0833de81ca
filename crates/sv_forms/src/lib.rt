//! Rules of SystemVerilog that a tree's form alone decides, whatever its names and types mean.
//!
//! A closing label is the opened name (IEEE 1800-2017, 9.3.4 and 23.2.1); `break` and `continue`
//! stand in loops, and `return` in subroutines, with a value exactly in functions that give one
//! (12.8, 13.4.1); a local is initialised in automatic subroutines alone (6.21); no call stands in
//! the initialiser of a variable of a module. Tokens and files count from 0. Each call notes what a
//! part of a tree violates, and the least violation is kept; nothing here takes memory or can fail.
//! Stated in `specs/`: `Labels`, `Calls`, `Statements`, `Items`.
#![tactic(auto)]

mod around;
mod calls;
mod items;
mod labels;
mod statements;

pub use around::{Around, Surroundings};
pub use items::note_file;
