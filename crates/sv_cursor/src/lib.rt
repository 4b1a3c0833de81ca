//! The tokens of a SystemVerilog file as a parser reads them, and the parts of one or two tokens:
//! names, numbers, strings, bounds and closing labels.
//!
//! A cursor stands before a token; tokens count from 0, and the end of the file counts as one. The
//! class of the next token is looked up once. Each function that reads answers as its namesake in
//! `specs/Reading.antt` does, unless memory runs out; a name takes memory for its bytes. That those
//! are exact for the trees that `sv_tree` says is in `proofs/LeafRules.antt`
//! (IEEE 1800-2017, A.9.3).
#![tactic(auto)]

mod cursor;
mod leaves;

pub use cursor::Cursor;
pub use leaves::{bound, label, name, number, optional_label, text};

#[cfg(test)]
mod tests;
