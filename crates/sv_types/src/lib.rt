//! The parser of types and dimensions of SystemVerilog, and of those that only imports have.
//!
//! Each function reads one production behind a cursor, and answers as its namesake in
//! `specs/Reading.antt` does, unless memory runs out: the tree and what is left, or the number of
//! the first token, from 0, with which no type or dimension goes on (IEEE 1800-2017, A.2.2, A.2.5).
//! That those functions are exact for the trees of `sv_tree` is in `proofs/`. A type opens no level.
#![tactic(auto)]

mod data_types;
mod imported;
mod unpacked;

pub use data_types::{begins_data_type, begins_dimension, data_type};
pub use imported::{import_dimension, import_dimensions, import_type};
pub use unpacked::{dimension, dimensions};

#[cfg(test)]
mod tests;
