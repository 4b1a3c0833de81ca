//! Initialisers: what an object that lasts may begin with, and how many values (ISO C 6.7.9).
//!
//! Each part of an initialiser is something by its form and by what its names mean, which is handed
//! in; no tree is walked. Rule 19 is broken at the `=`, a token of a file, both counted from 0.
//! Nothing here takes memory.
//! Stated in `specs/`: what parts are in `Parts`, numbers of values in `Values`.
#![tactic(auto)]

mod parts;
mod values;

pub use parts::{Part, called, grouped, indexed, is_initial, note_static, prefixed};
pub use values::note_values;
