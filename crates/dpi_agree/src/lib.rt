//! The rules on imports and exports that share a name in C.
//!
//! Imports of one name in C, of whatever modules, have equal signatures (rule 5), and so have exports
//! of one name (rule 10); a module exports one name once (rule 9) (IEEE 1800-2017, 35.5.4 and 35.5.5).
//! Each is compared with the first of its name, and what is broken stands at the later name. Tokens
//! and files count from 0. The least violation is kept; want of memory is the one other answer.
//! Stated in `specs/`: `Firsts` (the first of each name), `Imports` and `Exports`.
#![tactic(auto)]

mod exports;
mod imports;

pub use exports::{LinkedExport, note_second_exports, note_unequal_exports};
pub use imports::{LinkedImport, note_unequal_imports};
