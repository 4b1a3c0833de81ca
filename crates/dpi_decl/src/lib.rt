//! Linked files: a design and a program that fit, and what the two tell together.
//!
//! An import calls the C function of its name in C; in a scope, a name in C means the export of the
//! scope's module that has it (IEEE 1800-2017, 35.4 to 35.9). `link` refuses the least violation of
//! the rules of `dpi_links`, those in SystemVerilog files before those in C files. Contracts see linked
//! files as the trees of both languages; files count from 0, for each language, and what a design and a
//! program list is numbered from 0. Want of memory is the one other answer.
//! Stated in `specs/`: `Verdict` (what linking answers), `Pair` and `Linked` (what linked files are and
//! keep), `Exports` (exports by scope and name) and `Functions` (the function that an import calls).
#![tactic(auto)]

mod exports;
mod fault;
mod functions;
mod linked;
mod linking;

pub use exports::{ExportName, exported_names, names_at, number_named};
pub use fault::LinkFault;
pub use functions::imported_functions;
pub use linked::Linked;
pub use linking::link;
