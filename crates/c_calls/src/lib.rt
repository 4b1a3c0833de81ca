//! The calls of a C file whose names are refused.
//!
//! Who links files knows which functions nobody has, or has with another type. Here each call of such
//! a name is found, in bodies, conditions, initialisers, arguments and wherever else an expression
//! stands (ISO C 6.5.2.2), and breaks the rule of its name, at the name: a token of a file, both
//! counted from 0. The least violation is kept. Memory is taken for the table of names alone.
//! Stated in `specs/`: `Refusals` (the table), `Expressions`, `Statements` and `Files`.
#![tactic(auto)]

mod expressions;
mod files;
mod refusals;
mod statements;
mod variables;

pub use files::note_calls;
pub use refusals::Refusals;
