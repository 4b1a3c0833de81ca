//! Rules of C that a tree's form alone decides, whatever its names and types mean.
//!
//! `break` and `continue` stand in loops (ISO C, 6.8.6.2 and 6.8.6.3), `return` has a value exactly
//! in functions that give one (6.8.6.4), a function has at most 64 parameters, and what is declared
//! `extern` begins with nothing (6.7.9). Tokens and files count from 0. Each call notes what a part
//! of a tree violates, and the least violation is kept; nothing here takes memory or can fail.
//! Stated in `specs/`: `Declarations`, `Statements`, `Files`.
#![tactic(auto)]

mod around;
mod declarations;
mod files;
mod statements;

pub use around::Around;
pub use files::note_file;
