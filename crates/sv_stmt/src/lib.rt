//! Statements of SystemVerilog and declarations of variables, read from tokens (IEEE 1800-2017, 6.8,
//! 9.3, 12, 13, A.6).
//!
//! Each function answers as its namesake in `specs/` does, unless memory runs out; `depth` is the
//! number of levels that are left. `proofs/` shows that those answers are exact for the trees of
//! `sv_tree`: the tree that was read is the only one, a refused token is the first with which none
//! goes on, and the token that opens a level too many is named. A block, an `if` with all its `else`
//! parts, a `case`, a loop, a `void` and a pattern open a level at their first token; lists of
//! statements, of `else if` parts and of variables open none and are read by loops.
#![tactic(auto)]

mod branches;
mod changes;
mod declarators;
mod front;
mod jumps;
mod levels;
mod named;
mod nested;
mod tasks;

pub use declarators::{declarations, variables};
pub use front::begins_statement;
pub use nested::{statement, statements};
