//! Expressions of C, read from tokens (ISO C 6.5).
//!
//! Each function that reads answers as its namesake in `specs/Reading.antt` does, unless memory
//! runs out; `depth` is the number of levels that are left. `proofs/` shows that those answers are
//! exact for the trees of `c_tree`: the tree that was read is the only one, a refused token is the
//! first with which none goes on, and a level too many is named by the first token with which only
//! deeper trees go on. Levels are a parenthesised expression, the arguments of a call, an index, and
//! the part of a conditional from its `?` on; a cast's parentheses are none. So whether a `(` opens a
//! level is known by the token behind it alone, and shows there. Assignments, chains, prefixes,
//! suffixes and lists are read by loops.
#![tactic(auto)]

mod expressions;
mod front;
mod lead;
mod levels;
mod parts;

pub use expressions::{expr, exprs};
pub use front::begins_expr;
