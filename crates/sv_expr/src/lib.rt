//! Expressions of SystemVerilog, read from tokens (IEEE 1800-2017, 11, A.8).
//!
//! Each function answers as its namesake in `specs/Reading.antt` does, unless memory runs out;
//! `depth` is the number of levels that are left. `proofs/` shows that those answers are exact for
//! the trees of `sv_tree`: the tree that was read is the only one, a refused token is the first
//! with which none goes on, and the token that opens a level too many is named. Levels are a
//! parenthesised expression, the actuals of a call, a select, a concatenation, and the part of a
//! conditional from its `?` on. Chains, prefixes, selects and lists are read by loops.
#![tactic(auto)]

mod behind;
mod bounds;
mod expressions;
mod front;
mod levels;
mod parts;
mod tails;

pub use behind::{actuals, flat_call, lvalue};
pub use expressions::{expr, exprs, more_exprs, selects};
pub use front::begins_expr;
