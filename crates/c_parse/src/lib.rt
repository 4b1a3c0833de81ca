//! Files of C, read from tokens: declarations, statements and functions (ISO C 6.7 to 6.9).
//!
//! `parse` answers the one tree that a list of tokens is, or the token at which it stops being one;
//! tokens are numbered from 0, and the end counts as one. `specs/Answer.antt` says so over the
//! trees of `c_tree`, with no parser in it; `tree_is_one` is the law that there is no second tree,
//! and `answer_is_one` the one that no other answer is right.
//! Each function that reads answers as its namesake in `specs/Reading*.antt` does, unless memory
//! runs out, and `proofs/` shows that those answers are exact; `depth` is the number of levels that
//! are left. Levels are a block, an `if` with all its `else if` parts, a loop, and those of
//! expressions. Parts of blocks, `else if` parts and lists are read by loops.
#![tactic(auto)]

mod branch;
mod fault;
mod file;
mod front;
mod head;
mod law;
mod levels;
mod parameters;
mod parser;
mod simple;
mod sizes;
mod statements;
mod variables;

pub use fault::ParseFault;
pub use law::{answer_is_one, tree_is_one};
pub use parser::parse;
