//! The names of `svdpi.h`, with their types (IEEE 1800-2017, Annex I), and that of `printf`.
//!
//! A call is known by its name; it has a result, and parameters counted from 0. The declarations with
//! `...` take one to three indices. `printf` is a name here and no more. Rule 8 is about the number of
//! arguments of a call, rule 21 about declarations of these names; a violation names a token of a
//! file, both counted from 0. Nothing here takes memory.
//! Stated in `specs/`: the names in `Names`, types and numbers of arguments in `Types`, constants and
//! the names that can't be declared in `Reserved`.
#![tactic(auto)]

mod call;
mod reserved;
mod types;

pub use call::{CALLS, Call, Indices, Query, States, call_named};
pub use reserved::{
    is_printf, is_reserved, is_word_count, note_reserved, scalar_named, word_count,
};
pub use types::note_count;
