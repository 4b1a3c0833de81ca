//! Calls of `printf`: whether the arguments fit the format (ISO C 7.21.6.1).
//!
//! The first argument is one string token; the others are given by what they are, and None where they
//! hold a violation. Rule 17 is broken at the called name, a token of a file, both counted from 0.
//! Memory is taken for the bytes of the string and its pieces alone.
//! Stated in `specs/`: `Pieces` says which pieces a format has, `Arguments` which arguments fit them,
//! `Strings` which expressions are one string token.
#![tactic(auto)]

mod arguments;
mod strings;

pub use arguments::text_fits;
pub use strings::{arguments_fit, note_printf};
