//! The tokens of a C file as a parser reads them, and the parts of one token: names, numbers,
//! characters, strings and defines.
//!
//! A cursor stands before a token; tokens count from 0, and the end of the file counts as one. The
//! class of the next token is looked up once. Each function that reads answers as its namesake in
//! `specs/Reading.antt` does, unless memory runs out; a part takes memory for its bytes. That those
//! are exact for the trees that `c_tree` says is in `proofs/LeafRules.antt` (ISO C 6.4). A level that
//! shows at a token is opened by the token that `opener` answers.
#![tactic(auto)]

mod cursor;
mod leaves;
mod parenthesis;

pub use cursor::Cursor;
pub use leaves::{character, define, name, number, text};
pub use parenthesis::opener;

#[cfg(test)]
mod tests;
