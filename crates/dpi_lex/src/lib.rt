//! Tokens of both languages: the words of a text with their places, or the first place where none
//! fits (IEEE 1800-2017, clause 5; ISO C, 6.4).
//!
//! A place is a number of bytes from 0; lines and columns count from 1, columns in bytes. A text
//! has at most 1,048,576 bytes. Memory is taken by the calls that are given an allocator alone.
//!
//! A language says of a whole stretch of bytes what it is: skipped, a token, or a fault
//! (`specs/SystemVerilog.antt`, `specs/C.antt`). The stretch at a place is the longest from there
//! that is anything, and the tokens follow from stretch to stretch (`specs/Stretches.antt`). What
//! a text with tokens is stands in `specs/Lexed.antt` and `specs/Words.antt`, where a place lies
//! in `specs/Place.antt`.
#![tactic(auto)]

mod bytes;
mod c_front;
mod c_numbers;
mod characters;
mod comments;
mod define;
mod digits;
mod fault;
mod form;
mod language;
mod lexer;
mod listed;
mod place;
mod spaces;
mod sv_front;
mod sv_numbers;
mod texts;
mod token;
mod tokens;
mod words;

pub use fault::LexFault;
pub use lexer::{c_tokens, sv_tokens};
pub use place::line_column_of;
pub use token::{Kind, Token};
pub use tokens::Tokens;

#[cfg(test)]
mod tests;
