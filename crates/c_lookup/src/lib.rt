//! What names of a C program mean and which types expressions have, by index.
//!
//! The facts of each file are put into tables once, beside the numbers of objects and functions by
//! the tokens that declare them; each question is answered without a search. An object that is
//! declared `extern` has the number of the object that a file defines under its name (ISO C 6.2.2).
//! A function has the number of its entry at each of its declarations: one that is static in a file
//! that file's own entry, every other one the entry that all files share. Of several facts of one
//! token the first counts. Files count from 0, tokens from 0 in their file, and numbers are
//! positions in the lists of `c_program`. A program that breaks no rule is expected. Want of memory
//! is the one other answer, and comes only while the tables are made.
//!
//! Stated in `specs/`: `Facts` (what facts say of a token), `Names` (numbers by name), `Functions`
//! and `Objects` (numbers by token), and `Meanings`, all together.
#![tactic(auto)]

mod facts;
mod functions;
mod lookup;
mod names;
mod numbers;
mod objects;

pub use lookup::{CLookup, CMeaning};
