//! What names mean and which types expressions have, by index.
//!
//! The facts of each file, and the lists of what a design declares, are put into tables once; each
//! question is answered without a search. Of several facts of one token the first counts, and of
//! several entries of a list at one token the first. Files count from 0, tokens from 0 in their
//! file, and numbers are positions in the lists. Want of memory is the one other answer, and comes
//! only while the tables are made.
//!
//! Stated in `specs/`: `Numbers` (positions in a list), `Facts` (what facts say of a token) and
//! `Meanings`, both together.
#![tactic(auto)]

mod facts;
mod lookup;
mod numbers;
mod places;

pub use lookup::{Lookup, Meaning};
pub use numbers::Numbers;
pub use places::HasPlace;
