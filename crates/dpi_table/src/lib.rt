//! Tables by token: a value of a token is found by index.
//!
//! What is told of the tokens of a file is filled in once and asked for often. A table has a cell
//! for each token up to the greatest one with a value, so it takes memory by a file's length and
//! answers at once. The first value of a token counts. Files count from 0, and tokens from 0 in
//! their file. Want of memory is the one other answer.
//! Stated in `specs/`: `Tables` (the tokens of one file) and `Files` (those of several).
#![tactic(auto)]

mod table;
mod tables;
#[cfg(test)]
mod tests;

pub use table::Table;
pub use tables::Tables;
