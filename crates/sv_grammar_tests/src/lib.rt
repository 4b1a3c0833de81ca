//! Texts of SystemVerilog with what the grammar says of them (IEEE 1800-2017, A.6 to A.8): what is
//! read, the token that is refused, and the token that opens a level too many.
#![tactic(auto)]

#[cfg(test)]
mod expressions;
#[cfg(test)]
mod files;
#[cfg(test)]
mod statements;
