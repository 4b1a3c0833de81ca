//! Texts of C with what the grammar says of them (ISO C17, 6.5 to 6.9): what is read, the token that
//! is refused, and the token that opens a level too many.
#![tactic(auto)]

#[cfg(test)]
mod expressions;
#[cfg(test)]
mod files;
