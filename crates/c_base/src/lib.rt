//! The types of C: what a checked program says of its objects and expressions.
//!
//! A type is a base with at most two stars; widths are in bits, and a pointer is no base. `char` is
//! signed, `short` has 16 bits, `int` 32 and `long long` 64. Nothing here takes memory or can fail.
//! Here stand the types alone, with promotion and the usual arithmetic conversions (ISO C 6.3.1);
//! the rules on them stand in the crates above. Stated in `specs/`: `Base` and `Types`.
#![tactic(auto)]

mod base;
mod ctype;
#[cfg(test)]
mod tests;

pub use base::CBase;
pub use ctype::CType;
