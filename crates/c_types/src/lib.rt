//! Types of C, as a parser reads them: their base, with `const` before and behind it, and stars.
//!
//! Each function that reads answers as its namesake in `specs/Reading.antt` does, unless memory
//! runs out; a list takes memory. That those are exact for the trees that `c_tree` says is in
//! `proofs/BaseRules.antt` and `proofs/TypeRules.antt` (ISO C 6.7.2, 6.7.3, 6.7.6.1).
#![tactic(auto)]

mod types;

pub use types::{begins_type, stars, type_name};

#[cfg(test)]
mod tests;
