//! Violations of the languages' rules, and the least of those that a list of files holds.
//!
//! A violation is a place, by number of file and of token, both from 0, and the number of the rule
//! that is broken there; what a number means is said where the rules are. Violations are ordered by
//! file, then token, then rule, so a refusal names the first place in the text and, there, the rule
//! of the least number. A checker keeps the least violation that it has met, in any order of its
//! visits; its contract says that it answers Ok exactly where there is none, else the least, unless
//! memory runs out. Nothing here takes memory.
//! Stated in `specs/`: `Order`, `Least`, `Verdict`; lemmas for loops stand in `proofs/Noting.antt`.
#![tactic(auto)]

mod fault;
mod laws;
#[cfg(test)]
mod tests;
mod violation;

pub use fault::{CheckFault, answer};
pub use laws::{joined_is_least, least_is_least, order_is_total};
pub use violation::{Violation, join, note};
