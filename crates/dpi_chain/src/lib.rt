//! Chains of binary operators: which tree a chain means, and its value in one pass from the left.
//!
//! A chain is a first operand and any number of operators, each with an operand behind it. It means
//! its split at the rightmost of the operators that bind least, and so do both sides (IEEE
//! 1800-2017, 11.3.2; ISO C, 6.5). `Chain` keeps the operators whose right operands may still grow.
//! Each of them binds more strongly than the one before, so there are no more of them than ranks,
//! however long the chain is, and nothing recurses. What an operator makes of two values is said by
//! `Operator`, for types as for values.
//! Stated in `specs/`: `Tree`, `Splits`, `Reading`.
#![tactic(auto)]

mod chain;
mod laws;
mod operator;
#[cfg(test)]
mod tests;

pub use chain::Chain;
pub use laws::chains_split;
pub use operator::Operator;
