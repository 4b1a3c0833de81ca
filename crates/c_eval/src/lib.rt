//! The operators of C on typed values, over unbounded whole numbers.
//!
//! A whole number stands in its cell by its bits at the width of its type, in two's complement,
//! with no bit past the width. An operator works at the type that promotion and the usual
//! arithmetic conversions give (ISO C 6.3.1): the mathematical result, modulo 2 to the width where
//! that type is unsigned, and a trap where it is signed and doesn't have it (6.2.5, 6.5). Nothing
//! here takes memory. Stated in `specs/`: `Whole` (numbers and bits), `Operators` (results and traps at one
//! type), `Values` (truth, equality), `Numbers`, `Pointers`, `Unary`, `Binary`, `Convert`.
#![tactic(auto)]

mod arithmetic;
mod binaries;
mod conversions;
mod numbers;
mod operator;
mod pointers;
mod shift;
#[cfg(test)]
mod tests;
mod trap;
mod unaries;
mod value;
mod whole;

pub use binaries::binary;
pub use conversions::convert;
pub use operator::{CBinOp, CUnOp};
pub use trap::OpTrap;
pub use unaries::unary;
pub use value::CValue;
