//! Packed values of SystemVerilog: 1 to 1,024 bits of four states, bit 0 first
//! (IEEE 1800-2017, 6.3, 7.4.1 and 11.4).
//!
//! Contracts see a value as its list of bits; the code has words of 32 of them (H.10.1.2). A call
//! takes memory only for a result of more than 128 bits. Arithmetic is on at most 64 bits.
//! Stated in `specs/`: the states in `Bits.antt`, lists in `Lists.antt` and `Parts.antt`, numbers
//! in `Numbers.antt` and `Arithmetic.antt`, the laws in `Laws.antt`; used above for variables,
//! expressions and the words that C sees.
#![tactic(auto)]

mod arithmetic;
mod bit;
mod compare;
mod laws;
mod logic;
mod numbers;
mod packed;
mod parts;
mod reduce;
mod shift;
mod signed;
mod sought;
mod window;
mod word;

pub use bit::Bit;
pub use laws::{equal_by_words, part_of_concatenation, resized_and_back};
pub use packed::Packed;
pub use word::Word4;

#[cfg(test)]
mod tests;
