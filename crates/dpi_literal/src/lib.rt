//! What single tokens of both languages stand for: the form, the bits and the value of a number,
//! the type and the value of a constant of C, the bytes of a string (IEEE 1800-2017, 5.7 and 5.9;
//! ISO C, 6.4.4 and 6.4.5).
//!
//! A token is given by its bytes. Every call answers for all bytes; where they are no token of its
//! kind the definitions say what it answers. Memory is taken by the calls that are given an
//! allocator alone. Stated in `specs/`: numbers of SystemVerilog in `SvNumber`, constants of C in
//! `Constants`, strings in `Texts`; used above by the checks of both languages and their meanings.
#![tactic(auto)]

mod bits;
mod bytes;
mod c_constants;
mod c_define;
mod decimal;
mod digits;
mod form;
mod known;
mod number_type;
mod parts;
mod texts;

pub use bits::sv_value;
pub use c_constants::{CConstant, c_character, c_number};
pub use c_define::{c_define_name, c_define_value};
pub use decimal::sv_decimal;
pub use form::{NumberForm, NumberKind, sv_form};
pub use known::sv_known;
pub use number_type::NumberType;
pub use texts::{read_back, text_of};

#[cfg(test)]
mod tests;
