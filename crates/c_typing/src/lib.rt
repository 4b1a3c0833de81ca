//! The types of C expressions, and the rules on types.
//!
//! An expression without a violation has a type and may name an object; an array's type is the
//! pointer to its first cell (ISO C 6.3.2.1). Each function here judges one operator, conversion or
//! declarator by the types of its operands alone: no name is looked up and no tree is walked. It
//! answers what the part is, None where the part holds a violation, and notes the rule that is broken
//! at a place: a token of a file, both counted from 0. A part of which an operand has no type isn't
//! looked at.
//! The rules are 4, 5 and 22 on declared types, 9 on conversions, 10 to 14 and 22 on operators, 18 on
//! casts and 25 on conditions. Nothing here takes memory.
//! Stated in `specs/`: `Judged` says what a judged part is, `Pointers` and `Operands` what types and
//! operands are, `Written`, `Conversions`, `Casts`, `Unary`, `Postfix`, `Binary`, `Assigning` and
//! `Choices` what each part breaks and gives.
#![tactic(auto)]

mod assignments;
mod binaries;
mod casts;
mod chain;
mod choices;
mod constants;
mod conversions;
mod operand;
mod place;
mod pointers;
mod suffixes;
mod unaries;
mod written;

pub use assignments::assignment;
pub use binaries::{binary, rank};
pub use casts::cast;
pub use chain::{Sign, Typed, typed_joins};
pub use choices::choice;
pub use constants::{base_of_number, character, constant, null, number, text};
pub use conversions::{converts, note_condition, note_conversion};
pub use operand::{Form, Operand};
pub use place::Place;
pub use pointers::{bare, is_opaque, is_scalar, pointer_to};
pub use suffixes::{arrow, dot, index};
pub use unaries::{step, unary};
pub use written::{
    Declared, adjusted, base_of, cells_of, declared_of, note_size, note_stars, note_void,
};
