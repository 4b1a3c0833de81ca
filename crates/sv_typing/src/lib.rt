//! Types of SystemVerilog expressions, and the rules on types.
//!
//! No name is known here: given what the parts of an expression are, each call says what the whole is
//! and notes what it violates (IEEE 1800-2017, 11.3 to 11.8 and Table 11-21). Widths are in bits, from
//! 1 to 1,024; files and tokens are numbered from 0. A part that holds a violation has no type, and no
//! rule on types looks at it. A context widens the operands inside it, so an expression carries the
//! least violation among its arithmetic operators that a context past 64 bits comes to.
//! Memory is taken where a call is given an allocator alone. Stated in `specs/`, a module of the same
//! name for each here: the list of what is violated, and the type. Used above by the walk over trees.
#![tactic(auto)]

mod concatenations;
mod conditionals;
mod judged;
mod laws;
mod literals;
mod operators;
mod prefixes;
mod selects;
#[cfg(test)]
mod tests;
mod types;

pub use concatenations::{Joint, cast, concatenated, repeat_count, repeated};
pub use conditionals::conditional;
pub use judged::{note_reached, width_broken};
pub use laws::chains_are_kept;
pub use literals::{null_operand, number_operand, text_operand};
pub use operators::{Binary, Part, operated, rank_of};
pub use prefixes::prefixed;
pub use selects::{
    Selected, part_size, read, select_bits, select_index, select_range, selected_type, variable,
};
pub use types::{ExprType, Operand, inner_type, is_signed, kind_type, part_type, range_left};
