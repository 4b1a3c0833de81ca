//! Where SystemVerilog expressions are used: what a statement or a call violates by the types of the
//! expressions in it (IEEE 1800-2017, 7.6, 10.4, 10.9, 11.4.1, 12.4, 12.5, 12.7, 21.2.1 and 35.5.6).
//!
//! No name is known here: each call is given what the expressions are, and notes what their use
//! violates. Widths are in bits; files and tokens are numbered from 0. An expression that holds a
//! violation has no type and is passed over. Packed bits that are assigned, or compared by a `case`,
//! are a context of each other, which comes to the arithmetic inside them.
//! Memory is taken where a call is given an allocator alone. Stated in `specs/`, a module of the same
//! name for each here: the list of what is violated. Used above by the walk over statements.
#![tactic(auto)]

mod actuals;
mod assignments;
mod cases;
mod conditions;
mod formats;
mod patterns;

pub use actuals::{note_passed, plain_leaf};
pub use assignments::{note_assigned, note_computed, note_stepped};
pub use cases::note_case;
pub use conditions::{note_condition, note_count};
pub use formats::{Shown, note_format};
pub use patterns::{note_pattern, part_target};
