//! The walk over C expressions: what each violates, and its type (ISO C 6.5).
//!
//! Names are looked up in the scopes around a place, calls by the types of the functions, and types
//! follow from the parts. Here stand rule 3 for `SV_PACKED_DATA_NELEMS` without one number as its
//! argument, and rule 8 for the number of arguments of a function and of a call of `svdpi.h`, both
//! at the called name; rule 9 at the first token of an argument and of a value that is converted;
//! and rule 22 at the first token of a cast's type. The rules on names are those of `c_names`,
//! those on types of `c_typing`, rule 17 is that of `c_printf`. An expression that holds a
//! violation has no type. The least violation is kept, so no order of the walk is told.
//! Assignments, chains, prefixes, suffixes and arguments are walked by loops. Files and tokens
//! count from 0. Want of memory is the one other answer of the walk. What an expression is as a
//! part of an initialiser is told without memory.
//! Stated in `specs/`: `Words` (expressions of one token), `Calls` (what is called), `Judge`, the
//! list of what an expression violates by recursion on its tree, and `Parts`.
#![tactic(auto)]

mod around;
mod assignments;
mod calls;
mod parts;
mod prefixes;
mod walk;
mod words;

pub use around::Around;
pub use assignments::{Side, grouped};
pub use calls::{call_value, callee_of, note_callee, parameter, unless_found};
pub use parts::part_of;
pub use prefixes::{all_prefixed, declared_type};
pub use walk::{judge_condition, judge_expr, judge_value};
pub use words::is_number;
