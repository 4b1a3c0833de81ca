//! The walk over SystemVerilog expressions: what each violates, and its type.
//!
//! Names are looked up in the scopes around a place, calls by the signatures of the module, and types
//! follow from the parts (IEEE 1800-2017, 11 and 13). Here stand rule 12 (the number of actuals, at
//! the called name), rule 13 (an output or inout actual that can't be assigned to, at its first token)
//! and rule 22 (a task or a void function called in an expression, a task called in a function, at the
//! called name); the rules on names are those of `sv_names`, those on types of `sv_typing` and
//! `sv_contexts`. An expression that holds a violation has no type. The least violation is kept, so no
//! order of the walk is told. Chains, prefixes, selects and actuals are walked by loops. Files and
//! tokens count from 0. Want of memory is the one other answer of the walk.
//! Stated in `specs/`: `Forms`, `Calls` (what is called) and `Judge`, the list of what an expression
//! violates by recursion on its tree.
#![tactic(auto)]

mod calls;
mod forms;
mod place;
mod prefixes;
mod walk;

pub use calls::{
    Passing, call_value, note_callee, note_passed, passing_at, result_of, unless_found,
};
pub use forms::{Form, Whole, chain_form, joint, number_form, other, plain_leaf};
pub use place::Place;
pub use prefixes::{all_prefixed, with_prefixes};
pub use walk::{judge_call, judge_expr, judge_lvalue};
