//! The walk over SystemVerilog statements and declarations of variables: what they violate by the
//! names, shapes and types in them.
//!
//! A name means its innermost declaration; a block is a scope of its variables and named blocks, a
//! `for` one of its variable (IEEE 1800-2017, 9.3, 12.7.1 and 23.9). What is assigned fits what it is
//! assigned to: an initialiser, a value behind `return`, each part of a pattern (6.8, 10.4, 10.9, 13.4.1).
//! Conditions, counts, what a `case` compares and what a format shows are judged where they stand
//! (12.4, 12.5, 12.7, 21.2.1). The rules are those of `sv_names` (4, 5, 6 and 23), `sv_shapes` (8 and
//! 9), `sv_judge` (12, 13 and 22), `sv_typing` and `sv_contexts` (14 to 19, 24, 25, 28 and 30); those
//! that the form alone decides stand in `sv_forms`. Files and tokens count from 0. The least violation
//! is kept, so no order of the walk is told. Want of memory is the one other answer.
//! Stated in `specs/`: `Around` (what statements see), `Values`, `Declarations`, `Heads`, `Changes`,
//! `Plain` (statements without statements in them) and `Walk`, the list of what a statement violates,
//! by recursion on its tree.
#![tactic(auto)]

mod around;
mod changes;
mod declarations;
mod heads;
mod plain;
mod values;
mod walk;

pub use around::Around;
pub use declarations::walk_variables;
pub use walk::{walk_body, walk_statement};
