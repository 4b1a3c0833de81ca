//! The signatures of functions, tasks and imports of SystemVerilog: the result, and each formal with
//! its direction and its kind.
//!
//! A formal without direction and type takes both from the one before it, one with a type alone the
//! direction; the first one's direction is input where none is written (IEEE 1800-2017, 13.3, 13.4
//! and 35.5.6). Rule 10 refuses a formal with a direction and no type, and a first formal with no
//! type, at its name; formals behind it that take its type have none. Rule 27 refuses more than 64
//! formals, at the name of the 65th. Rules 8, 9 and 11, on shapes, are those of `sv_shapes`. What is
//! refused has no kind. Tokens count from 0 in their file. Want of memory is the one other answer.
//! Stated in `specs/`: `Before` (what a formal takes over), `Formals`, `Imports` and `Signatures`.
#![tactic(auto)]

mod before;
mod formals;
mod imports;
mod results;
mod signatures;

pub use formals::Formal;
pub use imports::ImportFormal;
pub use results::Returns;
pub use signatures::{
    ImportSignature, Signature, function_signature, import_signature, task_signature,
};
