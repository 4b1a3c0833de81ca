//! What SystemVerilog files tell: what each name in them means, and the type of each expression.
//!
//! A fact speaks of a token, and the facts of a file are listed in text order. A name means its
//! innermost declaration around it (IEEE 1800-2017, 23.9), wherever in its scope that stands; a
//! name that is called or disabled means the innermost that isn't the result of a function. A
//! declared name means itself; labels behind `end` and names of instances mean nothing, nor do the
//! formals of imports. Files count from 0 in the order of the command, tokens from 0 in their file.
//! Want of memory is the one other answer.
//! Stated in `specs/`: `Places` (where expressions stand), `Declarations`, `Changes`, `Statements`,
//! `Items` and `Files`, each the list of what a part tells, by its tree.
#![tactic(auto)]

mod changes;
mod declarations;
mod files;
mod items;
mod places;
mod statements;

pub use files::facts_of;
