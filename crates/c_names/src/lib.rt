//! What the names of a C file mean: scopes, and the rules on names (ISO C 6.2.1).
//!
//! A name means its innermost declaration so far; a declarator's scope begins at its end, so who
//! walks a file adds a name where its declarator ends. Names of `svdpi.h` and `printf` mean themselves
//! where nothing declares them. Rule 1 is broken by a second declaration in one scope, rule 2 by an
//! unknown name, rule 3 by a name of the wrong kind, each at the name: a token of a file, both counted
//! from 0. Memory is taken for scopes alone.
//! Stated in `specs/`: `Names` (one scope), `Scopes` (scopes around a place) and `Uses`.
#![tactic(auto)]

mod entry;
mod scope;
mod scopes;
mod uses;

pub use entry::{Entry, Thing};
pub use scope::Scope;
pub use scopes::Scopes;
pub use uses::{Callee, called, name_part, name_value, note_second};
