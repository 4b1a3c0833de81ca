//! What the names of SystemVerilog files mean: scopes, and the rules on names.
//!
//! A name means its innermost declaration around it, and in one scope the first one in the text
//! (IEEE 1800-2017, 23.9). Nothing orders declaration and use. Inside a function with a result the
//! function's own name is the result wherever a value stands (13.4.1); a call and `disable` pass the
//! result over. Rule 4 refuses a second declaration in one scope, rule 5 an unknown name, rule 6 a
//! name of the wrong kind, and rule 23 what `disable` can't end. Names are bytes; tokens count from 0
//! in their file. Want of memory is the one other answer.
//! Stated in `specs/`: `Names` (one scope), `Scopes` (scopes around a place) and `Uses`.
#![tactic(auto)]

mod blocks;
mod declarations;
mod declaring;
mod entry;
mod scope;
mod scopes;
mod subroutines;
mod uses;

pub use blocks::declare_blocks;
pub use declarations::{block_scope, for_scope, module_scope};
pub use declaring::{declare, declare_label};
pub use entry::{Entry, Thing};
pub use scope::Scope;
pub use scopes::Scopes;
pub use subroutines::{function_scope, task_scope};
pub use uses::{
    Callee, called, exported, note_call, note_disable, note_export, note_value, value_kind,
};
