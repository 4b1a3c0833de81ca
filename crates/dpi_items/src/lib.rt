//! The rules of linking that one import or export decides, with the subroutine that is exported.
//!
//! Rule 1 is about the string behind `import` or `export`, 2 about `pure`, 3 and 11 about results
//! that aren't small, 4 about `integer` formals, and 14 about the names in C that no export may have
//! (IEEE 1800-2017, 35.4, 35.5.2, 35.5.4 to 35.5.6). Tokens and files count from 0. Each call notes
//! what a part violates, and the least violation is kept; nothing here takes memory or can fail.
//! Stated in `specs/`: `Names`, `Integers` and `Items`.
#![tactic(auto)]

mod integers;
mod items;
mod names;

pub use items::{note_export, note_exported_function, note_exported_task, note_import};
pub use names::{export_c_name, import_c_name, is_taken};
