//! The rules of linking, over the files of both languages.
//!
//! An import calls the C function of its name in C, which has a body in some C file (rule 6) and a
//! type that fits (rule 7); imports of one name are equal (rule 5). An export makes a function or a
//! task of its module known to C (rule 8), once a module (rule 9), equal where the name is (rule
//! 10), under a name that no C body has (rule 14). C calls a prototype without a body only where it
//! is such a name (rule 12) and its type fits (rule 13). A `static` function is its file's own and
//! stands for no import and no export. Rules 1 to 4 and 11, and the names of rule 14, are those of
//! `dpi_items` (IEEE 1800-2017, 35.4 to 35.9 and Annex H; ISO C 6.2.2). Both languages' own rules
//! hold for files that are linked: a refused type or kind is passed over. Files and tokens count
//! from 0, for each language. The least violation is kept; want of memory is the one other answer.
//! Stated in `specs/`: `Link` (all rules), on `Imports`, `Exports`, `Calls` and `Functions` (bodies
//! by name).
#![tactic(auto)]

mod calls;
mod exported;
mod exporters;
mod exports;
mod functions;
mod imports;
mod link;

pub use functions::{Bodies, shared_bodies};
pub use link::{check_c, check_sv};
