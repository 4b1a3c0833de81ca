//! Functions and objects that C files share (ISO C 6.2.2, 6.7 and 6.9).
//!
//! A function's type has the types of its parameters as they are adjusted: an array is a pointer, and
//! const of a parameter or of the result itself isn't counted. Rules 3, 4, 5, 21 and 22 are looked at
//! in the types that its declarations write, but for sizes that are names: those depend on the scope.
//! A function of which one declaration in a file is `static` is that file's own, all others are shared
//! by all files: rule 6 refuses another type than that of the first declaration, rule 7 a second body.
//! Rule 24 refuses an `extern` object without a definition of its type and size, and a definition that
//! an earlier file has too. A type with a refused part is unknown and isn't compared. Tokens and files
//! count from 0. Want of memory is the one other answer; the work grows as n log n with the files.
//! Stated in `specs/`: `Params` and `Types` (types of functions), `Declarations`, `Same` and `Again`
//! (functions that are declared again), `Inner`, `Objects` and `Shared` (objects).
#![tactic(auto)]

mod again;
mod declarations;
mod defines;
mod definitions;
mod firsts;
mod inner;
mod objects;
mod params;
mod same;
mod shared;
mod sizes;
mod statics;
mod types;
mod written;

pub use again::note_functions;
pub use declarations::{Declaration, declarations_of};
pub use defines::Defines;
pub use objects::{Object, objects_of};
pub use shared::note_objects;
pub use sizes::{ObjectType, size_cells};
pub use types::FunctionType;
pub use written::{function_type, function_types, note_function_type};
