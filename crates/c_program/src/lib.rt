//! The functions and objects of a C program that breaks no rule (ISO C 6.2.2, 6.7 and 6.9).
//!
//! Both lists are in text order, file by file: by the file, and then by the token of the place. A
//! function stands in its list once, at its name before its body, without a body at its first
//! prototype. A function of which one declaration in a file is `static` is that file's own; all
//! others are shared by all files. An object stands there at the name that defines it. Files and
//! tokens count from 0. A function with a refused type is left out, and so is an object with a
//! refused size or too many stars. Want of memory is the one other answer; the work grows as n log
//! n with the files.
//! Stated in `specs/`: `Functions`, `Sizes`, `Inside` (declarations in bodies) and `Objects`.
#![tactic(auto)]

mod functions;
mod inside;
mod names;
mod objects;
mod sizes;

pub use functions::{CFunction, functions_of};
pub use objects::{CObject, Life, objects_of};
