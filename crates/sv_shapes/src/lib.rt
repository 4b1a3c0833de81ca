//! The kinds of declared variables and formals of SystemVerilog, and what breaks the rules on them.
//!
//! A declared name has a type and unpacked dimensions; they come to a shape of cells, a string or a
//! chandle (IEEE 1800-2017, 6.8, 6.9, 6.11, 6.14, 6.16 and 7.4). A formal of an import may also be an
//! open array, whose packed part or some of whose dimensions are the actual's (35.5.6.1). Rule 8 is
//! about shapes: bounds are plain decimal numbers of 32 signed bits, `[n]` has n from 1 on, an
//! element has at most 1,024 bits, an array at most three dimensions and 65,536 cells. Rule 9 refuses
//! arrays of strings and of chandles, rule 11 open dimensions behind `integer`, `string` and
//! `chandle`. A violation names a token by its number; nothing here takes memory.
//! Stated in `specs/`: `Bounds`, `Elements`, `Dimensions`, `Limits` and `Kinds`, with the list of all
//! violations of a declaration; `Formals` and `Imports` for formals of imports.
#![tactic(auto)]

mod bounds;
mod dimensions;
mod elements;
mod formals;
mod imports;
mod kinds;
mod laws;

pub use bounds::{bound_value, note_bound};
pub use dimensions::{dimension_range, note_dimension, note_dimensions};
pub use elements::{Element, element_of, note_type};
pub use formals::{OpenDims, OpenElement, OpenLeaf};
pub use imports::{FormalKind, formal_kind, note_formal, note_formal_dimensions};
pub use kinds::{VarKind, kind_of, variable_kind};
pub use laws::kinds_are_clean;
