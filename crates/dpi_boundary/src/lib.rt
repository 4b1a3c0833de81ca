//! Types at the boundary between SystemVerilog and C: which C type a formal or a result has, and
//! which signatures are equal.
//!
//! A C type fits a formal or a result where it is the one of the table (IEEE 1800-2017, 35.5.6, H.7
//! and H.10), but for two freedoms: const may be left out or added on an input and on an open array's
//! handle, and a `byte` may be `char` or `unsigned char`. Signatures are equal where kind, result,
//! number, directions, leaf types and dimension sizes are (35.5.4). A part that is refused has no
//! type; it fits, and equals, every other, since another rule names it. Nothing here takes memory or
//! can fail.
//! Stated in `specs/`: the table in `Table`, what fits it in `Fits` and `Functions`, equal kinds in
//! `Kinds` and equal signatures in `Signatures`.
#![tactic(auto)]

mod fits;
mod functions;
mod kinds;
mod signatures;
mod table;

pub use fits::{fits_formal, fits_result, fits_variable};
pub use functions::{fits_export, fits_import};
pub use kinds::{same_formal_kind, same_kind};
pub use signatures::{same_export, same_import};
pub use table::{input_type, is_small, output_type, result_type};
