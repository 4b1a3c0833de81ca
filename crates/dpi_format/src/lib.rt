//! Formats of `$display` and `$write` and of C's `printf`, as lists of pieces: bytes that print
//! themselves, and what an argument is printed by (IEEE 1800-2017, 21.2.1; ISO C 7.21.6.1).
//!
//! A format is given by the bytes of its string, escapes already replaced. Each piece tells how it's
//! spelled, and a format is the list of pieces whose spellings are its bytes one behind the other;
//! there is at most one such list. Memory is taken for the list alone. Stated in `specs/`: the
//! pieces of SystemVerilog in `SvFormat`, those of C in `CFormat`; `SvFirst` and `CFirst` say which
//! piece some bytes begin with. Used above by checks of calls and by printing.
#![tactic(auto)]

mod bytes;
mod c_first;
mod c_piece;
mod display;
mod fault;
mod laws;
mod printf;
mod sv_first;
mod sv_piece;
#[cfg(test)]
mod tests;

pub use c_piece::{CLetter, CNumber, CPiece};
pub use display::sv_format;
pub use fault::FormatFault;
pub use laws::formats_are_unambiguous;
pub use printf::c_format;
pub use sv_piece::{SvLetter, SvNumber, SvPiece};
