//! What the items of a module see: its scope, and the signatures of its functions, tasks and
//! imports.
//!
//! Signatures stand in text order, and what they violate is noted where the items are. Want of
//! memory is the one other answer.
//! Stated in `specs/`: `Seen` (what stands around items, and what functions and tasks declare).
#![tactic(auto)]

mod signatures;

pub use signatures::{imports_of, kinds_of, subroutines_of};
