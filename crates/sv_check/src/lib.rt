//! SystemVerilog files as a design: the least rule that they break, or what they tell.
//!
//! Files count from 0 in the order of the command, tokens from 0 in their file. The least violation is
//! that of the least file, in it of the least token, at it of the least rule. Rules 1 to 3 look at all
//! files together; the others at one module alone (IEEE 1800-2017, 13, 23 and 35). A design keeps the
//! trees; contracts see it as the list of its files, of which each call tells something. What it
//! lists is numbered from 0. Want of memory is the one other answer.
//! Stated in `specs/`: `Check` (all violations of a list of files, as one list), `Modules` (what a
//! module's names, signatures and items violate), `Facts` (what names mean in the files, and the types
//! of expressions), `Formals` (shapes of formals) and `Design` (what a design keeps).
#![tactic(auto)]

mod design;
mod elaboration;
mod facts;
mod files;
mod formals;
mod items;
mod lists;
mod modules;

pub use design::Design;
pub use elaboration::elaborate;
pub use files::check;
