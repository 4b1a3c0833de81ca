//! C files as a program: the least rule that they break, or what they tell.
//!
//! Files count from 0 in the order of the command, tokens from 0 in their file. The least violation is
//! that of the least file, in it of the least token, at it of the least rule. Each file is looked at
//! by its form, by the types that its functions write, and by names, types and initialisers in text
//! order; all files together by the functions and the objects that they share. A program keeps the
//! trees; contracts see it as the list of its files, of which each call tells something. What it lists
//! is numbered from 0. Want of memory is the one other answer.
//! Stated in `specs/`: `Check` (all violations of a list of files, as one list), `Facts` (what names
//! mean in the files, and the types of expressions) and `Program` (what a program keeps).
#![tactic(auto)]

mod elaboration;
mod facts;
mod files;
mod lists;
mod programs;

pub use elaboration::program;
pub use files::check;
pub use programs::CProgram;
