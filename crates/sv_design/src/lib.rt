//! The lists of a design: what its modules declare, by number.
//!
//! Each list goes over the files and their modules in text order, once for each module and not for
//! each instance. A design without violations is expected: what is refused is left out. Files count
//! from 0, tokens from 0 in their file, and numbers are positions in these lists. Want of memory is
//! the one other answer.
//!
//! Stated in `specs/`: `Declarations` (variables), `Statements` (those in statements), `Items`
//! (those of functions, tasks and modules), `Counted` (numbers of what stands before),
//! `Subroutines`, `Imports`, `Exports`, `Blocks` (named blocks in statements) and `Places` (initial
//! blocks and named blocks).
#![tactic(auto)]

mod blocks;
mod declarations;
mod exports;
mod imports;
mod items;
mod numbers;
mod places;
mod statements;
mod subroutines;

pub use declarations::{Declaration, Owner};
pub use exports::{Export, exports_of};
pub use imports::{Import, ImportFormal, imports_of};
pub use items::declarations_of;
pub use places::{Place, blocks_of, initials_of};
pub use subroutines::{Formal, Subroutine, subroutines_of};
