//! Lists whose entries are numbered from 0 by 32 bits.
//!
//! Contracts see such a list as the list of its entries. A list with more entries than there are
//! numbers is refused like want of memory.
#![tactic(auto)]

mod count;
mod numbered;
#[cfg(test)]
mod tests;

pub use count::next;
pub use numbered::Numbered;
