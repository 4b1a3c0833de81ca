//! C memory: numbered objects of typed cells, and the traps of every access to them.
//!
//! Objects are numbered from 1 in the order in which they begin, and no number is used twice. A
//! pointer is null or a number and an offset in cells. An object is a list of cells of one type, of
//! which some may have no value (ISO C 6.2.4, 6.5.6). Only what makes objects takes memory.
//! Stated in `specs/`: `CellType`, `Object` (used bits, what a store keeps), `Memory` (the map, the
//! order of the traps).
#![tactic(auto)]

mod access;
mod ccell;
mod cell_type;
mod memory;
mod moves;
mod object;
mod objects;
mod pointer;
#[cfg(test)]
mod tests;
mod trap;

pub use ccell::CCell;
pub use cell_type::CellType;
pub use memory::Memory;
pub use pointer::Pointer;
pub use trap::MemTrap;
