//! Shapes: what the elements of an unpacked array are, and where their cells stand.
//!
//! Indices are SystemVerilog's, between the declared bounds. Elements and cells count from 0 in
//! natural order: in each dimension the lesser index comes first, and the last dimension varies
//! fastest (IEEE 1800-2017, 7.4 and H.7). Nothing here takes memory or can fail for want of it.
//! Stated in `specs/`: `Range`, `Leaf`, `Dims` (the list of all index lists) and `Shape`.
#![tactic(auto)]

mod dims;
mod leaf;
mod range;
mod shape;
#[cfg(test)]
mod tests;

pub use leaf::Leaf;
pub use range::Range;
pub use shape::{MOST_CELLS, MOST_DIMS, MOST_WIDTH, Shape};
