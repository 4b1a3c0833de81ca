//! The shape that a formal of an import has for an actual.
//!
//! A formal without open parts has its own shape. An open dimension takes the actual's range, and an
//! open packed part as many bits as an element of the actual has, numbered from 0 (IEEE 1800-2017,
//! 35.5.6.1). Nothing here takes memory.
//! Stated in `specs/Formals.antt`.
#![tactic(auto)]

mod shapes;

pub use shapes::formal_shape;
