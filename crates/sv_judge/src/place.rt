//! Where an expression stands.

use sv_names::Scopes;
use sv_signatures::{ImportSignature, Signature};

/// Where an expression stands, as far as its rules look at it.
#[derive(Clone, Copy)]
pub struct Place<'s, 'n> {
    /// The number of the file, from 0.
    pub file: u32,
    /// The scopes around it.
    pub scopes: &'s Scopes<'n>,
    /// The functions and tasks of the module, in text order.
    pub subroutines: &'s [Signature],
    /// The imports of the module, in text order.
    pub imports: &'s [ImportSignature],
    /// Whether a function is around it.
    pub in_function: bool,
}
