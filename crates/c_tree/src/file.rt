//! External declarations, and a whole file (ISO C 6.9). Each part has the number of its first token,
//! from 0, or begins with one that has.

use crate::declarations::{Params, Store, Variables};
use crate::leaves::{Define, Name};
use crate::statements::Block;
use crate::types::{CType, Star};
use sqlite_items::Items;

/// What stands behind the parameters of a function.
#[derive(Drop)]
pub enum Body {
    /// `;`, with its number: a prototype.
    Prototype(u32),
    /// The body (6.9.1).
    Block(Block),
}

/// store? type stars id `(` params `)`, and `;` or a block (6.7.6.3, 6.9.1).
#[derive(Drop)]
pub struct Function {
    /// `static` or `extern`.
    pub store: Option<Store>,
    /// The type of its result, but for stars.
    pub kind: CType,
    /// The stars.
    pub stars: Items<Star>,
    /// The name.
    pub name: Name,
    /// The number of the `(`.
    pub token: u32,
    /// The parameters.
    pub params: Params,
    /// The body, or none.
    pub body: Body,
}

/// What a file has at its outside.
#[derive(Drop)]
pub enum External {
    /// A define (6.10.3).
    Define(Define),
    /// A function, or a prototype of one.
    Function(Function),
    /// A declaration of variables.
    Variables(Variables),
}

/// A file.
#[derive(Drop)]
pub struct CFile {
    /// What it has, in order.
    pub externals: Items<External>,
}
