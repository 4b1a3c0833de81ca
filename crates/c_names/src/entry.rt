//! Declarations of names.

use c_typing::Operand;
use dpi_literal::NumberType;

/// What a declaration declares.
#[derive(Clone, Copy, Debug, PartialEq, Eq)]
pub enum Thing {
    /// An object, by what its name is in an expression, None where the declaration is refused; and
    /// whether it lasts for the whole run, static or at file scope (ISO C 6.2.4).
    Object(Option<Operand>, bool),
    /// A function, by a number that its declarer gives it.
    Function(u32),
    /// A define, by the type of its number.
    Number(NumberType),
}

/// A declaration of a name.
#[derive(Clone, Copy, Debug, PartialEq, Eq)]
pub struct Entry {
    /// The number of the declared name's token in its file, from 0.
    pub token: u32,
    /// What it declares.
    pub thing: Thing,
}
