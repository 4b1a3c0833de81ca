//! What is told.

use sv_typing::ExprType;

/// What a name means, by the token of the declared name, which stands in the same file.
#[derive(Clone, Copy, Debug, PartialEq, Eq)]
pub enum Meant {
    /// A variable, a formal, or the result of a function (at the function's name).
    Declaration(u32),
    /// A function or a task.
    Subroutine(u32),
    /// An import.
    Import(u32),
    /// A named block.
    Block(u32),
    /// A module.
    Module,
}

/// What is told of a token.
#[derive(Clone, Copy, Debug, PartialEq, Eq)]
pub enum Fact {
    /// The name at this token means this.
    Name(u32, Meant),
    /// The expression that begins at this token has this type by itself.
    Type(u32, ExprType),
}
