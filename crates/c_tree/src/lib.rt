//! Trees of C files, one type for each production of the grammar, and what they tell.
//!
//! Each part notes the number of its first token, from 0, and a place that a rule, a trap or a
//! fault line may name is a part or has a number of its own: an operator, a `[`, a `.`, a `->`,
//! the `(` of a cast or a group, a called name, a `?`, the `=` of an initialiser, the closing
//! brace of a body. Parts of one token keep their bytes. Chains, assignments, prefixes, postfixes,
//! `else if` parts and statements are lists, and open no levels.
//! `specs/Classes.antt` says what a token is for the grammar; the other files of `specs/` say what
//! each tree tells: its words, the numbers that it notes, and the conditions that it keeps
//! (ISO C 6.5 to 6.9).
//! Nothing here takes memory.
#![tactic(auto)]

mod class;
mod declarations;
mod expr;
mod file;
mod leaves;
mod operators;
mod statements;
mod types;

pub use class::{Class, class_of};
pub use declarations::{
    Array, Declarator, Init, Initializer, Param, ParamArray, Params, Size, Store, StoreKind,
    Variables,
};
pub use expr::{Assignment, CExpr, Chain, Choice, Cond, Operand, Prefix, Primary, Suffix, Term};
pub use file::{Body, CFile, External, Function};
pub use leaves::{Character, Define, Name, Number, Text};
pub use operators::{AssignOperator, BinaryOperator, UnaryOperator};
pub use statements::{Block, Else, ElseIf, If, Part, Start, Stmt};
pub use types::{BaseRest, BaseWord, CType, Star};

#[cfg(test)]
mod tests;
