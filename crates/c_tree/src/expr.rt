//! Expressions (ISO C 6.5). Each part has the number of its first token, from 0.

use crate::leaves::{Character, Name, Number, Text};
use crate::operators::{AssignOperator, BinaryOperator, UnaryOperator};
use crate::types::{CType, Star};
use sqlite_items::{Boxed, Items};

/// cond (assignop cond)*, as it is written. Assignments group from the right (6.5.16).
#[cycle(expr)]
#[derive(Drop)]
pub struct CExpr {
    /// The number of its first token.
    pub token: u32,
    /// The first part; what is assigned to, where another follows.
    pub first: Cond,
    /// The others, each with the operator before it.
    pub rest: Items<Assignment>,
}

/// An assigning operator, and the part behind it.
#[cycle(expr)]
#[derive(Drop)]
pub struct Assignment {
    /// The number of the operator.
    pub token: u32,
    /// The operator.
    pub operator: AssignOperator,
    /// The part.
    pub value: Cond,
}

/// A chain of operands, and what follows its `?` (6.5.15).
#[cycle(expr)]
#[derive(Drop)]
pub struct Cond {
    /// The number of its first token.
    pub token: u32,
    /// The chain; the condition, where a `?` follows.
    pub chain: Chain,
    /// The part of a conditional from its `?` on.
    pub choice: Option<Boxed<Choice>>,
}

/// The part of a conditional from its `?` on: `?` expr `:` cond.
#[cycle(expr)]
#[derive(Drop)]
pub struct Choice {
    /// The number of the `?`.
    pub token: u32,
    /// The value where the condition holds.
    pub yes: CExpr,
    /// The value where it doesn't.
    pub no: Cond,
}

/// Operands with operators between them, as they are written. It means its split at the rightmost
/// operator of least precedence (6.5.5 to 6.5.14).
#[cycle(expr)]
#[derive(Drop)]
pub struct Chain {
    /// The number of its first token.
    pub token: u32,
    /// The first operand.
    pub first: Operand,
    /// The others, each with the operator before it.
    pub rest: Items<Term>,
}

/// An operator, and the operand behind it.
#[cycle(expr)]
#[derive(Drop)]
pub struct Term {
    /// The number of the operator.
    pub token: u32,
    /// The operator.
    pub operator: BinaryOperator,
    /// The operand.
    pub operand: Operand,
}

/// What prefixes and suffixes apply to, with them. The suffixes apply first, from the left, and
/// then the prefixes, from the right (6.5.2 to 6.5.4).
#[cycle(expr)]
#[derive(Drop)]
pub struct Operand {
    /// The number of its first token.
    pub token: u32,
    /// The prefixes, from the left.
    pub prefixes: Items<Prefix>,
    /// What they apply to.
    pub primary: Primary,
    /// The suffixes, from the left.
    pub suffixes: Items<Suffix>,
}

/// A prefix of an operand. The number is that of its first token.
#[derive(Drop)]
pub enum Prefix {
    /// An operator (6.5.3).
    Sign(u32, UnaryOperator),
    /// `(` type stars `)` (6.5.4).
    Cast(u32, CType, Items<Star>),
}

/// An operand without prefixes and suffixes (6.5.1, 6.5.2.2). The number in some variants is that
/// of their first token.
#[cycle(expr)]
#[derive(Drop)]
pub enum Primary {
    /// A name.
    Name(Name),
    /// A number.
    Number(Number),
    /// A character.
    Character(Character),
    /// A string.
    Text(Text),
    /// `NULL`
    Null(u32),
    /// A called name, the number of the `(`, and the arguments.
    Call(Name, u32, Items<CExpr>),
    /// `(` expr `)`
    Group(u32, Boxed<CExpr>),
}

/// A suffix of an operand (6.5.2). The number is that of its first token.
#[cycle(expr)]
#[derive(Drop)]
pub enum Suffix {
    /// `[` expr `]`
    Index(u32, Boxed<CExpr>),
    /// `.` id
    Member(u32, Name),
    /// `->` id
    Arrow(u32, Name),
    /// `++`
    Increment(u32),
    /// `--`
    Decrement(u32),
}
