//! Expressions (IEEE 1800-2017, 11). Each part has the number of its first token, from 0.

use crate::leaves::{Bound, Name, Number, Text};
use crate::operators::{BinaryOperator, UnaryOperator};
use sqlite_items::{Boxed, Items};

/// A chain of operands, and what follows its `?`.
#[cycle(expr)]
#[derive(Drop)]
pub struct Expr {
    /// The number of its first token.
    pub token: u32,
    /// The chain; the condition, where a `?` follows.
    pub chain: Chain,
    /// The part of a conditional from its `?` on (11.4.11).
    pub choice: Option<Boxed<Choice>>,
}

/// The part of a conditional from its `?` on: `?` expr `:` expr.
#[cycle(expr)]
#[derive(Drop)]
pub struct Choice {
    /// The number of the `?`.
    pub token: u32,
    /// The value where the condition holds.
    pub yes: Expr,
    /// The value where it doesn't.
    pub no: Expr,
}

/// Operands with operators between them, as they are written. It means its split at the rightmost
/// operator of least precedence (11.3.2).
#[cycle(expr)]
#[derive(Drop)]
pub struct Chain {
    /// The number of its first token.
    pub token: u32,
    /// The first operand.
    pub first: Operand,
    /// The others, each with the operator before it.
    pub rest: Items<Term>,
}

/// An operator, and the operand behind it.
#[cycle(expr)]
#[derive(Drop)]
pub struct Term {
    /// The number of the operator.
    pub token: u32,
    /// The operator.
    pub operator: BinaryOperator,
    /// The operand.
    pub operand: Operand,
}

/// Prefixes, of which the last applies first, and what they apply to.
#[cycle(expr)]
#[derive(Drop)]
pub struct Operand {
    /// The number of its first token.
    pub token: u32,
    /// The prefixes, from the left.
    pub prefixes: Items<Prefix>,
    /// What they apply to.
    pub primary: Primary,
}

/// A prefix of an operand.
#[derive(Drop)]
pub struct Prefix {
    /// The number of its token.
    pub token: u32,
    /// The operator.
    pub operator: UnaryOperator,
}

/// An operand without prefixes. The number in some variants is that of their first token.
#[cycle(expr)]
#[derive(Drop)]
pub enum Primary {
    /// A number.
    Number(Number),
    /// A string.
    Text(Text),
    /// `null`
    Null(u32),
    /// A name with selects.
    Place(Lvalue),
    /// A call.
    Call(Call),
    /// `(` expr `)`
    Group(u32, Boxed<Expr>),
    /// `{` expr, .. `}`, with at least one (11.4.12).
    Concatenation(u32, Items<Expr>),
    /// `{` number `{` expr, .. `}` `}` (11.4.12.1).
    Repetition(u32, Number, Items<Expr>),
    /// `$signed` `(` expr `)` (11.7).
    Signed(u32, Boxed<Expr>),
    /// `$unsigned` `(` expr `)` (11.7).
    Unsigned(u32, Boxed<Expr>),
}

/// A name with selects: what can be assigned to, and read.
#[cycle(expr)]
#[derive(Drop)]
pub struct Lvalue {
    /// The name.
    pub name: Name,
    /// The selects, from the left.
    pub selects: Items<Select>,
}

/// A select. The first number is that of its `[`.
#[cycle(expr)]
#[derive(Drop)]
pub enum Select {
    /// `[` expr `]` (11.5.1).
    Index(u32, Boxed<Expr>),
    /// `[` bound `:` bound `]` (11.5.1).
    Range(u32, Bound, Bound),
    /// `[` expr `+:` number `]` (11.5.1).
    Up(u32, Boxed<Expr>, Number),
    /// `[` expr `-:` number `]` (11.5.1).
    Down(u32, Boxed<Expr>, Number),
}

/// A call of a function, a task or an import.
#[cycle(expr)]
#[derive(Drop)]
pub struct Call {
    /// The name of what is called.
    pub name: Name,
    /// The number of the `(`.
    pub token: u32,
    /// The actuals.
    pub actuals: Items<Expr>,
}
