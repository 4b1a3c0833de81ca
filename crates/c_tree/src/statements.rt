//! Statements (ISO C 6.8). Each part has the number of its first token, from 0.

use crate::declarations::Variables;
use crate::expr::CExpr;
use sqlite_items::{Boxed, Items};

/// A statement. The first number is that of its first token.
#[cycle(stmt)]
#[derive(Drop)]
pub enum Stmt {
    /// `;` (6.8.3)
    Empty(u32),
    /// `{` .. `}`
    Block(Block),
    /// expr `;` (6.8.3)
    Expr(CExpr),
    /// `if` ..
    If(Boxed<If>),
    /// `while` `(` expr `)` stmt (6.8.5.1)
    While(u32, CExpr, Boxed<Stmt>),
    /// `do` stmt `while` `(` expr `)` `;` (6.8.5.2); the second number is that of the `while`.
    Do(u32, Boxed<Stmt>, u32, CExpr),
    /// `for` `(` start expr? `;` expr? `)` stmt (6.8.5.3)
    For(u32, Start, Option<CExpr>, Option<CExpr>, Boxed<Stmt>),
    /// `return` expr? `;` (6.8.6.4)
    Return(u32, Option<CExpr>),
    /// `break` `;` (6.8.6.3)
    Break(u32),
    /// `continue` `;` (6.8.6.2)
    Continue(u32),
}

/// What a `for` begins with.
#[derive(Drop)]
pub enum Start {
    /// A declaration of variables.
    Variables(Variables),
    /// expr? `;`
    Expr(Option<CExpr>),
}

/// `{` .. `}` (6.8.2)
#[cycle(stmt)]
#[derive(Drop)]
pub struct Block {
    /// The number of the `{`.
    pub token: u32,
    /// Its declarations and statements.
    pub parts: Items<Part>,
    /// The number of the `}`.
    pub end: u32,
}

/// A part of a block.
#[cycle(stmt)]
#[derive(Drop)]
pub enum Part {
    /// A declaration of variables.
    Variables(Variables),
    /// A statement.
    Stmt(Stmt),
}

/// `if` `(` expr `)` stmt, with what follows its `else` (6.8.4.1).
#[cycle(stmt)]
#[derive(Drop)]
pub struct If {
    /// The number of the `if`.
    pub token: u32,
    /// The condition.
    pub condition: CExpr,
    /// The statement where the condition holds.
    pub body: Stmt,
    /// The `else if` parts.
    pub others: Items<ElseIf>,
    /// The last `else`.
    pub last: Option<Boxed<Else>>,
}

/// `else` stmt, where the statement isn't an `if`.
#[cycle(stmt)]
#[derive(Drop)]
pub struct Else {
    /// The number of the `else`.
    pub token: u32,
    /// The statement.
    pub body: Stmt,
}

/// `else` `if` `(` expr `)` stmt
#[cycle(stmt)]
#[derive(Drop)]
pub struct ElseIf {
    /// The number of the `else`.
    pub token: u32,
    /// The condition.
    pub condition: CExpr,
    /// The statement where the condition holds.
    pub body: Stmt,
}
