//! Declarations of variables, and statements (IEEE 1800-2017, 6.8, 12 and 13). Each part has the
//! number of its first token, from 0.

use crate::expr::{Call, Expr, Lvalue};
use crate::kinds::{ShowKind, StepOperator};
use crate::leaves::{Name, Number, Text};
use crate::operators::AssignOperator;
use crate::types::{DataType, Dimension};
use sqlite_items::{Boxed, Items};

/// `:` id
#[derive(Drop)]
pub struct Label {
    /// The number of the `:`.
    pub token: u32,
    /// The name.
    pub name: Name,
}

/// What a variable begins with, or what is assigned.
#[derive(Drop)]
pub enum Init {
    /// An expression.
    Value(Expr),
    /// `'{` init, .. `}`, with at least one (10.9); the number is that of the `'{`.
    Pattern(u32, Items<Init>),
}

/// `=` init
#[derive(Drop)]
pub struct Initializer {
    /// The number of the `=`.
    pub token: u32,
    /// What the variable begins with.
    pub value: Init,
}

/// A variable: its name, its dimensions and what it begins with.
#[derive(Drop)]
pub struct Declarator {
    /// The name.
    pub name: Name,
    /// The unpacked dimensions, from the left.
    pub dimensions: Items<Dimension>,
    /// What it begins with.
    pub initializer: Option<Initializer>,
}

/// type declarator, .. `;`, with at least one.
#[derive(Drop)]
pub struct Variables {
    /// The type.
    pub kind: DataType,
    /// The variables.
    pub declarators: Items<Declarator>,
}

/// A change of a variable.
#[derive(Drop)]
pub enum Change {
    /// lvalue `=` init; the number is that of the `=`.
    Assign(Lvalue, u32, Init),
    /// lvalue assignop expr; the number is that of the operator.
    Compute(Lvalue, u32, AssignOperator, Expr),
    /// lvalue `++` or `--`; the number is that of the operator.
    Step(Lvalue, u32, StepOperator),
}

/// What a `for` begins with; the number is that of the `=`.
#[derive(Drop)]
pub enum Start {
    /// type id `=` expr
    Declare(DataType, Name, u32, Expr),
    /// lvalue `=` expr
    Assign(Lvalue, u32, Expr),
}

/// A format string, and what it shows.
#[derive(Drop)]
pub struct Format {
    /// The format string.
    pub text: Text,
    /// What it shows.
    pub actuals: Items<Expr>,
}

/// A statement. The first number is that of its first token.
#[cycle(stmt)]
#[derive(Drop)]
pub enum Stmt {
    /// `;`
    Empty(u32),
    /// `begin` .. `end`
    Block(Block),
    /// `if` ..
    If(Boxed<If>),
    /// `case` `(` expr `)` caseitem .. `endcase`, with at least one (12.5).
    Case(u32, Expr, Items<CaseItem>),
    /// `while` `(` expr `)` stmt (12.7.4).
    While(u32, Expr, Boxed<Stmt>),
    /// `repeat` `(` expr `)` stmt (12.7.2).
    Repeat(u32, Expr, Boxed<Stmt>),
    /// `forever` stmt (12.7.6).
    Forever(u32, Boxed<Stmt>),
    /// `for` `(` start `;` expr `;` change `)` stmt (12.7.1).
    For(u32, Start, Expr, Change, Boxed<Stmt>),
    /// `return` expr? `;` (12.8).
    Return(u32, Option<Expr>),
    /// `break` `;` (12.8).
    Break(u32),
    /// `continue` `;` (12.8).
    Continue(u32),
    /// `disable` id `;` (9.6.2).
    Disable(u32, Name),
    /// `$finish` (`(` number `)`)? `;` (20.2).
    Finish(u32, Option<Number>),
    /// `$display` or `$write`, without parentheses (21.2.1).
    Show(u32, ShowKind),
    /// `$display` or `$write` with parentheses; the second number is that of the `(`.
    ShowActuals(u32, ShowKind, u32, Option<Format>),
    /// `void` `'` `(` call `)` `;` (13.4.1).
    Void(u32, Call),
    /// call `;`
    Call(Call),
    /// id `;`
    Name(Name),
    /// change `;`
    Change(Change),
}

/// A block of statements (9.3).
#[cycle(stmt)]
#[derive(Drop)]
pub struct Block {
    /// The number of the `begin`.
    pub token: u32,
    /// The label behind `begin`.
    pub label: Option<Label>,
    /// Its variables.
    pub variables: Items<Variables>,
    /// Its statements.
    pub statements: Items<Stmt>,
    /// The label behind `end`.
    pub end: Option<Label>,
}

/// `if` `(` expr `)` stmt, with what follows its `else` (12.4).
#[cycle(stmt)]
#[derive(Drop)]
pub struct If {
    /// The number of the `if`.
    pub token: u32,
    /// The condition.
    pub condition: Expr,
    /// The statement where the condition holds.
    pub body: Stmt,
    /// The `else if` parts.
    pub others: Items<ElseIf>,
    /// The last `else`.
    pub last: Option<Boxed<Else>>,
}

/// `else` stmt, where the statement isn't an `if`.
#[cycle(stmt)]
#[derive(Drop)]
pub struct Else {
    /// The number of the `else`.
    pub token: u32,
    /// The statement.
    pub body: Stmt,
}

/// `else` `if` `(` expr `)` stmt
#[cycle(stmt)]
#[derive(Drop)]
pub struct ElseIf {
    /// The number of the `else`.
    pub token: u32,
    /// The condition.
    pub condition: Expr,
    /// The statement where the condition holds.
    pub body: Stmt,
}

/// The values of a case item, or none for `default`; and its statement.
#[cycle(stmt)]
#[derive(Drop)]
pub struct CaseItem {
    /// The number of its first token.
    pub token: u32,
    /// The values, of which there is at least one, or None for `default`.
    pub values: Option<Items<Expr>>,
    /// The statement.
    pub body: Stmt,
}
