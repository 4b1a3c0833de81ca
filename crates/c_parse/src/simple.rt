//! Statements without a statement inside, and the expressions and declarations in the others.

ghost use Rattle.dpi_grammar.specs.Parser.{Reads};
ghost use Rattle.c_expr.specs.Reading.{expr};
ghost use Rattle.c_parse.specs.ReadingStatements as spec;

use crate::front::begins_variables;
use crate::variables::variables;
use c_cursor::Cursor;
use c_expr::{begins_expr, expr};
use c_tree::{CExpr, Class, Start, Stmt};
use dpi_grammar::Stop;
use std::alloc::Global;

/// A statement that does nothing (ISO C 6.8.3).
// ";"
#[tactic(auto, unfolding(crate::specs::ReadingStatements::empty))]
pub fn empty(tokens: &mut Cursor<'_>) -> Result<Stmt, Stop>
    ensures { Reads (spec.empty tokens.old) result tokens.new }
{
    let token = tokens.place();
    tokens.expect(Class::Semicolon)?;
    Ok(Stmt::Empty(token))
}

/// The end of a loop (6.8.6.3).
// "break" ";"
#[tactic(auto, unfolding(crate::specs::ReadingStatements::break_stmt))]
pub fn break_stmt(tokens: &mut Cursor<'_>) -> Result<Stmt, Stop>
    ensures { Reads (spec.break_stmt tokens.old) result tokens.new }
{
    let token = tokens.place();
    tokens.expect(Class::Break)?;
    tokens.expect(Class::Semicolon)?;
    Ok(Stmt::Break(token))
}

/// The next turn of a loop (6.8.6.2).
// "continue" ";"
#[tactic(auto, unfolding(crate::specs::ReadingStatements::continue_stmt))]
pub fn continue_stmt(tokens: &mut Cursor<'_>) -> Result<Stmt, Stop>
    ensures { Reads (spec.continue_stmt tokens.old) result tokens.new }
{
    let token = tokens.place();
    tokens.expect(Class::Continue)?;
    tokens.expect(Class::Semicolon)?;
    Ok(Stmt::Continue(token))
}

/// An expression that is a statement (6.8.3).
// expr ";"
#[tactic(auto, unfolding(crate::specs::ReadingStatements::expr_stmt_by))]
pub fn expr_stmt(alloc: Global, tokens: &mut Cursor<'_>, depth: u32) -> Result<Stmt, Stop>
    ensures { Reads (spec.expr_stmt_by (expr depth) tokens.old) result tokens.new }
{
    let value = expr(alloc, tokens, depth)?;
    tokens.expect(Class::Semicolon)?;
    Ok(Stmt::Expr(value))
}

/// An expression, where one begins.
// expr?
pub fn optional_expr(
    alloc: Global,
    tokens: &mut Cursor<'_>,
    depth: u32,
) -> Result<Option<CExpr>, Stop>
    ensures { Reads (spec.optional_by (expr depth) tokens.old) result tokens.new }
{
    if !begins_expr(tokens) {
        return Ok(None);
    }
    Ok(Some(expr(alloc, tokens, depth)?))
}

/// The end of a function, with its result (6.8.6.4).
// "return" expr? ";"
#[tactic(auto, unfolding(crate::specs::ReadingStatements::return_by))]
pub fn return_stmt(alloc: Global, tokens: &mut Cursor<'_>, depth: u32) -> Result<Stmt, Stop>
    ensures { Reads (spec.return_by (expr depth) tokens.old) result tokens.new }
{
    let token = tokens.place();
    tokens.expect(Class::Return)?;
    let value = optional_expr(alloc, tokens, depth)?;
    tokens.expect(Class::Semicolon)?;
    Ok(Stmt::Return(token, value))
}

/// A condition in its parentheses, which open no level.
// "(" expr ")"
#[tactic(auto, unfolding(crate::specs::ReadingStatements::condition_by))]
pub fn condition(alloc: Global, tokens: &mut Cursor<'_>, depth: u32) -> Result<CExpr, Stop>
    ensures { Reads (spec.condition_by (expr depth) tokens.old) result tokens.new }
{
    tokens.expect(Class::OpenParen)?;
    let value = expr(alloc, tokens, depth)?;
    tokens.expect(Class::CloseParen)?;
    Ok(value)
}

/// What a `for` begins with, where it declares nothing.
// expr? ";"
#[tactic(auto, unfolding(crate::specs::ReadingStatements::start_expr_by))]
fn start_expr(alloc: Global, tokens: &mut Cursor<'_>, depth: u32) -> Result<Start, Stop>
    ensures { Reads (spec.start_expr_by (expr depth) tokens.old) result tokens.new }
{
    let value = optional_expr(alloc, tokens, depth)?;
    tokens.expect(Class::Semicolon)?;
    Ok(Start::Expr(value))
}

/// What a `for` begins with (6.8.5.3).
// vardecl | expr? ";"
pub fn start(alloc: Global, tokens: &mut Cursor<'_>, depth: u32) -> Result<Start, Stop>
    ensures { Reads (spec.start_by (expr depth) tokens.old) result tokens.new }
{
    if begins_variables(tokens) {
        return Ok(Start::Variables(variables(alloc, tokens, depth)?));
    }
    start_expr(alloc, tokens, depth)
}
