//! The empty statement, and statements that go elsewhere (IEEE 1800-2017, 9.6.2, 12.8).

ghost use Rattle.dpi_grammar.specs.Parser.{Reads, optional};
ghost use Rattle.sv_expr.specs.Front.{begins_expr};
ghost use Rattle.sv_expr.specs.Reading as expressions;
ghost use Rattle.sv_stmt.specs.ReadingStatements as spec;

use dpi_grammar::Stop;
use std::alloc::Global;
use sv_cursor::{Cursor, name};
use sv_expr::{begins_expr, expr};
use sv_tree::{Class, Expr, Stmt};

/// The statement that does nothing (12.3).
// ";"
#[tactic(auto, unfolding(crate::specs::ReadingStatements::empty))]
pub fn empty(tokens: &mut Cursor<'_>) -> Result<Stmt, Stop>
    ensures { Reads (spec.empty tokens.old) result tokens.new }
{
    let token = tokens.place();
    tokens.expect(Class::Semicolon)?;
    Ok(Stmt::Empty(token))
}

/// An expression where one begins.
fn optional_expr(alloc: Global, tokens: &mut Cursor<'_>, depth: u32) -> Result<Option<Expr>, Stop>
    ensures { Reads (optional begins_expr (expressions.expr depth) tokens.old) result tokens.new }
{
    if !begins_expr(tokens.class()) {
        return Ok(None);
    }
    Ok(Some(expr(alloc, tokens, depth)?))
}

/// The end of a function or a task, with a value or without (12.8).
// "return" expr? ";"
#[tactic(auto, unfolding(crate::specs::ReadingStatements::return_statement))]
pub fn return_statement(alloc: Global, tokens: &mut Cursor<'_>, depth: u32) -> Result<Stmt, Stop>
    ensures { Reads (spec.return_statement depth tokens.old) result tokens.new }
{
    let token = tokens.place();
    tokens.expect(Class::Return)?;
    let value = optional_expr(alloc, tokens, depth)?;
    tokens.expect(Class::Semicolon)?;
    Ok(Stmt::Return(token, value))
}

/// The end of a loop (12.8).
// "break" ";"
#[tactic(auto, unfolding(crate::specs::ReadingStatements::break_statement))]
pub fn break_statement(tokens: &mut Cursor<'_>) -> Result<Stmt, Stop>
    ensures { Reads (spec.break_statement tokens.old) result tokens.new }
{
    let token = tokens.place();
    tokens.expect(Class::Break)?;
    tokens.expect(Class::Semicolon)?;
    Ok(Stmt::Break(token))
}

/// The end of a turn of a loop (12.8).
// "continue" ";"
#[tactic(auto, unfolding(crate::specs::ReadingStatements::continue_statement))]
pub fn continue_statement(tokens: &mut Cursor<'_>) -> Result<Stmt, Stop>
    ensures { Reads (spec.continue_statement tokens.old) result tokens.new }
{
    let token = tokens.place();
    tokens.expect(Class::Continue)?;
    tokens.expect(Class::Semicolon)?;
    Ok(Stmt::Continue(token))
}

/// The end of a named block or a task (9.6.2).
// "disable" id ";"
#[tactic(auto, unfolding(crate::specs::ReadingStatements::disable_statement))]
pub fn disable_statement(alloc: Global, tokens: &mut Cursor<'_>) -> Result<Stmt, Stop>
    ensures { Reads (spec.disable_statement tokens.old) result tokens.new }
{
    let token = tokens.place();
    tokens.expect(Class::Disable)?;
    let name = name(alloc, tokens)?;
    tokens.expect(Class::Semicolon)?;
    Ok(Stmt::Disable(token, name))
}
