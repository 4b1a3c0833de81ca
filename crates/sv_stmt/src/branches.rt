//! What a statement in parts is made of, besides the statements that it holds.

ghost use Rattle.dpi_grammar.specs.Parser.{Reads};
ghost use Rattle.sv_stmt.specs.ReadingStatements as spec;

use dpi_grammar::Stop;
use sqlite_items::Items;
use std::alloc::Global;
use sv_cursor::Cursor;
use sv_expr::{expr, exprs};
use sv_tree::{Class, Else, ElseIf, Expr};

/// What an `else` begins (IEEE 1800-2017, 12.4.1).
#[derive(Drop)]
pub enum ElsePart {
    /// A part with a condition of its own.
    ElseIf(ElseIf),
    /// The last part.
    Else(Else),
}

/// A condition or a count in parentheses, which open no level (12.4, 12.5, 12.7).
// "(" expr ")"
#[tactic(auto, unfolding(crate::specs::ReadingStatements::condition))]
pub fn condition(alloc: Global, tokens: &mut Cursor<'_>, depth: u32) -> Result<Expr, Stop>
    ensures { Reads (spec.condition depth tokens.old) result tokens.new }
{
    tokens.expect(Class::OpenParen)?;
    let condition = expr(alloc, tokens, depth)?;
    tokens.expect(Class::CloseParen)?;
    Ok(condition)
}

/// The values of a case item, or None for `default` (12.5).
// expr,+ | "default"
#[tactic(auto, unfolding(crate::specs::ReadingStatements::item_values))]
pub fn item_values(
    alloc: Global,
    tokens: &mut Cursor<'_>,
    depth: u32,
) -> Result<Option<Items<Expr>>, Stop>
    ensures { Reads (spec.item_values depth tokens.old) result tokens.new }
{
    if tokens.sees(Class::Default) {
        tokens.expect(Class::Default)?;
        return Ok(None);
    }
    Ok(Some(exprs(alloc, tokens, depth)?))
}
