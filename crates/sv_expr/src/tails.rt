//! What ends a part that holds an expression, behind that expression.

ghost use Rattle.dpi_grammar.specs.Parser.{Reads};
ghost use Rattle.sv_expr.specs.Reading as spec;

use crate::bounds::bound_of;
use crate::front::Wrap;
use dpi_grammar::Stop;
use sqlite_items::Boxed;
use std::alloc::Global;
use sv_cursor::{Cursor, bound, number};
use sv_tree::{Class, Expr, Primary, Select};

/// The `)` of an expression in parentheses (IEEE 1800-2017, A.8.4).
// ")"
#[tactic(auto, unfolding(crate::specs::Reading::closing))]
pub fn closing(
    alloc: Global,
    tokens: &mut Cursor<'_>,
    wrap: Wrap,
    token: u32,
    inner: Expr,
) -> Result<Primary, Stop>
    ensures { Reads (spec.closing wrap token inner tokens.old) result tokens.new }
{
    tokens.expect(Class::CloseParen)?;
    let inner = Boxed::new(alloc, inner)?;
    Ok(match wrap {
        Wrap::Group => Primary::Group(token, inner),
        Wrap::Signed => Primary::Signed(token, inner),
        Wrap::Unsigned => Primary::Unsigned(token, inner),
    })
}

/// The end of a select of one element or bit (11.5.1).
// "]"
#[tactic(auto, unfolding(crate::specs::Reading::index_tail))]
fn index_tail(
    alloc: Global,
    tokens: &mut Cursor<'_>,
    token: u32,
    index: Expr,
) -> Result<Select, Stop>
    ensures { Reads (spec.index_tail token index tokens.old) result tokens.new }
{
    tokens.expect(Class::CloseBracket)?;
    Ok(Select::Index(token, Boxed::new(alloc, index)?))
}

/// The end of a part select upwards (11.5.1).
// "+:" number "]"
#[tactic(auto, unfolding(crate::specs::Reading::up_tail))]
fn up_tail(alloc: Global, tokens: &mut Cursor<'_>, token: u32, base: Expr) -> Result<Select, Stop>
    ensures { Reads (spec.up_tail token base tokens.old) result tokens.new }
{
    tokens.expect(Class::PlusColon)?;
    let width = number(alloc, tokens)?;
    tokens.expect(Class::CloseBracket)?;
    Ok(Select::Up(token, Boxed::new(alloc, base)?, width))
}

/// The end of a part select downwards (11.5.1).
// "-:" number "]"
#[tactic(auto, unfolding(crate::specs::Reading::down_tail))]
fn down_tail(alloc: Global, tokens: &mut Cursor<'_>, token: u32, base: Expr) -> Result<Select, Stop>
    ensures { Reads (spec.down_tail token base tokens.old) result tokens.new }
{
    tokens.expect(Class::MinusColon)?;
    let width = number(alloc, tokens)?;
    tokens.expect(Class::CloseBracket)?;
    Ok(Select::Down(token, Boxed::new(alloc, base)?, width))
}

/// The end of a part select of two bounds, where the expression is one (11.5.1).
// ":" bound "]"
#[tactic(auto, unfolding(crate::specs::Reading::range_tail))]
fn range_tail(
    alloc: Global,
    tokens: &mut Cursor<'_>,
    token: u32,
    left: Expr,
) -> Result<Select, Stop>
    ensures { Reads (spec.range_tail token left tokens.old) result tokens.new }
{
    let Some(left) = bound_of(left) else {
        return Err(tokens.refuse());
    };
    tokens.expect(Class::Colon)?;
    let right = bound(alloc, tokens)?;
    tokens.expect(Class::CloseBracket)?;
    Ok(Select::Range(token, left, right))
}

/// The end of a select, behind its first expression (A.8.4).
#[tactic(auto, unfolding(crate::specs::Reading::select_tail))]
pub fn select_tail(
    alloc: Global,
    tokens: &mut Cursor<'_>,
    token: u32,
    first: Expr,
) -> Result<Select, Stop>
    ensures { Reads (spec.select_tail token first tokens.old) result tokens.new }
{
    if tokens.sees(Class::CloseBracket) {
        return index_tail(alloc, tokens, token, first);
    }
    if tokens.sees(Class::PlusColon) {
        return up_tail(alloc, tokens, token, first);
    }
    if tokens.sees(Class::MinusColon) {
        return down_tail(alloc, tokens, token, first);
    }
    range_tail(alloc, tokens, token, first)
}
