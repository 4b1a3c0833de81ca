//! What statements read of calls and of what can be assigned to.

ghost use Rattle.dpi_grammar.specs.Parser.{Reads};
ghost use Rattle.sv_expr.specs.Reading as spec;

use crate::expressions::{actuals_inside, selects};
use crate::levels::enter;
use dpi_grammar::Stop;
use sqlite_items::Items;
use std::alloc::Global;
use sv_cursor::{Cursor, name};
use sv_tree::{Call, Expr, Lvalue};

/// What can be assigned to (IEEE 1800-2017, A.8.5).
// lvalue = id select*
#[tactic(auto, unfolding(crate::specs::Reading::lvalue))]
pub fn lvalue(alloc: Global, tokens: &mut Cursor<'_>, depth: u32) -> Result<Lvalue, Stop>
    ensures { Reads (spec.lvalue depth tokens.old) result tokens.new }
{
    let name = name(alloc, tokens)?;
    let selects = selects(alloc, tokens, depth)?;
    Ok(Lvalue { name, selects })
}

/// The actuals of a call behind its name, with the number of the `(`, which opens a level (13.5).
// "(" (expr,+)? ")"
pub fn actuals(
    alloc: Global,
    tokens: &mut Cursor<'_>,
    depth: u32,
) -> Result<(u32, Items<Expr>), Stop>
    ensures { Reads (spec.actuals depth tokens.old) result tokens.new }
{
    let inner = enter(tokens, depth)?;
    actuals_inside(alloc, tokens, inner)
}

/// A call whose parentheses open no level, since an earlier token opened it (13.4.1).
// call = id "(" (expr,+)? ")"
#[tactic(auto, unfolding(crate::specs::Reading::flat_call))]
pub fn flat_call(alloc: Global, tokens: &mut Cursor<'_>, depth: u32) -> Result<Call, Stop>
    ensures { Reads (spec.flat_call depth tokens.old) result tokens.new }
{
    let name = name(alloc, tokens)?;
    let (token, actuals) = actuals_inside(alloc, tokens, depth)?;
    Ok(Call {
        name,
        token,
        actuals,
    })
}
