//! Statements that begin with a name (IEEE 1800-2017, 10.4, 13.3, 13.4).

ghost use Rattle.dpi_grammar.specs.Parser.{Reads, level};
ghost use Rattle.sv_expr.specs.Reading.{inside};
ghost use Rattle.sv_stmt.specs.ReadingStatements as spec;

use crate::changes::change_tail;
use dpi_grammar::Stop;
use std::alloc::Global;
use sv_cursor::{Cursor, name};
use sv_expr::{actuals, selects};
use sv_tree::{Call, Class, Lvalue, Name, Stmt};

/// A name alone, which calls a task or a function (13.5.5).
// ";"
#[tactic(auto, unfolding(crate::specs::ReadingStatements::name_tail))]
fn name_tail(tokens: &mut Cursor<'_>, name: Name) -> Result<Stmt, Stop>
    ensures { Reads (spec.name_tail name tokens.old) result tokens.new }
{
    tokens.expect(Class::Semicolon)?;
    Ok(Stmt::Name(name))
}

/// The rest of a call from its `(` on, which opens a level (13.5).
// "(" (expr,+)? ")" ";"
#[tactic(auto, unfolding(crate::specs::ReadingStatements::call_tail), using(crate::proofs::Entering::level_then))]
fn call_tail(alloc: Global, tokens: &mut Cursor<'_>, depth: u32, name: Name) -> Result<Stmt, Stop>
    ensures { Reads (level (inside depth) (spec.call_tail name) tokens.old) result tokens.new }
{
    let (token, actuals) = actuals(alloc, tokens, depth)?;
    tokens.expect(Class::Semicolon)?;
    Ok(Stmt::Call(Call {
        name,
        token,
        actuals,
    }))
}

/// The rest of a change, behind the name of what is changed.
// select* ("=" init | "++" | "--" | assignop expr) ";"
#[tactic(auto, unfolding(crate::specs::ReadingStatements::changed_tail))]
fn changed_tail(
    alloc: Global,
    tokens: &mut Cursor<'_>,
    depth: u32,
    name: Name,
) -> Result<Stmt, Stop>
    ensures { Reads (spec.changed_tail depth name tokens.old) result tokens.new }
{
    let selects = selects(alloc, tokens, depth)?;
    let change = change_tail(alloc, tokens, depth, Lvalue { name, selects })?;
    tokens.expect(Class::Semicolon)?;
    Ok(Stmt::Change(change))
}

#[tactic(auto, unfolding(crate::specs::ReadingStatements::behind_name))]
fn behind_name(alloc: Global, tokens: &mut Cursor<'_>, depth: u32, name: Name) -> Result<Stmt, Stop>
    ensures { Reads (spec.behind_name depth name tokens.old) result tokens.new }
{
    if tokens.sees(Class::Semicolon) {
        return name_tail(tokens, name);
    }
    if tokens.sees(Class::OpenParen) {
        return call_tail(alloc, tokens, depth, name);
    }
    changed_tail(alloc, tokens, depth, name)
}

/// A call or a change, told apart behind the name.
// id ";" | call ";" | change ";"
#[tactic(auto, unfolding(crate::specs::ReadingStatements::named))]
pub fn named(alloc: Global, tokens: &mut Cursor<'_>, depth: u32) -> Result<Stmt, Stop>
    ensures { Reads (spec.named depth tokens.old) result tokens.new }
{
    let name = name(alloc, tokens)?;
    behind_name(alloc, tokens, depth, name)
}
