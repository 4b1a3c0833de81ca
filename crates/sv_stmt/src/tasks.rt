//! Calls of system tasks, and a call whose value is dropped (IEEE 1800-2017, 13.4.1, 20.2, 21.2.1).

ghost use Rattle.std.specs.Prelude.{[]};
ghost use Rattle.dpi_grammar.specs.Parser.{Reads, level, optional, token};
ghost use Rattle.sv_tree.specs.declared.class.Class.TheVariants as classes;
ghost use Rattle.sv_tree.specs.Classes.{class_at, is};
ghost use Rattle.sv_tree.specs.Kinds.{show_of};
ghost use Rattle.sv_stmt.specs.ReadingStatements as spec;

use crate::levels::enter;
use dpi_grammar::Stop;
use sqlite_items::Items;
use std::alloc::Global;
use sv_cursor::{Cursor, number, text};
use sv_expr::{flat_call, more_exprs};
use sv_tree::{Class, Format, Number, ShowKind, Stmt};

/// The number in the parentheses of `$finish` (20.2).
// "(" number ")"
#[tactic(auto, unfolding(crate::specs::ReadingStatements::status))]
fn status(alloc: Global, tokens: &mut Cursor<'_>) -> Result<Number, Stop>
    ensures { Reads (spec.status tokens.old) result tokens.new }
{
    tokens.expect(Class::OpenParen)?;
    let number = number(alloc, tokens)?;
    tokens.expect(Class::CloseParen)?;
    Ok(number)
}

fn optional_status(alloc: Global, tokens: &mut Cursor<'_>) -> Result<Option<Number>, Stop>
    ensures { Reads (optional (is classes.OpenParen) spec.status tokens.old) result tokens.new }
{
    if !tokens.sees(Class::OpenParen) {
        return Ok(None);
    }
    Ok(Some(status(alloc, tokens)?))
}

/// The end of the run (20.2).
// "$finish" ("(" number ")")? ";"
#[tactic(auto, unfolding(crate::specs::ReadingStatements::finish_statement))]
pub fn finish_statement(alloc: Global, tokens: &mut Cursor<'_>) -> Result<Stmt, Stop>
    ensures { Reads (spec.finish_statement tokens.old) result tokens.new }
{
    let token = tokens.place();
    tokens.expect(Class::Finish)?;
    let number = optional_status(alloc, tokens)?;
    tokens.expect(Class::Semicolon)?;
    Ok(Stmt::Finish(token, number))
}

/// A format string, and what it shows (21.2.1.2).
// string ("," expr)*
#[tactic(auto, unfolding(crate::specs::ReadingStatements::format))]
fn format(alloc: Global, tokens: &mut Cursor<'_>, depth: u32) -> Result<Format, Stop>
    ensures { Reads (spec.format depth tokens.old) result tokens.new }
{
    let text = text(alloc, tokens)?;
    let actuals = more_exprs(alloc, tokens, depth, Items::new(alloc))?;
    Ok(Format { text, actuals })
}

fn optional_format(
    alloc: Global,
    tokens: &mut Cursor<'_>,
    depth: u32,
) -> Result<Option<Format>, Stop>
    ensures { Reads (optional (is classes.Text) (spec.format depth) tokens.old) result tokens.new }
{
    if !tokens.sees(Class::Text) {
        return Ok(None);
    }
    Ok(Some(format(alloc, tokens, depth)?))
}

/// The rest of `$display` or `$write` from its `(` on; it opens no level.
// "(" (string ("," expr)*)? ")" ";"
#[tactic(auto, unfolding(crate::specs::ReadingStatements::shown_actuals))]
fn shown_actuals(
    alloc: Global,
    tokens: &mut Cursor<'_>,
    depth: u32,
    token: u32,
    kind: ShowKind,
) -> Result<Stmt, Stop>
    ensures { Reads (spec.shown_actuals depth token kind tokens.old) result tokens.new }
{
    let open = tokens.place();
    tokens.expect(Class::OpenParen)?;
    let format = optional_format(alloc, tokens, depth)?;
    tokens.expect(Class::CloseParen)?;
    tokens.expect(Class::Semicolon)?;
    Ok(Stmt::ShowActuals(token, kind, open, format))
}

/// The end of `$display` or `$write` without parentheses.
// ";"
#[tactic(auto, unfolding(crate::specs::ReadingStatements::shown_alone))]
fn shown_alone(tokens: &mut Cursor<'_>, token: u32, kind: ShowKind) -> Result<Stmt, Stop>
    ensures { Reads (spec.shown_alone token kind tokens.old) result tokens.new }
{
    tokens.expect(Class::Semicolon)?;
    Ok(Stmt::Show(token, kind))
}

#[tactic(auto, unfolding(crate::specs::ReadingStatements::show_tail))]
fn show_tail(
    alloc: Global,
    tokens: &mut Cursor<'_>,
    depth: u32,
    token: u32,
    kind: ShowKind,
) -> Result<Stmt, Stop>
    ensures { Reads (spec.show_tail depth token kind tokens.old) result tokens.new }
{
    if tokens.sees(Class::OpenParen) {
        return shown_actuals(alloc, tokens, depth, token, kind);
    }
    shown_alone(tokens, token, kind)
}

/// `$display` or `$write`.
fn show_kind(tokens: &mut Cursor<'_>) -> Result<ShowKind, Stop>
    ensures { Reads (token (λ t. show_of (class_at t)) tokens.old) result tokens.new }
{
    match ShowKind::of(tokens.class()) {
        Some(kind) => {
            tokens.skip();
            Ok(kind)
        }
        None => Err(tokens.refuse()),
    }
}

/// A task that shows its actuals (21.2.1).
// ("$display" | "$write") ("(" (string ("," expr)*)? ")")? ";"
#[tactic(auto, unfolding(crate::specs::ReadingStatements::show))]
pub fn show(alloc: Global, tokens: &mut Cursor<'_>, depth: u32) -> Result<Stmt, Stop>
    ensures { Reads (spec.show depth tokens.old) result tokens.new }
{
    let token = tokens.place();
    let kind = show_kind(tokens)?;
    show_tail(alloc, tokens, depth, token, kind)
}

/// A call whose value is dropped (13.4.1). It is one level, which begins at `void`.
// "void" "'" "(" call ")" ";"
#[tactic(auto, unfolding(crate::specs::ReadingStatements::void_by))]
pub fn void_call(alloc: Global, tokens: &mut Cursor<'_>, depth: u32) -> Result<Stmt, Stop>
    ensures { Reads (level (spec.nested depth) (λ e. spec.void_by e.0) tokens.old) result tokens.new }
{
    let inner = enter(tokens, depth)?;
    let token = tokens.place();
    tokens.expect(Class::Void)?;
    tokens.expect(Class::Tick)?;
    tokens.expect(Class::OpenParen)?;
    let call = flat_call(alloc, tokens, inner)?;
    tokens.expect(Class::CloseParen)?;
    tokens.expect(Class::Semicolon)?;
    Ok(Stmt::Void(token, call))
}
