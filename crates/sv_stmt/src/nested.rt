//! Statements, and those that hold others (IEEE 1800-2017, 9.3, 12).

ghost use Rattle.std.specs.Prelude.{◌≡◌, IfErr, IfOk};
ghost use Rattle.dpi_grammar.specs.Parser.{Reads, level};
ghost use Rattle.dpi_grammar.specs.declared.stop.Stop.TheVariants.{Memory};
ghost use Rattle.sv_stmt.specs.ReadingStatements as spec;

use crate::branches::{ElsePart, condition, item_values};
use crate::changes::{change, start};
use crate::declarators::declarations;
use crate::front::{begins_item, begins_show, begins_statement};
use crate::jumps::{
    break_statement, continue_statement, disable_statement, empty, return_statement,
};
use crate::levels::enter;
use crate::named::named;
use crate::tasks::{finish_statement, show, void_call};
use dpi_grammar::Stop;
use sqlite_items::{Boxed, Items};
use std::alloc::Global;
use sv_cursor::{Cursor, optional_label};
use sv_expr::expr;
use sv_tree::{Block, CaseItem, Class, Else, ElseIf, Expr, If, Start, Stmt};

/// A statement (A.6.4).
// statement = ";" | block | if | case | loop | jump | task | call ";" | change ";"
#[cycle(statement)]
#[tactic(auto, unfolding(crate::specs::ReadingStatements::statement_in))]
pub fn statement(alloc: Global, tokens: &mut Cursor<'_>, depth: u32) -> Result<Stmt, Stop>
    ensures { Reads (spec.statement depth tokens.old) result tokens.new }
{
    if tokens.sees(Class::Semicolon) {
        return empty(tokens);
    }
    if tokens.sees(Class::Begin) {
        return block(alloc, tokens, depth);
    }
    if tokens.sees(Class::If) {
        return if_statement(alloc, tokens, depth);
    }
    if tokens.sees(Class::Case) {
        return case(alloc, tokens, depth);
    }
    loop_or_other(alloc, tokens, depth)
}

/// A loop (12.7), or a statement that holds no other.
#[cycle(statement)]
#[tactic(auto, unfolding(crate::specs::ReadingStatements::loop_or_other))]
fn loop_or_other(alloc: Global, tokens: &mut Cursor<'_>, depth: u32) -> Result<Stmt, Stop>
    ensures { Reads (spec.loop_or_other depth (spec.nested depth) tokens.old) result tokens.new }
{
    if tokens.sees(Class::While) {
        return while_loop(alloc, tokens, depth);
    }
    if tokens.sees(Class::Repeat) {
        return repeat_loop(alloc, tokens, depth);
    }
    if tokens.sees(Class::Forever) {
        return forever_loop(alloc, tokens, depth);
    }
    if tokens.sees(Class::For) {
        return for_loop(alloc, tokens, depth);
    }
    jump_or_other(alloc, tokens, depth)
}

/// A statement that goes elsewhere (9.6.2, 12.8), a task, or what begins with a name.
#[tactic(auto, unfolding(crate::specs::ReadingStatements::jump_or_other))]
fn jump_or_other(alloc: Global, tokens: &mut Cursor<'_>, depth: u32) -> Result<Stmt, Stop>
    ensures { Reads (spec.jump_or_other depth (spec.nested depth) tokens.old) result tokens.new }
{
    if tokens.sees(Class::Return) {
        return return_statement(alloc, tokens, depth);
    }
    if tokens.sees(Class::Break) {
        return break_statement(tokens);
    }
    if tokens.sees(Class::Continue) {
        return continue_statement(tokens);
    }
    if tokens.sees(Class::Disable) {
        return disable_statement(alloc, tokens);
    }
    task_or_named(alloc, tokens, depth)
}

/// A call of a system task, a call whose value is dropped, or what begins with a name.
#[tactic(auto, unfolding(crate::specs::ReadingStatements::task_or_named))]
fn task_or_named(alloc: Global, tokens: &mut Cursor<'_>, depth: u32) -> Result<Stmt, Stop>
    ensures { Reads (spec.task_or_named depth (spec.nested depth) tokens.old) result tokens.new }
{
    if tokens.sees(Class::Finish) {
        return finish_statement(alloc, tokens);
    }
    if begins_show(tokens) {
        return show(alloc, tokens, depth);
    }
    if tokens.sees(Class::Void) {
        return void_call(alloc, tokens, depth);
    }
    named(alloc, tokens, depth)
}

/// A statement, on the heap.
#[cycle(statement)]
pub(crate) fn boxed_statement(
    alloc: Global,
    tokens: &mut Cursor<'_>,
    depth: u32,
) -> Result<Boxed<Stmt>, Stop>
    ensures { Reads (spec.statement depth tokens.old) result tokens.new }
{
    let read = statement(alloc, tokens, depth)?;
    Ok(Boxed::new(alloc, read)?)
}

/// Statements for as long as one begins.
// stmt*
#[cycle(statement)]
pub fn statements(alloc: Global, tokens: &mut Cursor<'_>, depth: u32) -> Result<Items<Stmt>, Stop>
    ensures { Reads (spec.statements depth tokens.old) result tokens.new }
{
    let mut found = Items::new(alloc);
    for _turn in 0..tokens.left() {
        if !begins_statement(tokens.class()) {
            return Ok(found);
        }
        found.push(statement(alloc, tokens, depth)?)?;
    }
    Ok(found)
}

/// A block (9.3.1).
// "begin" label? variables* stmt* "end" label?
#[cycle(statement)]
#[tactic(auto, unfolding(crate::specs::ReadingStatements::block_by))]
fn block(alloc: Global, tokens: &mut Cursor<'_>, depth: u32) -> Result<Stmt, Stop>
    ensures { Reads (level (spec.nested depth) (λ e. spec.block_by e.0 e.1) tokens.old) result tokens.new }
{
    let inner = enter(tokens, depth)?;
    let token = tokens.place();
    tokens.expect(Class::Begin)?;
    let label = optional_label(alloc, tokens)?;
    let variables = declarations(alloc, tokens, inner)?;
    let statements = statements(alloc, tokens, inner)?;
    tokens.expect(Class::End)?;
    let end = optional_label(alloc, tokens)?;
    Ok(Stmt::Block(Block {
        token,
        label,
        variables,
        statements,
        end,
    }))
}

/// A conditional statement with all that its `else` parts hold (12.4).
// "if" "(" expr ")" stmt ("else" "if" "(" expr ")" stmt)* ("else" stmt)?
#[cycle(statement)]
#[tactic(auto, unfolding(crate::specs::ReadingStatements::if_by))]
fn if_statement(alloc: Global, tokens: &mut Cursor<'_>, depth: u32) -> Result<Stmt, Stop>
    ensures { Reads (level (spec.nested depth) (λ e. spec.if_by e.0 e.1) tokens.old) result tokens.new }
{
    let inner = enter(tokens, depth)?;
    let token = tokens.place();
    tokens.expect(Class::If)?;
    let condition = condition(alloc, tokens, inner)?;
    if_tail(alloc, tokens, inner, token, condition)
}

/// The rest of a conditional statement, behind its condition (12.4).
// stmt ("else" "if" "(" expr ")" stmt)* ("else" stmt)?
#[cycle(statement)]
#[tactic(auto, unfolding(crate::specs::ReadingStatements::if_tail))]
fn if_tail(
    alloc: Global,
    tokens: &mut Cursor<'_>,
    depth: u32,
    token: u32,
    condition: Expr,
) -> Result<Stmt, Stop>
    ensures { Reads (spec.if_tail depth (spec.statement depth) token condition tokens.old) result tokens.new }
{
    let body = boxed_statement(alloc, tokens, depth)?;
    if_end(alloc, tokens, depth, token, condition, body)
}

/// The rest of a conditional statement, behind its first statement (12.4).
// ("else" "if" "(" expr ")" stmt)* ("else" stmt)?
#[cycle(statement)]
#[tactic(auto, unfolding(crate::specs::ReadingStatements::if_end))]
fn if_end(
    alloc: Global,
    tokens: &mut Cursor<'_>,
    depth: u32,
    token: u32,
    condition: Expr,
    body: Boxed<Stmt>,
) -> Result<Stmt, Stop>
    ensures { Reads (spec.if_end depth (spec.statement depth) token condition body tokens.old) result tokens.new }
{
    let (others, last) = else_parts(alloc, tokens, depth)?;
    boxed_if(alloc, token, condition, body, others, last)
}

/// A conditional statement of its parts.
fn boxed_if(
    alloc: Global,
    token: u32,
    condition: Expr,
    body: Boxed<Stmt>,
    others: Items<ElseIf>,
    last: Option<Boxed<Else>>,
) -> Result<Stmt, Stop>
    ensures ok { IfOk result (λ made. made ≡ spec.if_of token condition body others last) }
    ensures err { IfErr result (λ stop. stop ≡ Memory) }
{
    let whole = If {
        token,
        condition,
        body: body.into_inner(),
        others,
        last,
    };
    Ok(Stmt::If(Boxed::new(alloc, whole)?))
}

/// The parts behind the statement of an `if`, each of which belongs to the nearest one (12.4).
// ("else" "if" "(" expr ")" stmt)* ("else" stmt)?
#[cycle(statement)]
fn else_parts(
    alloc: Global,
    tokens: &mut Cursor<'_>,
    depth: u32,
) -> Result<(Items<ElseIf>, Option<Boxed<Else>>), Stop>
    ensures { Reads (spec.else_parts depth (spec.statement depth) tokens.old) result tokens.new }
{
    let mut others = Items::new(alloc);
    for _turn in 0..tokens.left() {
        if !tokens.sees(Class::Else) {
            return Ok((others, None));
        }
        match else_part(alloc, tokens, depth)? {
            ElsePart::ElseIf(part) => others.push(part)?,
            ElsePart::Else(part) => return Ok((others, Some(Boxed::new(alloc, part)?))),
        }
    }
    Ok((others, None))
}

/// One part, from its `else` on.
// "else" "if" "(" expr ")" stmt | "else" stmt
#[cycle(statement)]
#[tactic(auto, unfolding(crate::specs::ReadingStatements::else_part))]
fn else_part(alloc: Global, tokens: &mut Cursor<'_>, depth: u32) -> Result<ElsePart, Stop>
    ensures { Reads (spec.else_part depth (spec.statement depth) tokens.old) result tokens.new }
{
    let token = tokens.place();
    tokens.expect(Class::Else)?;
    if tokens.sees(Class::If) {
        return else_if_tail(alloc, tokens, depth, token);
    }
    else_tail(alloc, tokens, depth, token)
}

/// A part with a condition of its own, behind its `else`.
// "if" "(" expr ")" stmt
#[cycle(statement)]
#[tactic(auto, unfolding(crate::specs::ReadingStatements::else_if_tail))]
fn else_if_tail(
    alloc: Global,
    tokens: &mut Cursor<'_>,
    depth: u32,
    token: u32,
) -> Result<ElsePart, Stop>
    ensures { Reads (spec.else_if_tail depth (spec.statement depth) token tokens.old) result tokens.new }
{
    tokens.expect(Class::If)?;
    let condition = condition(alloc, tokens, depth)?;
    let body = statement(alloc, tokens, depth)?;
    Ok(ElsePart::ElseIf(ElseIf {
        token,
        condition,
        body,
    }))
}

/// The last part, behind its `else`.
// stmt
#[cycle(statement)]
#[tactic(auto, unfolding(crate::specs::ReadingStatements::else_tail))]
fn else_tail(
    alloc: Global,
    tokens: &mut Cursor<'_>,
    depth: u32,
    token: u32,
) -> Result<ElsePart, Stop>
    ensures { Reads (spec.else_tail depth (spec.statement depth) token tokens.old) result tokens.new }
{
    let body = statement(alloc, tokens, depth)?;
    Ok(ElsePart::Else(Else { token, body }))
}

/// A case statement (12.5).
// "case" "(" expr ")" item+ "endcase"
#[cycle(statement)]
#[tactic(auto, unfolding(crate::specs::ReadingStatements::case_by))]
fn case(alloc: Global, tokens: &mut Cursor<'_>, depth: u32) -> Result<Stmt, Stop>
    ensures { Reads (level (spec.nested depth) (λ e. spec.case_by e.0 e.1) tokens.old) result tokens.new }
{
    let inner = enter(tokens, depth)?;
    let token = tokens.place();
    tokens.expect(Class::Case)?;
    let value = condition(alloc, tokens, inner)?;
    let items = items(alloc, tokens, inner)?;
    tokens.expect(Class::EndCase)?;
    Ok(Stmt::Case(token, value, items))
}

// item+
#[cycle(statement)]
#[tactic(auto, unfolding(crate::specs::ReadingStatements::items))]
fn items(alloc: Global, tokens: &mut Cursor<'_>, depth: u32) -> Result<Items<CaseItem>, Stop>
    ensures { Reads (spec.items depth (spec.statement depth) tokens.old) result tokens.new }
{
    let mut found = Items::new(alloc);
    found.push(item(alloc, tokens, depth)?)?;
    more_items(alloc, tokens, depth, found)
}

#[cycle(statement)]
fn more_items(
    alloc: Global,
    tokens: &mut Cursor<'_>,
    depth: u32,
    mut found: Items<CaseItem>,
) -> Result<Items<CaseItem>, Stop>
    ensures { Reads (spec.more_items depth (spec.statement depth) found tokens.old) result tokens.new }
{
    for _turn in 0..tokens.left() {
        if !begins_item(tokens) {
            return Ok(found);
        }
        found.push(item(alloc, tokens, depth)?)?;
    }
    Ok(found)
}

/// An item of a `case` (12.5).
// item = (expr,+ | "default") ":" stmt
#[cycle(statement)]
#[tactic(auto, unfolding(crate::specs::ReadingStatements::item))]
fn item(alloc: Global, tokens: &mut Cursor<'_>, depth: u32) -> Result<CaseItem, Stop>
    ensures { Reads (spec.item depth (spec.statement depth) tokens.old) result tokens.new }
{
    let token = tokens.place();
    let values = item_values(alloc, tokens, depth)?;
    tokens.expect(Class::Colon)?;
    let body = statement(alloc, tokens, depth)?;
    Ok(CaseItem {
        token,
        values,
        body,
    })
}

/// A loop for as long as a condition holds (12.7.4).
// "while" "(" expr ")" stmt
#[cycle(statement)]
#[tactic(auto, unfolding(crate::specs::ReadingStatements::while_by))]
fn while_loop(alloc: Global, tokens: &mut Cursor<'_>, depth: u32) -> Result<Stmt, Stop>
    ensures { Reads (level (spec.nested depth) (λ e. spec.while_by e.0 e.1) tokens.old) result tokens.new }
{
    let inner = enter(tokens, depth)?;
    let token = tokens.place();
    tokens.expect(Class::While)?;
    let condition = condition(alloc, tokens, inner)?;
    let body = boxed_statement(alloc, tokens, inner)?;
    Ok(Stmt::While(token, condition, body))
}

/// A loop of a number of turns (12.7.2).
// "repeat" "(" expr ")" stmt
#[cycle(statement)]
#[tactic(auto, unfolding(crate::specs::ReadingStatements::repeat_by))]
fn repeat_loop(alloc: Global, tokens: &mut Cursor<'_>, depth: u32) -> Result<Stmt, Stop>
    ensures { Reads (level (spec.nested depth) (λ e. spec.repeat_by e.0 e.1) tokens.old) result tokens.new }
{
    let inner = enter(tokens, depth)?;
    let token = tokens.place();
    tokens.expect(Class::Repeat)?;
    let count = condition(alloc, tokens, inner)?;
    let body = boxed_statement(alloc, tokens, inner)?;
    Ok(Stmt::Repeat(token, count, body))
}

/// A loop without an end of its own (12.7.6).
// "forever" stmt
#[cycle(statement)]
#[tactic(auto, unfolding(crate::specs::ReadingStatements::forever_by))]
fn forever_loop(alloc: Global, tokens: &mut Cursor<'_>, depth: u32) -> Result<Stmt, Stop>
    ensures { Reads (level (spec.nested depth) (λ e. spec.forever_by e.0 e.1) tokens.old) result tokens.new }
{
    let inner = enter(tokens, depth)?;
    let token = tokens.place();
    tokens.expect(Class::Forever)?;
    let body = boxed_statement(alloc, tokens, inner)?;
    Ok(Stmt::Forever(token, body))
}

/// A loop with a start, a condition and a change (12.7.1).
// "for" "(" start ";" expr ";" change ")" stmt
#[cycle(statement)]
#[tactic(auto, unfolding(crate::specs::ReadingStatements::for_by))]
fn for_loop(alloc: Global, tokens: &mut Cursor<'_>, depth: u32) -> Result<Stmt, Stop>
    ensures { Reads (level (spec.nested depth) (λ e. spec.for_by e.0 e.1) tokens.old) result tokens.new }
{
    let inner = enter(tokens, depth)?;
    let token = tokens.place();
    tokens.expect(Class::For)?;
    tokens.expect(Class::OpenParen)?;
    let start = start(alloc, tokens, inner)?;
    tokens.expect(Class::Semicolon)?;
    for_tail(alloc, tokens, inner, token, start)
}

/// The rest of a `for`, behind its start (12.7.1).
// expr ";" change ")" stmt
#[cycle(statement)]
#[tactic(auto, unfolding(crate::specs::ReadingStatements::for_tail))]
fn for_tail(
    alloc: Global,
    tokens: &mut Cursor<'_>,
    depth: u32,
    token: u32,
    start: Start,
) -> Result<Stmt, Stop>
    ensures { Reads (spec.for_tail depth (spec.statement depth) token start tokens.old) result tokens.new }
{
    let condition = expr(alloc, tokens, depth)?;
    tokens.expect(Class::Semicolon)?;
    let change = change(alloc, tokens, depth)?;
    tokens.expect(Class::CloseParen)?;
    let body = boxed_statement(alloc, tokens, depth)?;
    Ok(Stmt::For(token, start, condition, change, body))
}
