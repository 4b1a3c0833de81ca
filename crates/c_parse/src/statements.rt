//! Statements, and what holds them (ISO C 6.8).

ghost use Rattle.std.specs.Prelude.{[]};
ghost use Rattle.dpi_grammar.specs.Parser.{Reads};
ghost use Rattle.c_expr.specs.Reading.{expr};
ghost use Rattle.c_parse.specs.ReadingStatements as spec;

use crate::branch::Branch;
use crate::front::{Front, Nest, begins_part, begins_variables, front_of};
use crate::levels::enter;
use crate::simple::{
    break_stmt, condition, continue_stmt, empty, expr_stmt, optional_expr, return_stmt, start,
};
use crate::variables::variables;
use c_cursor::Cursor;
use c_tree::{Block, CExpr, Class, Else, ElseIf, If, Part, Start, Stmt};
use dpi_grammar::Stop;
use sqlite_items::{Boxed, Items};
use std::alloc::Global;

/// A statement.
// stmt = ";" | block | expr ";" | if | while | do | for | "return" expr? ";" | "break" ";"
//      | "continue" ";"
#[cycle(stmt)]
#[tactic(auto, unfolding(crate::specs::ReadingStatements::stmt_in))]
pub fn stmt(alloc: Global, tokens: &mut Cursor<'_>, depth: u32) -> Result<Stmt, Stop>
    ensures { Reads (spec.stmt depth tokens.old) result tokens.new }
{
    match front_of(tokens.class()) {
        Front::Empty => empty(tokens),
        Front::Nested(nest) => {
            let inner = enter(tokens, depth)?;
            nested(alloc, tokens, inner, nest)
        }
        Front::Return => return_stmt(alloc, tokens, depth),
        Front::Break => break_stmt(tokens),
        Front::Continue => continue_stmt(tokens),
        Front::Expr => expr_stmt(alloc, tokens, depth),
    }
}

/// A statement that opens a level; `depth` are left inside.
#[cycle(stmt)]
fn nested(alloc: Global, tokens: &mut Cursor<'_>, depth: u32, nest: Nest) -> Result<Stmt, Stop>
    ensures { Reads (spec.nested_by (expr depth) (spec.stmt depth) nest tokens.old) result tokens.new }
{
    match nest {
        Nest::Block => Ok(Stmt::Block(block(alloc, tokens, depth)?)),
        Nest::If => {
            let tree = if_stmt(alloc, tokens, depth)?;
            Ok(Stmt::If(Boxed::new(alloc, tree)?))
        }
        Nest::While => while_stmt(alloc, tokens, depth),
        Nest::Do => do_stmt(alloc, tokens, depth),
        Nest::For => for_stmt(alloc, tokens, depth),
    }
}

/// A block (6.8.2); `depth` levels are left inside.
// block = "{" (vardecl | stmt)* "}"
#[cycle(stmt)]
#[tactic(auto, unfolding(crate::specs::ReadingStatements::block_by))]
pub fn block(alloc: Global, tokens: &mut Cursor<'_>, depth: u32) -> Result<Block, Stop>
    ensures { Reads (spec.block_by (expr depth) (spec.stmt depth) tokens.old) result tokens.new }
{
    let token = tokens.place();
    tokens.expect(Class::OpenBrace)?;
    let parts = parts(alloc, tokens, depth)?;
    let end = tokens.place();
    tokens.expect(Class::CloseBrace)?;
    Ok(Block { token, parts, end })
}

// (vardecl | stmt)*
#[cycle(stmt)]
fn parts(alloc: Global, tokens: &mut Cursor<'_>, depth: u32) -> Result<Items<Part>, Stop>
    ensures { Reads (spec.parts_by (expr depth) (spec.stmt depth) tokens.old) result tokens.new }
{
    let mut found = Items::new(alloc);
    for _turn in 0..tokens.left() {
        if !begins_part(tokens) {
            return Ok(found);
        }
        found.push(part(alloc, tokens, depth)?)?;
    }
    Ok(found)
}

// vardecl | stmt
#[cycle(stmt)]
fn part(alloc: Global, tokens: &mut Cursor<'_>, depth: u32) -> Result<Part, Stop>
    ensures { Reads (spec.part_by (expr depth) (spec.stmt depth) tokens.old) result tokens.new }
{
    if begins_variables(tokens) {
        return Ok(Part::Variables(variables(alloc, tokens, depth)?));
    }
    Ok(Part::Stmt(stmt(alloc, tokens, depth)?))
}

/// An `if`, with all that belongs to it (6.8.4.1).
// "if" "(" expr ")" stmt ("else" "if" "(" expr ")" stmt)* ("else" stmt)?
#[cycle(stmt)]
#[tactic(auto, unfolding(crate::specs::ReadingStatements::if_by))]
fn if_stmt(alloc: Global, tokens: &mut Cursor<'_>, depth: u32) -> Result<If, Stop>
    ensures { Reads (spec.if_by (expr depth) (spec.stmt depth) tokens.old) result tokens.new }
{
    let token = tokens.place();
    tokens.expect(Class::If)?;
    let condition = condition(alloc, tokens, depth)?;
    let body = boxed_stmt(alloc, tokens, depth)?;
    let (others, last) = branches(alloc, tokens, depth)?;
    Ok(If {
        token,
        condition,
        body: body.into_inner(),
        others,
        last,
    })
}

/// The `else if` parts and the last `else`.
#[cycle(stmt)]
fn branches(
    alloc: Global,
    tokens: &mut Cursor<'_>,
    depth: u32,
) -> Result<(Items<ElseIf>, Option<Boxed<Else>>), Stop>
    ensures { Reads (spec.branches_by (expr depth) (spec.stmt depth) tokens.old) result tokens.new }
{
    let mut others = Items::new(alloc);
    for _turn in 0..tokens.left() {
        if !tokens.sees(Class::Else) {
            return Ok((others, None));
        }
        match branch(alloc, tokens, depth)? {
            Branch::Other(other) => others.push(other)?,
            Branch::Last(last) => return Ok((others, Some(Boxed::new(alloc, last)?))),
        }
    }
    Ok((others, None))
}

// "else" "if" "(" expr ")" stmt | "else" stmt
#[cycle(stmt)]
#[tactic(auto, unfolding(crate::specs::ReadingStatements::branch_by))]
fn branch(alloc: Global, tokens: &mut Cursor<'_>, depth: u32) -> Result<Branch, Stop>
    ensures { Reads (spec.branch_by (expr depth) (spec.stmt depth) tokens.old) result tokens.new }
{
    let token = tokens.place();
    tokens.expect(Class::Else)?;
    behind_else(alloc, tokens, depth, token)
}

#[cycle(stmt)]
fn behind_else(
    alloc: Global,
    tokens: &mut Cursor<'_>,
    depth: u32,
    token: u32,
) -> Result<Branch, Stop>
    ensures { Reads (spec.behind_else_by (expr depth) (spec.stmt depth) token tokens.old) result tokens.new }
{
    if tokens.sees(Class::If) {
        return Ok(Branch::Other(else_if(alloc, tokens, depth, token)?));
    }
    Ok(Branch::Last(last_else(alloc, tokens, depth, token)?))
}

/// An `else if` part, behind its `else` of that number.
// "if" "(" expr ")" stmt
#[cycle(stmt)]
#[tactic(auto, unfolding(crate::specs::ReadingStatements::else_if_by))]
fn else_if(alloc: Global, tokens: &mut Cursor<'_>, depth: u32, token: u32) -> Result<ElseIf, Stop>
    ensures { Reads (spec.else_if_by (expr depth) (spec.stmt depth) token tokens.old) result tokens.new }
{
    tokens.expect(Class::If)?;
    let condition = condition(alloc, tokens, depth)?;
    let body = stmt(alloc, tokens, depth)?;
    Ok(ElseIf {
        token,
        condition,
        body,
    })
}

/// The last part of an `if`, behind its `else` of that number.
// stmt
#[cycle(stmt)]
#[tactic(auto, unfolding(crate::specs::ReadingStatements::else_by))]
fn last_else(alloc: Global, tokens: &mut Cursor<'_>, depth: u32, token: u32) -> Result<Else, Stop>
    ensures { Reads (spec.else_by (expr depth) (spec.stmt depth) token tokens.old) result tokens.new }
{
    let body = stmt(alloc, tokens, depth)?;
    Ok(Else { token, body })
}

/// A loop that tests first (6.8.5.1).
// "while" "(" expr ")" stmt
#[cycle(stmt)]
#[tactic(auto, unfolding(crate::specs::ReadingStatements::while_by))]
fn while_stmt(alloc: Global, tokens: &mut Cursor<'_>, depth: u32) -> Result<Stmt, Stop>
    ensures { Reads (spec.while_by (expr depth) (spec.stmt depth) tokens.old) result tokens.new }
{
    let token = tokens.place();
    tokens.expect(Class::While)?;
    let condition = condition(alloc, tokens, depth)?;
    let body = stmt(alloc, tokens, depth)?;
    Ok(Stmt::While(token, condition, Boxed::new(alloc, body)?))
}

/// A loop that tests last (6.8.5.2).
// "do" stmt "while" "(" expr ")" ";"
#[cycle(stmt)]
#[tactic(auto, unfolding(crate::specs::ReadingStatements::do_by))]
fn do_stmt(alloc: Global, tokens: &mut Cursor<'_>, depth: u32) -> Result<Stmt, Stop>
    ensures { Reads (spec.do_by (expr depth) (spec.stmt depth) tokens.old) result tokens.new }
{
    let token = tokens.place();
    tokens.expect(Class::Do)?;
    let body = stmt(alloc, tokens, depth)?;
    let test = tokens.place();
    tokens.expect(Class::While)?;
    let condition = condition(alloc, tokens, depth)?;
    tokens.expect(Class::Semicolon)?;
    Ok(Stmt::Do(token, Boxed::new(alloc, body)?, test, condition))
}

/// A loop with a start, a test and a step (6.8.5.3).
// "for" "(" (vardecl | expr? ";") expr? ";" expr? ")" stmt
#[cycle(stmt)]
#[tactic(auto, unfolding(crate::specs::ReadingStatements::for_by))]
fn for_stmt(alloc: Global, tokens: &mut Cursor<'_>, depth: u32) -> Result<Stmt, Stop>
    ensures { Reads (spec.for_by (expr depth) (spec.stmt depth) tokens.old) result tokens.new }
{
    let token = tokens.place();
    tokens.expect(Class::For)?;
    tokens.expect(Class::OpenParen)?;
    let start = start(alloc, tokens, depth)?;
    let start = Boxed::new(alloc, start)?;
    for_test(alloc, tokens, depth, token, start)
}

/// The rest of a `for` of that number, behind what it begins with.
// expr? ";" expr? ")" stmt
#[cycle(stmt)]
fn for_test(
    alloc: Global,
    tokens: &mut Cursor<'_>,
    depth: u32,
    token: u32,
    start: Boxed<Start>,
) -> Result<Stmt, Stop>
    ensures { Reads (spec.for_test_by (expr depth) (spec.stmt depth) token start tokens.old) result tokens.new }
{
    let test = optional_expr(alloc, tokens, depth)?;
    tokens.expect(Class::Semicolon)?;
    for_step(alloc, tokens, depth, token, start, test)
}

/// The rest of a `for` of that number, behind its test.
// expr? ")" stmt
#[cycle(stmt)]
fn for_step(
    alloc: Global,
    tokens: &mut Cursor<'_>,
    depth: u32,
    token: u32,
    start: Boxed<Start>,
    test: Option<CExpr>,
) -> Result<Stmt, Stop>
    ensures { Reads (spec.for_step_by (expr depth) (spec.stmt depth) token start test tokens.old) result tokens.new }
{
    let step = optional_expr(alloc, tokens, depth)?;
    tokens.expect(Class::CloseParen)?;
    for_body(alloc, tokens, depth, token, start, test, step)
}

/// The statement of a `for` of that number.
#[cycle(stmt)]
fn for_body(
    alloc: Global,
    tokens: &mut Cursor<'_>,
    depth: u32,
    token: u32,
    start: Boxed<Start>,
    test: Option<CExpr>,
    step: Option<CExpr>,
) -> Result<Stmt, Stop>
    ensures { Reads (spec.for_body_by (expr depth) (spec.stmt depth) token start test step tokens.old) result tokens.new }
{
    let body = boxed_stmt(alloc, tokens, depth)?;
    Ok(Stmt::For(token, start.into_inner(), test, step, body))
}

/// A statement inside another.
#[cycle(stmt)]
fn boxed_stmt(alloc: Global, tokens: &mut Cursor<'_>, depth: u32) -> Result<Boxed<Stmt>, Stop>
    ensures { Reads (spec.stmt depth tokens.old) result tokens.new }
{
    let tree = stmt(alloc, tokens, depth)?;
    Ok(Boxed::new(alloc, tree)?)
}
