//! Expressions and what holds them.

ghost use Rattle.std.specs.Prelude.{[]};
ghost use Rattle.dpi_grammar.specs.Parser.{Reads, more, level};
ghost use Rattle.c_expr.specs.Front.{begins_term, begins_assignment};
ghost use Rattle.c_expr.specs.Reading as spec;
ghost use Rattle.c_expr.specs.Reading.{inside, readers};

use crate::front::{begins_assignment, begins_expr, begins_lead, begins_suffix, begins_term};
use crate::lead::Lead;
use crate::levels::enter;
use crate::parts::{assign_operator, cast, flat_suffix, literal, operator, sign};
use c_cursor::{Cursor, name};
use c_tree::{
    Assignment, CExpr, Chain, Choice, Class, Cond, Operand, Prefix, Primary, Suffix, Term,
};
use c_types::begins_type;
use dpi_grammar::Stop;
use sqlite_items::{Boxed, Items};
use std::alloc::Global;

/// An expression; `depth` levels are left inside (ISO C 6.5.16).
// expr = cond (assignop cond)*
#[cycle(expr)]
#[tactic(auto, unfolding(crate::specs::Reading::expr_in))]
pub fn expr(alloc: Global, tokens: &mut Cursor<'_>, depth: u32) -> Result<CExpr, Stop>
    ensures { Reads (spec.expr depth tokens.old) result tokens.new }
{
    let token = tokens.place();
    let first = cond(alloc, tokens, depth)?;
    let rest = assignments(alloc, tokens, depth)?;
    Ok(CExpr { token, first, rest })
}

// (assignop cond)*
#[cycle(expr)]
fn assignments(
    alloc: Global,
    tokens: &mut Cursor<'_>,
    depth: u32,
) -> Result<Items<Assignment>, Stop>
    ensures { Reads (more begins_assignment (spec.assignment (inside depth)) [] tokens.old) result tokens.new }
{
    let mut found = Items::new(alloc);
    for _turn in 0..tokens.left() {
        if !begins_assignment(tokens) {
            return Ok(found);
        }
        found.push(assignment(alloc, tokens, depth)?)?;
    }
    Ok(found)
}

/// An assigning operator, and the part behind it (6.5.16).
// assignop cond
#[cycle(expr)]
#[tactic(auto, unfolding(crate::specs::Reading::assignment))]
fn assignment(alloc: Global, tokens: &mut Cursor<'_>, depth: u32) -> Result<Assignment, Stop>
    ensures { Reads (spec.assignment (inside depth) tokens.old) result tokens.new }
{
    let token = tokens.place();
    let operator = assign_operator(tokens)?;
    let value = cond(alloc, tokens, depth)?;
    Ok(Assignment {
        token,
        operator,
        value,
    })
}

/// A chain, or a conditional (6.5.15).
// cond = chain ("?" expr ":" cond)?
#[cycle(expr)]
#[tactic(auto, unfolding(crate::specs::Reading::cond_in))]
fn cond(alloc: Global, tokens: &mut Cursor<'_>, depth: u32) -> Result<Cond, Stop>
    ensures { Reads (spec.cond depth tokens.old) result tokens.new }
{
    let token = tokens.place();
    let chain = chain(alloc, tokens, depth)?;
    let choice = choice(alloc, tokens, depth)?;
    Ok(Cond {
        token,
        chain,
        choice,
    })
}

/// The part of a conditional from its `?` on, where it comes next (6.5.15).
#[cycle(expr)]
fn choice(alloc: Global, tokens: &mut Cursor<'_>, depth: u32) -> Result<Option<Boxed<Choice>>, Stop>
    ensures { Reads (spec.choice_in (inside depth) tokens.old) result tokens.new }
{
    if !tokens.sees(Class::Question) {
        return Ok(None);
    }
    let inner = enter(tokens, depth)?;
    let choice = branches(alloc, tokens, inner)?;
    Ok(Some(Boxed::new(alloc, choice)?))
}

/// The two branches of a conditional (6.5.15).
// "?" expr ":" cond
#[cycle(expr)]
#[tactic(auto, unfolding(crate::specs::Reading::choice_by))]
fn branches(alloc: Global, tokens: &mut Cursor<'_>, depth: u32) -> Result<Choice, Stop>
    ensures { Reads (spec.choice_by (readers depth) tokens.old) result tokens.new }
{
    let token = tokens.place();
    tokens.expect(Class::Question)?;
    let yes = expr(alloc, tokens, depth)?;
    tokens.expect(Class::Colon)?;
    let no = cond(alloc, tokens, depth)?;
    Ok(Choice { token, yes, no })
}

/// Operands with operators between them (6.5.5 to 6.5.14).
// chain = cast (binop cast)*
#[cycle(expr)]
#[tactic(auto, unfolding(crate::specs::Reading::chain))]
fn chain(alloc: Global, tokens: &mut Cursor<'_>, depth: u32) -> Result<Chain, Stop>
    ensures { Reads (spec.chain (inside depth) tokens.old) result tokens.new }
{
    let token = tokens.place();
    let first = operand(alloc, tokens, depth)?;
    let rest = terms(alloc, tokens, depth)?;
    Ok(Chain { token, first, rest })
}

// (binop cast)*
#[cycle(expr)]
fn terms(alloc: Global, tokens: &mut Cursor<'_>, depth: u32) -> Result<Items<Term>, Stop>
    ensures { Reads (more begins_term (spec.term (inside depth)) [] tokens.old) result tokens.new }
{
    let mut found = Items::new(alloc);
    for _turn in 0..tokens.left() {
        if !begins_term(tokens) {
            return Ok(found);
        }
        found.push(term(alloc, tokens, depth)?)?;
    }
    Ok(found)
}

/// An operator, and the operand behind it (6.5.5 to 6.5.14).
// binop cast
#[cycle(expr)]
#[tactic(auto, unfolding(crate::specs::Reading::term))]
fn term(alloc: Global, tokens: &mut Cursor<'_>, depth: u32) -> Result<Term, Stop>
    ensures { Reads (spec.term (inside depth) tokens.old) result tokens.new }
{
    let token = tokens.place();
    let operator = operator(tokens)?;
    let operand = operand(alloc, tokens, depth)?;
    Ok(Term {
        token,
        operator,
        operand,
    })
}

/// Prefixes and casts, what they apply to, and its suffixes (6.5.2 to 6.5.4).
// cast = (unop | "(" type stars ")")* primary ("[" expr "]" | "." id | "->" id | "++" | "--")*
#[cycle(expr)]
#[tactic(auto, unfolding(crate::specs::Reading::operand))]
fn operand(alloc: Global, tokens: &mut Cursor<'_>, depth: u32) -> Result<Operand, Stop>
    ensures { Reads (spec.operand (inside depth) tokens.old) result tokens.new }
{
    let token = tokens.place();
    let (prefixes, primary) = led(alloc, tokens, depth)?;
    let suffixes = suffixes(alloc, tokens, depth)?;
    Ok(Operand {
        token,
        prefixes,
        primary,
        suffixes,
    })
}

/// Prefixes and casts, and what they apply to (6.5.1, 6.5.3, 6.5.4).
// (unop | "(" type stars ")")* primary
#[cycle(expr)]
fn led(alloc: Global, tokens: &mut Cursor<'_>, depth: u32) -> Result<(Items<Prefix>, Primary), Stop>
    ensures { Reads (spec.led (inside depth) tokens.old) result tokens.new }
{
    let mut found = Items::new(alloc);
    for _turn in 0..tokens.left() {
        if !begins_lead(tokens) {
            let last = plain(alloc, tokens, depth)?;
            return Ok((found, last));
        }
        match lead(alloc, tokens, depth)? {
            Lead::Prefix(prefix) => found.push(prefix)?,
            Lead::Whole(last) => return Ok((found, last)),
        }
    }
    let last = plain(alloc, tokens, depth)?;
    Ok((found, last))
}

/// A prefix, a cast, or an expression in parentheses (6.5.1, 6.5.3, 6.5.4).
// unop | "(" type stars ")" | "(" expr ")"
#[cycle(expr)]
#[tactic(auto, unfolding(crate::specs::Reading::lead))]
fn lead(alloc: Global, tokens: &mut Cursor<'_>, depth: u32) -> Result<Lead, Stop>
    ensures { Reads (spec.lead (inside depth) tokens.old) result tokens.new }
{
    if tokens.sees(Class::OpenParen) {
        return bracket(alloc, tokens, depth);
    }
    sign(tokens)
}

/// A cast, where a type follows the `(`, and else an expression in parentheses (6.5.1, 6.5.4). The
/// `(` opens a level there alone, which the token behind it shows.
// "(" type stars ")" | "(" expr ")"
#[cycle(expr)]
fn bracket(alloc: Global, tokens: &mut Cursor<'_>, depth: u32) -> Result<Lead, Stop>
    ensures { Reads (spec.bracket (inside depth) tokens.old) result tokens.new }
{
    let token = tokens.place();
    tokens.expect(Class::OpenParen)?;
    if begins_type(tokens) {
        return cast(alloc, tokens, token);
    }
    if !begins_expr(tokens) {
        return Err(tokens.refuse());
    }
    let inner = enter(tokens, depth)?;
    group(alloc, tokens, inner, token)
}

/// An expression in parentheses, behind the `(` of that number (6.5.1).
// expr ")"
#[cycle(expr)]
#[tactic(auto, unfolding(crate::specs::Reading::group))]
fn group(alloc: Global, tokens: &mut Cursor<'_>, depth: u32, token: u32) -> Result<Lead, Stop>
    ensures { Reads (spec.group token (readers depth) tokens.old) result tokens.new }
{
    let inner = expr(alloc, tokens, depth)?;
    tokens.expect(Class::CloseParen)?;
    Ok(Lead::Whole(Primary::Group(token, Boxed::new(alloc, inner)?)))
}

/// An operand without prefixes, suffixes and parentheses (6.5.1, 6.5.2.2).
// number | character | string | "NULL" | id | id "(" (expr,+)? ")"
#[cycle(expr)]
#[tactic(auto, unfolding(crate::specs::Reading::plain))]
fn plain(alloc: Global, tokens: &mut Cursor<'_>, depth: u32) -> Result<Primary, Stop>
    ensures { Reads (spec.plain (inside depth) tokens.old) result tokens.new }
{
    if tokens.sees(Class::Name) {
        return named(alloc, tokens, depth);
    }
    literal(alloc, tokens)
}

/// A name, or a call where arguments follow it (6.5.1, 6.5.2.2).
// id | id "(" (expr,+)? ")"
#[cycle(expr)]
#[tactic(auto, unfolding(crate::specs::Reading::named))]
fn named(alloc: Global, tokens: &mut Cursor<'_>, depth: u32) -> Result<Primary, Stop>
    ensures { Reads (spec.named (inside depth) tokens.old) result tokens.new }
{
    let name = name(alloc, tokens)?;
    if !tokens.sees(Class::OpenParen) {
        return Ok(Primary::Name(name));
    }
    let inner = enter(tokens, depth)?;
    let (token, arguments) = arguments(alloc, tokens, inner)?;
    Ok(Primary::Call(name, token, arguments))
}

/// The arguments of a call, with the number of the `(` (6.5.2.2).
// "(" (expr,+)? ")"
#[cycle(expr)]
#[tactic(auto, unfolding(crate::specs::Reading::arguments_by))]
fn arguments(
    alloc: Global,
    tokens: &mut Cursor<'_>,
    depth: u32,
) -> Result<(u32, Items<CExpr>), Stop>
    ensures { Reads (spec.arguments_by (readers depth) tokens.old) result tokens.new }
{
    let token = tokens.place();
    tokens.expect(Class::OpenParen)?;
    let arguments = listed(alloc, tokens, depth)?;
    tokens.expect(Class::CloseParen)?;
    Ok((token, arguments))
}

// (expr,+)?
#[cycle(expr)]
fn listed(alloc: Global, tokens: &mut Cursor<'_>, depth: u32) -> Result<Items<CExpr>, Stop>
    ensures { Reads (spec.listed_exprs depth tokens.old) result tokens.new }
{
    if !begins_expr(tokens) {
        return Ok(Items::new(alloc));
    }
    exprs(alloc, tokens, depth)
}

/// Expressions with commas between them, at least one; `depth` levels are left inside each.
// expr,+
#[cycle(expr)]
pub fn exprs(alloc: Global, tokens: &mut Cursor<'_>, depth: u32) -> Result<Items<CExpr>, Stop>
    ensures { Reads (spec.exprs depth tokens.old) result tokens.new }
{
    let mut found = Items::new(alloc);
    found.push(expr(alloc, tokens, depth)?)?;
    for _turn in 0..tokens.left() {
        if !tokens.sees(Class::Comma) {
            return Ok(found);
        }
        found.push(next_expr(alloc, tokens, depth)?)?;
    }
    Ok(found)
}

// "," expr
#[cycle(expr)]
fn next_expr(alloc: Global, tokens: &mut Cursor<'_>, depth: u32) -> Result<CExpr, Stop>
    ensures { Reads (spec.next_expr (readers depth) tokens.old) result tokens.new }
{
    tokens.expect(Class::Comma)?;
    expr(alloc, tokens, depth)
}

/// The suffixes of an operand (6.5.2).
// ("[" expr "]" | "." id | "->" id | "++" | "--")*
#[cycle(expr)]
fn suffixes(alloc: Global, tokens: &mut Cursor<'_>, depth: u32) -> Result<Items<Suffix>, Stop>
    ensures { Reads (spec.suffixes (inside depth) tokens.old) result tokens.new }
{
    let mut found = Items::new(alloc);
    for _turn in 0..tokens.left() {
        if !begins_suffix(tokens) {
            return Ok(found);
        }
        found.push(suffix(alloc, tokens, depth)?)?;
    }
    Ok(found)
}

/// A suffix (6.5.2).
// "[" expr "]" | "." id | "->" id | "++" | "--"
#[cycle(expr)]
#[tactic(auto, unfolding(crate::specs::Reading::suffix))]
fn suffix(alloc: Global, tokens: &mut Cursor<'_>, depth: u32) -> Result<Suffix, Stop>
    ensures { Reads (spec.suffix (inside depth) tokens.old) result tokens.new }
{
    if tokens.sees(Class::OpenBracket) {
        return index(alloc, tokens, depth);
    }
    flat_suffix(alloc, tokens)
}

/// An index, whose `[` opens a level (6.5.2.1).
// "[" expr "]"
#[cycle(expr)]
#[tactic(auto, unfolding(crate::specs::Reading::index_by))]
fn index(alloc: Global, tokens: &mut Cursor<'_>, depth: u32) -> Result<Suffix, Stop>
    ensures { Reads (level (inside depth) spec.index_by tokens.old) result tokens.new }
{
    let inner = enter(tokens, depth)?;
    let token = tokens.place();
    tokens.expect(Class::OpenBracket)?;
    let index = expr(alloc, tokens, inner)?;
    tokens.expect(Class::CloseBracket)?;
    Ok(Suffix::Index(token, Boxed::new(alloc, index)?))
}
