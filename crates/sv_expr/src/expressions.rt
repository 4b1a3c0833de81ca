//! Expressions and what holds them.

ghost use Rattle.std.specs.Prelude.{[]};
ghost use Rattle.dpi_grammar.specs.Parser.{Reads, more, level};
ghost use Rattle.sv_expr.specs.Front.{begins_term};
ghost use Rattle.sv_expr.specs.Reading as spec;
ghost use Rattle.sv_expr.specs.Reading.{inside};

use crate::bounds::number_of;
use crate::front::{Front, Wrap, begins_expr, begins_term, front_of};
use crate::levels::enter;
use crate::parts::{null, opening, operator, prefixes};
use crate::tails::{closing, select_tail};
use dpi_grammar::Stop;
use sqlite_items::{Boxed, Items};
use std::alloc::Global;
use sv_cursor::{Cursor, name, number, text};
use sv_tree::{Call, Chain, Choice, Class, Expr, Lvalue, Name, Operand, Primary, Select, Term};

/// An expression (IEEE 1800-2017, A.8.3).
// expr = chain ("?" expr ":" expr)?
#[cycle(expr)]
#[tactic(auto, unfolding(crate::specs::Reading::expr_in))]
pub fn expr(alloc: Global, tokens: &mut Cursor<'_>, depth: u32) -> Result<Expr, Stop>
    ensures { Reads (spec.expr depth tokens.old) result tokens.new }
{
    let token = tokens.place();
    let chain = chain(alloc, tokens, depth)?;
    let choice = choice(alloc, tokens, depth)?;
    Ok(Expr {
        token,
        chain,
        choice,
    })
}

/// The part of a conditional from its `?` on, where it comes next (11.4.11).
#[cycle(expr)]
fn choice(alloc: Global, tokens: &mut Cursor<'_>, depth: u32) -> Result<Option<Boxed<Choice>>, Stop>
    ensures { Reads (spec.choice_in (inside depth) tokens.old) result tokens.new }
{
    if !tokens.sees(Class::Question) {
        return Ok(None);
    }
    let inner = enter(tokens, depth)?;
    let choice = branches(alloc, tokens, inner)?;
    Ok(Some(Boxed::new(alloc, choice)?))
}

/// The two branches of a conditional (11.4.11).
// "?" expr ":" expr
#[cycle(expr)]
#[tactic(auto, unfolding(crate::specs::Reading::choice_by))]
fn branches(alloc: Global, tokens: &mut Cursor<'_>, depth: u32) -> Result<Choice, Stop>
    ensures { Reads (spec.choice_by (spec.expr depth) tokens.old) result tokens.new }
{
    let token = tokens.place();
    tokens.expect(Class::Question)?;
    let yes = expr(alloc, tokens, depth)?;
    tokens.expect(Class::Colon)?;
    let no = expr(alloc, tokens, depth)?;
    Ok(Choice { token, yes, no })
}

/// Operands with operators between them (11.3).
// chain = operand (binop operand)*
#[cycle(expr)]
#[tactic(auto, unfolding(crate::specs::Reading::chain))]
fn chain(alloc: Global, tokens: &mut Cursor<'_>, depth: u32) -> Result<Chain, Stop>
    ensures { Reads (spec.chain (inside depth) tokens.old) result tokens.new }
{
    let token = tokens.place();
    let first = operand(alloc, tokens, depth)?;
    let rest = terms(alloc, tokens, depth)?;
    Ok(Chain { token, first, rest })
}

#[cycle(expr)]
fn terms(alloc: Global, tokens: &mut Cursor<'_>, depth: u32) -> Result<Items<Term>, Stop>
    ensures { Reads (more begins_term (spec.term (inside depth)) [] tokens.old) result tokens.new }
{
    let mut found = Items::new(alloc);
    for _turn in 0..tokens.left() {
        if !begins_term(tokens.class()) {
            return Ok(found);
        }
        found.push(term(alloc, tokens, depth)?)?;
    }
    Ok(found)
}

/// An operator, and the operand behind it.
// binop operand
#[cycle(expr)]
#[tactic(auto, unfolding(crate::specs::Reading::term))]
fn term(alloc: Global, tokens: &mut Cursor<'_>, depth: u32) -> Result<Term, Stop>
    ensures { Reads (spec.term (inside depth) tokens.old) result tokens.new }
{
    let token = tokens.place();
    let operator = operator(tokens)?;
    let operand = operand(alloc, tokens, depth)?;
    Ok(Term {
        token,
        operator,
        operand,
    })
}

/// Prefixes, and what they apply to.
// operand = unop* primary
#[cycle(expr)]
#[tactic(auto, unfolding(crate::specs::Reading::operand))]
fn operand(alloc: Global, tokens: &mut Cursor<'_>, depth: u32) -> Result<Operand, Stop>
    ensures { Reads (spec.operand (inside depth) tokens.old) result tokens.new }
{
    let token = tokens.place();
    let prefixes = prefixes(alloc, tokens)?;
    let primary = primary(alloc, tokens, depth)?;
    Ok(Operand {
        token,
        prefixes,
        primary,
    })
}

/// An operand without prefixes (A.8.4).
// primary = number | string | "null" | id select* | call | "(" expr ")" | "{" expr,+ "}"
//         | "{" number "{" expr,+ "}" "}" | ("$signed" | "$unsigned") "(" expr ")"
#[cycle(expr)]
#[tactic(auto, unfolding(crate::specs::Reading::primary))]
fn primary(alloc: Global, tokens: &mut Cursor<'_>, depth: u32) -> Result<Primary, Stop>
    ensures { Reads (spec.primary (inside depth) tokens.old) result tokens.new }
{
    match front_of(tokens.class()) {
        Front::Number => Ok(Primary::Number(number(alloc, tokens)?)),
        Front::Text => Ok(Primary::Text(text(alloc, tokens)?)),
        Front::Null => null(tokens),
        Front::Name => named(alloc, tokens, depth),
        Front::Wrapped(wrap) => wrapped(alloc, tokens, depth, wrap),
        Front::Braces => braces(alloc, tokens, depth),
        Front::Other => Err(tokens.refuse()),
    }
}

/// What begins with a name.
// id select* | id "(" (expr,+)? ")"
#[cycle(expr)]
#[tactic(auto, unfolding(crate::specs::Reading::named))]
fn named(alloc: Global, tokens: &mut Cursor<'_>, depth: u32) -> Result<Primary, Stop>
    ensures { Reads (spec.named (inside depth) tokens.old) result tokens.new }
{
    let name = name(alloc, tokens)?;
    behind_name(alloc, tokens, depth, name)
}

#[cycle(expr)]
#[tactic(auto, unfolding(crate::specs::Reading::behind_name))]
fn behind_name(
    alloc: Global,
    tokens: &mut Cursor<'_>,
    depth: u32,
    name: Name,
) -> Result<Primary, Stop>
    ensures { Reads (spec.behind_name (inside depth) name tokens.old) result tokens.new }
{
    if tokens.sees(Class::OpenParen) {
        let inner = enter(tokens, depth)?;
        let (token, actuals) = actuals_inside(alloc, tokens, inner)?;
        return Ok(Primary::Call(Call {
            name,
            token,
            actuals,
        }));
    }
    let selects = selects(alloc, tokens, depth)?;
    Ok(Primary::Place(Lvalue { name, selects }))
}

/// The actuals of a call, with the number of the `(` (13.5).
// "(" (expr,+)? ")"
#[cycle(expr)]
#[tactic(auto, unfolding(crate::specs::Reading::actuals_by))]
pub(crate) fn actuals_inside(
    alloc: Global,
    tokens: &mut Cursor<'_>,
    depth: u32,
) -> Result<(u32, Items<Expr>), Stop>
    ensures { Reads (spec.actuals_by (spec.expr depth) tokens.old) result tokens.new }
{
    let token = tokens.place();
    tokens.expect(Class::OpenParen)?;
    let actuals = listed(alloc, tokens, depth)?;
    tokens.expect(Class::CloseParen)?;
    Ok((token, actuals))
}

// (expr,+)?
#[cycle(expr)]
fn listed(alloc: Global, tokens: &mut Cursor<'_>, depth: u32) -> Result<Items<Expr>, Stop>
    ensures { Reads (spec.listed_by (spec.expr depth) tokens.old) result tokens.new }
{
    if !begins_expr(tokens.class()) {
        return Ok(Items::new(alloc));
    }
    exprs(alloc, tokens, depth)
}

/// Expressions with commas between them, at least one.
// expr,+
#[cycle(expr)]
pub fn exprs(alloc: Global, tokens: &mut Cursor<'_>, depth: u32) -> Result<Items<Expr>, Stop>
    ensures { Reads (spec.exprs depth tokens.old) result tokens.new }
{
    let mut found = Items::new(alloc);
    found.push(expr(alloc, tokens, depth)?)?;
    more_exprs(alloc, tokens, depth, found)
}

/// Expressions, each behind a comma, behind those found so far.
// ("," expr)*
#[cycle(expr)]
pub fn more_exprs(
    alloc: Global,
    tokens: &mut Cursor<'_>,
    depth: u32,
    mut found: Items<Expr>,
) -> Result<Items<Expr>, Stop>
    ensures { Reads (spec.more_exprs depth found tokens.old) result tokens.new }
{
    for _turn in 0..tokens.left() {
        if !tokens.sees(Class::Comma) {
            return Ok(found);
        }
        found.push(next_expr(alloc, tokens, depth)?)?;
    }
    Ok(found)
}

#[cycle(expr)]
fn next_expr(alloc: Global, tokens: &mut Cursor<'_>, depth: u32) -> Result<Expr, Stop>
    ensures { Reads (spec.next_expr (spec.expr depth) tokens.old) result tokens.new }
{
    tokens.expect(Class::Comma)?;
    expr(alloc, tokens, depth)
}

/// The selects behind a name.
// select*
#[cycle(expr)]
pub fn selects(alloc: Global, tokens: &mut Cursor<'_>, depth: u32) -> Result<Items<Select>, Stop>
    ensures { Reads (spec.selects depth tokens.old) result tokens.new }
{
    let mut found = Items::new(alloc);
    for _turn in 0..tokens.left() {
        if !tokens.sees(Class::OpenBracket) {
            return Ok(found);
        }
        found.push(select(alloc, tokens, depth)?)?;
    }
    Ok(found)
}

/// A select (11.5.1).
// select = "[" expr "]" | "[" bound ":" bound "]" | "[" expr ("+:" | "-:") number "]"
#[cycle(expr)]
#[tactic(auto, unfolding(crate::specs::Reading::select_by))]
fn select(alloc: Global, tokens: &mut Cursor<'_>, depth: u32) -> Result<Select, Stop>
    ensures { Reads (level (inside depth) spec.select_by tokens.old) result tokens.new }
{
    let inner = enter(tokens, depth)?;
    let token = tokens.place();
    tokens.expect(Class::OpenBracket)?;
    let first = expr(alloc, tokens, inner)?;
    select_tail(alloc, tokens, token, first)
}

/// An expression in parentheses (11.7, A.8.4).
// "(" expr ")" | ("$signed" | "$unsigned") "(" expr ")"
#[cycle(expr)]
#[tactic(auto, unfolding(crate::specs::Reading::wrap_by))]
fn wrapped(alloc: Global, tokens: &mut Cursor<'_>, depth: u32, wrap: Wrap) -> Result<Primary, Stop>
    ensures { Reads (level (inside depth) (λ e. spec.wrap_by e wrap) tokens.old) result tokens.new }
{
    let inner = enter(tokens, depth)?;
    let token = tokens.place();
    opening(tokens, wrap)?;
    let first = expr(alloc, tokens, inner)?;
    closing(alloc, tokens, wrap, token, first)
}

/// A concatenation or a repetition (11.4.12).
// "{" expr,+ "}" | "{" number "{" expr,+ "}" "}"
#[cycle(expr)]
#[tactic(auto, unfolding(crate::specs::Reading::braces_by))]
fn braces(alloc: Global, tokens: &mut Cursor<'_>, depth: u32) -> Result<Primary, Stop>
    ensures { Reads (level (inside depth) spec.braces_by tokens.old) result tokens.new }
{
    let inner = enter(tokens, depth)?;
    let token = tokens.place();
    tokens.expect(Class::OpenBrace)?;
    let first = expr(alloc, tokens, inner)?;
    braces_tail(alloc, tokens, inner, token, first)
}

/// The rest of a concatenation or a repetition, behind its first expression.
#[cycle(expr)]
#[tactic(auto, unfolding(crate::specs::Reading::braces_tail))]
fn braces_tail(
    alloc: Global,
    tokens: &mut Cursor<'_>,
    depth: u32,
    token: u32,
    first: Expr,
) -> Result<Primary, Stop>
    ensures { Reads (spec.braces_tail (spec.expr depth) token first tokens.old) result tokens.new }
{
    if tokens.sees(Class::OpenBrace) {
        return repetition(alloc, tokens, depth, token, first);
    }
    concatenation(alloc, tokens, depth, token, first)
}

/// The rest of a concatenation (11.4.12).
// ("," expr)* "}"
#[cycle(expr)]
#[tactic(auto, unfolding(crate::specs::Reading::concatenation_tail))]
fn concatenation(
    alloc: Global,
    tokens: &mut Cursor<'_>,
    depth: u32,
    token: u32,
    first: Expr,
) -> Result<Primary, Stop>
    ensures { Reads (spec.concatenation_tail (spec.expr depth) token first tokens.old) result tokens.new }
{
    let mut found = Items::new(alloc);
    found.push(first)?;
    let parts = more_exprs(alloc, tokens, depth, found)?;
    tokens.expect(Class::CloseBrace)?;
    Ok(Primary::Concatenation(token, parts))
}

/// The rest of a repetition, where what was read is a number (11.4.12.1).
// "{" expr,+ "}" "}"
#[cycle(expr)]
#[tactic(auto, unfolding(crate::specs::Reading::repetition_tail))]
fn repetition(
    alloc: Global,
    tokens: &mut Cursor<'_>,
    depth: u32,
    token: u32,
    first: Expr,
) -> Result<Primary, Stop>
    ensures { Reads (spec.repetition_tail (spec.expr depth) token first tokens.old) result tokens.new }
{
    let Some(count) = number_of(first) else {
        return Err(tokens.refuse());
    };
    tokens.expect(Class::OpenBrace)?;
    let parts = exprs(alloc, tokens, depth)?;
    tokens.expect(Class::CloseBrace)?;
    tokens.expect(Class::CloseBrace)?;
    Ok(Primary::Repetition(token, count, parts))
}
