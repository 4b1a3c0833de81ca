//! Refused calls in expressions (ISO C 6.5).
ghost use Rattle.std.specs.Prelude.{◌≡◌, map, option_map};
ghost use Rattle.dpi_rules.specs.Least.{noted};
ghost use Rattle.c_calls.specs.Refusals.{rules_of};
ghost use Rattle.c_calls.specs.Expressions as spec;

use crate::refusals::Refusals;
use c_tree::{Assignment, CExpr, Chain, Choice, Cond, Name, Operand, Primary, Suffix, Term};
use dpi_rules::{Violation, note};
use sqlite_items::Boxed;

/// Notes the rule at the token, where there is one.
fn note_rule(file: u32, token: u32, rule: Option<u8>, found: &mut Option<Violation>)
    ensures { found.new ≡ noted found.old (spec.called file token rule) }
{
    if let Some(rule) = rule {
        note(found, Violation { file, token, rule });
    }
}

/// Notes what a call of the name breaks, at the name.
fn note_called(file: u32, refusals: &Refusals<'_>, name: &Name, found: &mut Option<Violation>)
    ensures { found.new ≡ noted found.old (spec.called file name.now.token (rules_of refusals.now name.now.bytes)) }
{
    note_rule(file, name.token, refusals.get(name.bytes.as_slice()), found);
}

/// Notes what the calls in an expression break.
#[cycle(expressions)]
pub(crate) fn note_expr(
    file: u32,
    refusals: &Refusals<'_>,
    expr: &CExpr,
    found: &mut Option<Violation>,
)
    ensures { found.new ≡ noted found.old (spec.in_expr file (rules_of refusals.now) expr.now) }
{
    note_cond(file, refusals, &expr.first, found);
    note_assignments(file, refusals, expr.rest.as_slice(), found);
}

#[cycle(expressions)]
fn note_assignments(
    file: u32,
    refusals: &Refusals<'_>,
    rest: &[Assignment],
    found: &mut Option<Violation>,
)
    ensures { found.new ≡ noted found.old (spec.all_of (map (spec.in_assignment file (rules_of refusals.now)) rest.now)) }
{
    for assignment in rest {
        note_assignment(file, refusals, assignment, found);
    }
}

#[cycle(expressions)]
fn note_assignment(
    file: u32,
    refusals: &Refusals<'_>,
    assignment: &Assignment,
    found: &mut Option<Violation>,
)
    ensures { found.new ≡ noted found.old (spec.in_assignment file (rules_of refusals.now) assignment.now) }
{
    note_cond(file, refusals, &assignment.value, found);
}

#[cycle(expressions)]
fn note_cond(file: u32, refusals: &Refusals<'_>, cond: &Cond, found: &mut Option<Violation>)
    ensures { found.new ≡ noted found.old (spec.in_cond file (rules_of refusals.now) cond.now) }
{
    note_chain(file, refusals, &cond.chain, found);
    note_behind(file, refusals, &cond.choice, found);
}

/// Notes what the calls from the `?` on break, if there is one.
#[cycle(expressions)]
fn note_behind(
    file: u32,
    refusals: &Refusals<'_>,
    choice: &Option<Boxed<Choice>>,
    found: &mut Option<Violation>,
)
    ensures { found.new ≡ noted found.old (spec.where_there (option_map (spec.in_choice file (rules_of refusals.now)) choice.now)) }
{
    if let Some(choice) = choice {
        note_choice(file, refusals, choice.get(), found);
    }
}

#[cycle(expressions)]
fn note_choice(file: u32, refusals: &Refusals<'_>, choice: &Choice, found: &mut Option<Violation>)
    ensures { found.new ≡ noted found.old (spec.in_choice file (rules_of refusals.now) choice.now) }
{
    note_expr(file, refusals, &choice.yes, found);
    note_cond(file, refusals, &choice.no, found);
}

#[cycle(expressions)]
fn note_chain(file: u32, refusals: &Refusals<'_>, chain: &Chain, found: &mut Option<Violation>)
    ensures { found.new ≡ noted found.old (spec.in_chain file (rules_of refusals.now) chain.now) }
{
    note_operand(file, refusals, &chain.first, found);
    note_terms(file, refusals, chain.rest.as_slice(), found);
}

#[cycle(expressions)]
fn note_terms(file: u32, refusals: &Refusals<'_>, terms: &[Term], found: &mut Option<Violation>)
    ensures { found.new ≡ noted found.old (spec.all_of (map (spec.in_term file (rules_of refusals.now)) terms.now)) }
{
    for term in terms {
        note_term(file, refusals, term, found);
    }
}

#[cycle(expressions)]
fn note_term(file: u32, refusals: &Refusals<'_>, term: &Term, found: &mut Option<Violation>)
    ensures { found.new ≡ noted found.old (spec.in_term file (rules_of refusals.now) term.now) }
{
    note_operand(file, refusals, &term.operand, found);
}

#[cycle(expressions)]
fn note_operand(
    file: u32,
    refusals: &Refusals<'_>,
    operand: &Operand,
    found: &mut Option<Violation>,
)
    ensures { found.new ≡ noted found.old (spec.in_operand file (rules_of refusals.now) operand.now) }
{
    note_primary(file, refusals, &operand.primary, found);
    note_suffixes(file, refusals, operand.suffixes.as_slice(), found);
}

#[cycle(expressions)]
fn note_suffixes(
    file: u32,
    refusals: &Refusals<'_>,
    suffixes: &[Suffix],
    found: &mut Option<Violation>,
)
    ensures { found.new ≡ noted found.old (spec.all_of (map (spec.in_suffix file (rules_of refusals.now)) suffixes.now)) }
{
    for suffix in suffixes {
        note_suffix(file, refusals, suffix, found);
    }
}

#[cycle(expressions)]
fn note_suffix(file: u32, refusals: &Refusals<'_>, suffix: &Suffix, found: &mut Option<Violation>)
    ensures { found.new ≡ noted found.old (spec.in_suffix file (rules_of refusals.now) suffix.now) }
{
    if let Suffix::Index(_, expr) = suffix {
        note_expr(file, refusals, expr.get(), found);
    }
}

#[cycle(expressions)]
fn note_primary(
    file: u32,
    refusals: &Refusals<'_>,
    primary: &Primary,
    found: &mut Option<Violation>,
)
    ensures { found.new ≡ noted found.old (spec.in_primary file (rules_of refusals.now) primary.now) }
{
    match primary {
        Primary::Name(_)
        | Primary::Number(_)
        | Primary::Character(_)
        | Primary::Text(_)
        | Primary::Null(_) => {}
        Primary::Call(name, _, arguments) => {
            note_call(file, refusals, name, arguments.as_slice(), found)
        }
        Primary::Group(_, expr) => note_expr(file, refusals, expr.get(), found),
    }
}

#[cycle(expressions)]
fn note_call(
    file: u32,
    refusals: &Refusals<'_>,
    name: &Name,
    arguments: &[CExpr],
    found: &mut Option<Violation>,
)
    ensures { found.new ≡ noted found.old (spec.call_violations file (rules_of refusals.now) name.now arguments.now) }
{
    note_called(file, refusals, name, found);
    note_exprs(file, refusals, arguments, found);
}

/// Notes what the calls in several expressions break.
#[cycle(expressions)]
pub(crate) fn note_exprs(
    file: u32,
    refusals: &Refusals<'_>,
    exprs: &[CExpr],
    found: &mut Option<Violation>,
)
    ensures { found.new ≡ noted found.old (spec.all_of (map (spec.in_expr file (rules_of refusals.now)) exprs.now)) }
{
    for expr in exprs {
        note_expr(file, refusals, expr, found);
    }
}

/// Notes what the calls in an expression break, if there is one.
pub(crate) fn note_optional(
    file: u32,
    refusals: &Refusals<'_>,
    expr: &Option<CExpr>,
    found: &mut Option<Violation>,
)
    ensures { found.new ≡ noted found.old (spec.in_optional file (rules_of refusals.now) expr.now) }
{
    if let Some(expr) = expr {
        note_expr(file, refusals, expr, found);
    }
}
