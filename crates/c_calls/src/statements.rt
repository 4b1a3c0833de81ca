//! Refused calls in statements (ISO C 6.8).
ghost use Rattle.std.specs.Prelude.{◌≡◌, map, option_map};
ghost use Rattle.dpi_rules.specs.Least.{noted};
ghost use Rattle.c_calls.specs.Refusals.{rules_of};
ghost use Rattle.c_calls.specs.Expressions.{all_of, where_there};
ghost use Rattle.c_calls.specs.Statements as spec;

use crate::expressions::{note_expr, note_optional};
use crate::refusals::Refusals;
use crate::variables::note_variables;
use c_tree::{Block, CExpr, Else, ElseIf, If, Part, Start, Stmt};
use dpi_rules::Violation;
use sqlite_items::Boxed;

fn note_start(file: u32, refusals: &Refusals<'_>, start: &Start, found: &mut Option<Violation>)
    ensures { found.new ≡ noted found.old (spec.in_start file (rules_of refusals.now) start.now) }
{
    match start {
        Start::Variables(variables) => note_variables(file, refusals, variables, found),
        Start::Expr(expr) => note_optional(file, refusals, expr, found),
    }
}

/// Notes what the calls in the head of a `for` break.
fn note_head(
    file: u32,
    refusals: &Refusals<'_>,
    start: &Start,
    condition: &Option<CExpr>,
    change: &Option<CExpr>,
    found: &mut Option<Violation>,
)
    ensures { found.new ≡ noted found.old (spec.in_head file (rules_of refusals.now) start.now condition.now change.now) }
{
    note_start(file, refusals, start, found);
    note_optional(file, refusals, condition, found);
    note_optional(file, refusals, change, found);
}

/// Notes what the calls in a statement break.
#[cycle(statements)]
fn note_stmt(file: u32, refusals: &Refusals<'_>, stmt: &Stmt, found: &mut Option<Violation>)
    ensures { found.new ≡ noted found.old (spec.in_stmt file (rules_of refusals.now) stmt.now) }
{
    match stmt {
        Stmt::Empty(_) | Stmt::Break(_) | Stmt::Continue(_) => {}
        Stmt::Block(block) => note_block(file, refusals, block, found),
        Stmt::Expr(expr) => note_expr(file, refusals, expr, found),
        Stmt::If(branches) => note_if(file, refusals, branches.get(), found),
        Stmt::While(_, condition, body) | Stmt::Do(_, body, _, condition) => {
            note_guarded(file, refusals, body.get(), condition, found)
        }
        Stmt::For(_, start, condition, change, body) => {
            note_for(file, refusals, start, condition, change, body.get(), found)
        }
        Stmt::Return(_, value) => note_optional(file, refusals, value, found),
    }
}

#[cycle(statements)]
fn note_guarded(
    file: u32,
    refusals: &Refusals<'_>,
    body: &Stmt,
    condition: &CExpr,
    found: &mut Option<Violation>,
)
    ensures { found.new ≡ noted found.old (spec.guarded file (rules_of refusals.now) condition.now (spec.in_stmt file (rules_of refusals.now) body.now)) }
{
    note_expr(file, refusals, condition, found);
    note_stmt(file, refusals, body, found);
}

#[cycle(statements)]
fn note_for(
    file: u32,
    refusals: &Refusals<'_>,
    start: &Start,
    condition: &Option<CExpr>,
    change: &Option<CExpr>,
    body: &Stmt,
    found: &mut Option<Violation>,
)
    ensures { found.new ≡ noted found.old (spec.in_for file (rules_of refusals.now) start.now condition.now change.now (spec.in_stmt file (rules_of refusals.now) body.now)) }
{
    note_head(file, refusals, start, condition, change, found);
    note_stmt(file, refusals, body, found);
}

/// Notes what the calls in a block break.
#[cycle(statements)]
pub(crate) fn note_block(
    file: u32,
    refusals: &Refusals<'_>,
    block: &Block,
    found: &mut Option<Violation>,
)
    ensures { found.new ≡ noted found.old (spec.in_block file (rules_of refusals.now) block.now) }
{
    note_parts(file, refusals, block.parts.as_slice(), found);
}

#[cycle(statements)]
fn note_parts(file: u32, refusals: &Refusals<'_>, parts: &[Part], found: &mut Option<Violation>)
    ensures { found.new ≡ noted found.old (all_of (map (spec.in_part file (rules_of refusals.now)) parts.now)) }
{
    for part in parts {
        note_part(file, refusals, part, found);
    }
}

#[cycle(statements)]
fn note_part(file: u32, refusals: &Refusals<'_>, part: &Part, found: &mut Option<Violation>)
    ensures { found.new ≡ noted found.old (spec.in_part file (rules_of refusals.now) part.now) }
{
    match part {
        Part::Variables(variables) => note_variables(file, refusals, variables, found),
        Part::Stmt(stmt) => note_stmt(file, refusals, stmt, found),
    }
}

#[cycle(statements)]
fn note_if(file: u32, refusals: &Refusals<'_>, branches: &If, found: &mut Option<Violation>)
    ensures { found.new ≡ noted found.old (spec.in_if file (rules_of refusals.now) branches.now) }
{
    note_guarded(file, refusals, &branches.body, &branches.condition, found);
    note_others(file, refusals, branches.others.as_slice(), found);
    note_last(file, refusals, &branches.last, found);
}

#[cycle(statements)]
fn note_others(file: u32, refusals: &Refusals<'_>, others: &[ElseIf], found: &mut Option<Violation>)
    ensures { found.new ≡ noted found.old (all_of (map (spec.in_else_if file (rules_of refusals.now)) others.now)) }
{
    for other in others {
        note_else_if(file, refusals, other, found);
    }
}

#[cycle(statements)]
fn note_else_if(file: u32, refusals: &Refusals<'_>, other: &ElseIf, found: &mut Option<Violation>)
    ensures { found.new ≡ noted found.old (spec.in_else_if file (rules_of refusals.now) other.now) }
{
    note_guarded(file, refusals, &other.body, &other.condition, found);
}

#[cycle(statements)]
fn note_last(
    file: u32,
    refusals: &Refusals<'_>,
    last: &Option<Boxed<Else>>,
    found: &mut Option<Violation>,
)
    ensures { found.new ≡ noted found.old (where_there (option_map (spec.in_else file (rules_of refusals.now)) last.now)) }
{
    if let Some(last) = last {
        note_else(file, refusals, last.get(), found);
    }
}

#[cycle(statements)]
fn note_else(file: u32, refusals: &Refusals<'_>, last: &Else, found: &mut Option<Violation>)
    ensures { found.new ≡ noted found.old (spec.in_else file (rules_of refusals.now) last.now) }
{
    note_stmt(file, refusals, &last.body, found);
}
