//! Refused calls in initialisers (ISO C 6.7.9).
ghost use Rattle.std.specs.Prelude.{◌≡◌, map};
ghost use Rattle.dpi_rules.specs.Least.{noted};
ghost use Rattle.c_calls.specs.Refusals.{rules_of};
ghost use Rattle.c_calls.specs.Expressions.{all_of};
ghost use Rattle.c_calls.specs.Statements as spec;

use crate::expressions::{note_expr, note_exprs};
use crate::refusals::Refusals;
use c_tree::{Declarator, Init, Initializer, Variables};
use dpi_rules::Violation;

fn note_init(file: u32, refusals: &Refusals<'_>, init: &Init, found: &mut Option<Violation>)
    ensures { found.new ≡ noted found.old (spec.in_init file (rules_of refusals.now) init.now) }
{
    match init {
        Init::Value(expr) => note_expr(file, refusals, expr, found),
        Init::List(_, exprs) => note_exprs(file, refusals, exprs.as_slice(), found),
    }
}

fn note_initializer(
    file: u32,
    refusals: &Refusals<'_>,
    initializer: &Option<Initializer>,
    found: &mut Option<Violation>,
)
    ensures { found.new ≡ noted found.old (spec.in_initializer file (rules_of refusals.now) initializer.now) }
{
    if let Some(initializer) = initializer {
        note_init(file, refusals, &initializer.value, found);
    }
}

fn note_declarator(
    file: u32,
    refusals: &Refusals<'_>,
    declarator: &Declarator,
    found: &mut Option<Violation>,
)
    ensures { found.new ≡ noted found.old (spec.in_declarator file (rules_of refusals.now) declarator.now) }
{
    note_initializer(file, refusals, &declarator.initializer, found);
}

fn note_declarators(
    file: u32,
    refusals: &Refusals<'_>,
    declarators: &[Declarator],
    found: &mut Option<Violation>,
)
    ensures { found.new ≡ noted found.old (all_of (map (spec.in_declarator file (rules_of refusals.now)) declarators.now)) }
{
    for declarator in declarators {
        note_declarator(file, refusals, declarator, found);
    }
}

/// Notes what the calls in the initialisers of a declaration break.
pub(crate) fn note_variables(
    file: u32,
    refusals: &Refusals<'_>,
    variables: &Variables,
    found: &mut Option<Violation>,
)
    ensures { found.new ≡ noted found.old (spec.in_variables file (rules_of refusals.now) variables.now) }
{
    note_declarators(file, refusals, variables.declarators.as_slice(), found);
}
