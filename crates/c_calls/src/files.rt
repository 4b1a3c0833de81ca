//! Refused calls in a file (ISO C 6.9).
ghost use Rattle.std.specs.Prelude.{◌≡◌, map};
ghost use Rattle.dpi_rules.specs.Least.{noted};
ghost use Rattle.c_calls.specs.Refusals.{rules_of};
ghost use Rattle.c_calls.specs.Expressions.{all_of};
ghost use Rattle.c_calls.specs.Files as spec;

use crate::refusals::Refusals;
use crate::statements::note_block;
use crate::variables::note_variables;
use c_tree::{Body, CFile, External};
use dpi_rules::Violation;

fn note_body(file: u32, refusals: &Refusals<'_>, body: &Body, found: &mut Option<Violation>)
    ensures { found.new ≡ noted found.old (spec.in_body file (rules_of refusals.now) body.now) }
{
    if let Body::Block(block) = body {
        note_block(file, refusals, block, found);
    }
}

fn note_external(
    file: u32,
    refusals: &Refusals<'_>,
    external: &External,
    found: &mut Option<Violation>,
)
    ensures { found.new ≡ noted found.old (spec.in_external file (rules_of refusals.now) external.now) }
{
    match external {
        External::Define(_) => {}
        External::Function(function) => note_body(file, refusals, &function.body, found),
        External::Variables(variables) => note_variables(file, refusals, variables, found),
    }
}

fn note_externals(
    file: u32,
    refusals: &Refusals<'_>,
    externals: &[External],
    found: &mut Option<Violation>,
)
    ensures { found.new ≡ noted found.old (all_of (map (spec.in_external file (rules_of refusals.now)) externals.now)) }
{
    for external in externals {
        note_external(file, refusals, external, found);
    }
}

/// Notes the calls of the file of this number that break a rule by the table, each at the called name
/// (ISO C 6.5.2.2).
pub fn note_calls(file: u32, refusals: &Refusals<'_>, tree: &CFile, found: &mut Option<Violation>)
    ensures { found.new ≡ noted found.old (spec.in_file file (rules_of refusals.now) tree.now) }
{
    note_externals(file, refusals, tree.externals.as_slice(), found);
}
