//! Prefixes of an operand.
ghost use Rattle.std.specs.Prelude.{◌≡◌, []};
ghost use Rattle.dpi_rules.specs.Least.{noted};
ghost use Rattle.sv_judge.specs.Judge as spec;

use crate::forms::{Whole, other};
use dpi_rules::Violation;
use sv_tree::Prefix;
use sv_typing::{Operand, prefixed};

/// What prefixes make of their operand, of which the last applies first.
pub fn all_prefixed(
    file: u32,
    prefixes: &[Prefix],
    operand: Option<Operand>,
    found: &mut Option<Violation>,
) -> Option<Operand>
    ensures value { result ≡ (spec.prefixes_judged file prefixes.now (record { found = []; value = operand })).value }
    ensures found { found.new ≡ noted found.old (spec.prefixes_judged file prefixes.now (record { found = []; value = operand })).found }
{
    let mut operand = operand;
    let mut left = prefixes.len();
    while left > 0 {
        left -= 1;
        let prefix = &prefixes[left];
        operand = prefixed(file, prefix.token, prefix.operator, operand, found);
    }
    operand
}

/// An operand with its prefixes; without any it keeps its form.
pub fn with_prefixes(
    file: u32,
    prefixes: &[Prefix],
    whole: Whole,
    found: &mut Option<Violation>,
) -> Whole
    ensures whole { result ≡ (spec.with_prefixes file prefixes.now (spec.so_far whole)).whole }
    ensures found { found.new ≡ noted found.old (spec.with_prefixes file prefixes.now (spec.so_far whole)).found }
{
    if prefixes.is_empty() {
        return whole;
    }
    other(all_prefixed(file, prefixes, whole.value, found))
}
