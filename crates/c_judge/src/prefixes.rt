//! Prefixes of an operand (ISO C 6.5.3 and 6.5.4).
ghost use Rattle.std.specs.Prelude.{◌≡◌};
ghost use Rattle.dpi_rules.specs.Least.{noted};
ghost use Rattle.c_judge.specs.Calls.{env_of};
ghost use Rattle.c_judge.specs.Judge as spec;

use crate::around::{Around, at};
use c_base::CType;
use c_tree::{CType as TypeTree, Prefix, Star};
use c_typing::{Operand, cast, declared_of, note_stars, unary};
use dpi_rules::Violation;

/// The type that a cast writes, the const of a pointer itself aside. None where it has more than
/// two stars (ISO C 6.7.7).
pub fn declared_type(tree: &TypeTree, stars: &[Star]) -> Option<CType>
    ensures { result ≡ spec.declared_type tree.now stars.now }
{
    Some(declared_of(tree, stars)?.of)
}

/// What a prefix makes of its operand.
fn prefixed(
    around: &Around<'_, '_>,
    prefix: &Prefix,
    operand: Option<Operand>,
    found: &mut Option<Violation>,
) -> Option<Operand>
    ensures value { result ≡ (spec.prefixed (env_of around.now) prefix.now operand).value }
    ensures found { found.new ≡ noted found.old (spec.prefixed (env_of around.now) prefix.now operand).found }
{
    match prefix {
        Prefix::Sign(token, operator) => unary(at(around, *token), *operator, operand, found),
        Prefix::Cast(token, tree, stars) => {
            note_stars(at(around, tree.token), stars.as_slice(), false, found);
            let to = declared_type(tree, stars.as_slice());
            cast(at(around, *token), to, operand, found)
        }
    }
}

/// What prefixes make of their operand, of which the last applies first. Each breaks what `unary`
/// or `cast` says; a cast to a type of more than two stars rule 22 at the first token of the type.
/// None where a rule is broken or the operand has no type (ISO C 6.5.3 and 6.5.4).
pub fn all_prefixed(
    around: &Around<'_, '_>,
    prefixes: &[Prefix],
    operand: Option<Operand>,
    found: &mut Option<Violation>,
) -> Option<Operand>
    ensures value { result ≡ (spec.prefixes_judged (env_of around.now) prefixes.now (spec.clean operand)).value }
    ensures found { found.new ≡ noted found.old (spec.prefixes_judged (env_of around.now) prefixes.now (spec.clean operand)).found }
{
    let mut operand = operand;
    let mut left = prefixes.len();
    while left > 0 {
        left -= 1;
        operand = prefixed(around, &prefixes[left], operand, found);
    }
    operand
}
