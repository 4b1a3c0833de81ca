//! Prefix operators (IEEE 1800-2017, 11.4.3 and 11.4.7 to 11.4.9).
ghost use Rattle.std.specs.Prelude.{◌≡◌};
ghost use Rattle.dpi_rules.specs.Least.{noted};
ghost use Rattle.sv_typing.specs.Prefixes as spec;

use crate::judged::{kind_broken, sized, width_broken};
use crate::types::{ExprType, Operand};
use dpi_rules::{Violation, note};
use sv_tree::UnaryOperator;

/// What prefixes have in common.
#[derive(Clone, Copy, Debug, PartialEq, Eq)]
pub(crate) enum Sort {
    /// `+` and `-`.
    Arithmetic,
    /// `~`.
    Bitwise,
    /// `!`.
    Condition,
    /// All bits to one.
    Reduction,
}

fn sort_of(operator: UnaryOperator) -> Sort
    ensures { result ≡ spec.sort_of operator }
{
    match operator {
        UnaryOperator::Plus | UnaryOperator::Minus => Sort::Arithmetic,
        UnaryOperator::Not => Sort::Condition,
        UnaryOperator::Tilde => Sort::Bitwise,
        UnaryOperator::And
        | UnaryOperator::TildeAnd
        | UnaryOperator::Or
        | UnaryOperator::TildeOr
        | UnaryOperator::Xor
        | UnaryOperator::TildeXor
        | UnaryOperator::XorTilde => Sort::Reduction,
    }
}

/// One unsigned bit.
pub(crate) fn one_bit(four: bool) -> Option<Operand>
    ensures { result ≡ (spec.one_bit four).value }
{
    Some(Operand {
        of: ExprType::Bits {
            width: 1,
            signed: false,
            four,
        },
        reach: None,
    })
}

/// The arithmetic that a context reaches, with that of an operator of its own.
pub(crate) fn with_own(file: u32, token: u32, reach: Option<Violation>) -> Option<Violation>
    ensures { result ≡ spec.with_own file token reach }
{
    let mut least = reach;
    note(&mut least, width_broken(file, token));
    least
}

/// What a prefix makes of packed bits.
fn prefix_bits(
    file: u32,
    token: u32,
    sort: Sort,
    operand: Operand,
    found: &mut Option<Violation>,
) -> Option<Operand>
    ensures value { result ≡ (spec.prefix_bits file token sort operand.of operand.reach).value }
    ensures found { found.new ≡ noted found.old (spec.prefix_bits file token sort operand.of operand.reach).found }
{
    match sort {
        Sort::Arithmetic => {
            let own = with_own(file, token, operand.reach);
            sized(operand.of.width(), own, operand.of, own, found)
        }
        Sort::Bitwise => Some(operand),
        Sort::Condition | Sort::Reduction => one_bit(operand.of.is_four()),
    }
}

fn is_taken(sort: Sort, of: ExprType) -> bool
    ensures { result ≡ spec.is_taken sort of }
{
    match sort {
        Sort::Condition => of.is_condition(),
        Sort::Arithmetic | Sort::Bitwise | Sort::Reduction => of.is_packed(),
    }
}

/// What one prefix makes of its operand; of several, the one next to the operand comes first.
/// `+`, `-` and `~` keep width and sign, `!` and the reductions give one unsigned bit, whose operand
/// stands alone. Noted at the prefix: rule 15 where `!` is before what is neither packed nor a
/// chandle, or another one before what isn't packed, and rule 16 where `+` or `-` works past 64 bits.
/// None where the operand has no type or a rule is broken.
pub fn prefixed(
    file: u32,
    token: u32,
    operator: UnaryOperator,
    operand: Option<Operand>,
    found: &mut Option<Violation>,
) -> Option<Operand>
    ensures value { result ≡ (spec.prefixed file token operator operand).value }
    ensures found { found.new ≡ noted found.old (spec.prefixed file token operator operand).found }
{
    let operand = operand?;
    let sort = sort_of(operator);
    if is_taken(sort, operand.of) {
        prefix_bits(file, token, sort, operand, found)
    } else {
        note(found, kind_broken(file, token));
        None
    }
}
