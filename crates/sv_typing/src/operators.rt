//! Binary operators (IEEE 1800-2017, 11.3 and 11.4, Table 11-21).
ghost use Rattle.std.specs.Prelude.{◌≡◌, ◌&&◌, Some};
ghost use Rattle.dpi_rules.specs.Order as order;
ghost use Rattle.dpi_rules.specs.Least.{noted};
ghost use Rattle.sv_typing.specs.Operators as spec;
ghost use Rattle.sv_typing.specs.Judged.{operand};
ghost use Rattle.sv_typing.specs.Types.{is_packed, is_signed_bits, width_of};
ghost use Rattle.sv_typing.specs.declared.types.ExprType.TheVariants as types;

use crate::judged::{kind_broken, sized};
use crate::prefixes::{one_bit, with_own};
use crate::types::{ExprType, Operand};
use dpi_chain::Operator;
use dpi_ports::NoMemory;
use dpi_rules::{Violation, join, note};
use std::alloc::Global;
use sv_tree::BinaryOperator;

/// What binary operators have in common.
#[derive(Clone, Copy, Debug, PartialEq, Eq)]
pub(crate) enum Family {
    /// `*`, `+` and `-`.
    Arithmetic,
    /// `/` and `%`, which can give x.
    Division,
    /// `&`, `|` and the exclusive ones.
    Bitwise,
    /// The shifts.
    Shift,
    /// `<`, `<=`, `>` and `>=`.
    Ordering,
    /// `==` and `!=`.
    Equality,
    /// `===` and `!==`.
    CaseEquality,
    /// `&&` and `||`.
    Logical,
}

/// What is kept of a part of a chain.
#[derive(Clone, Copy, Debug, PartialEq, Eq, Drop)]
pub struct Part {
    /// The least violation that it holds.
    pub found: Option<Violation>,
    /// What it is, where it holds none.
    pub value: Option<Operand>,
}

/// A binary operator at its token of a file.
#[derive(Clone, Copy, Debug, PartialEq, Eq, Drop)]
pub struct Binary {
    /// The number of the file, from 0.
    pub file: u32,
    /// The number of the operator's token, from 0.
    pub token: u32,
    /// The operator.
    pub operator: BinaryOperator,
}

fn family_of(operator: BinaryOperator) -> Family
    ensures { result ≡ spec.family_of operator }
{
    match operator {
        BinaryOperator::Star | BinaryOperator::Plus | BinaryOperator::Minus => Family::Arithmetic,
        BinaryOperator::Slash | BinaryOperator::Percent => Family::Division,
        BinaryOperator::ShiftLeft
        | BinaryOperator::ShiftRight
        | BinaryOperator::ArithmeticShiftLeft
        | BinaryOperator::ArithmeticShiftRight => Family::Shift,
        BinaryOperator::Less
        | BinaryOperator::LessOrEqual
        | BinaryOperator::Greater
        | BinaryOperator::GreaterOrEqual => Family::Ordering,
        BinaryOperator::Equal | BinaryOperator::NotEqual => Family::Equality,
        BinaryOperator::CaseEqual | BinaryOperator::CaseNotEqual => Family::CaseEquality,
        BinaryOperator::And
        | BinaryOperator::Xor
        | BinaryOperator::TildeXor
        | BinaryOperator::XorTilde
        | BinaryOperator::Or => Family::Bitwise,
        BinaryOperator::AndAnd | BinaryOperator::OrOr => Family::Logical,
    }
}

/// How strongly the operator binds, from 1 for `||` to 10 for `*` (11.3.2).
pub fn rank_of(operator: BinaryOperator) -> u32
    ensures { result ≡ spec.rank_of operator }
{
    match operator {
        BinaryOperator::Star | BinaryOperator::Slash | BinaryOperator::Percent => 10,
        BinaryOperator::Plus | BinaryOperator::Minus => 9,
        BinaryOperator::ShiftLeft
        | BinaryOperator::ShiftRight
        | BinaryOperator::ArithmeticShiftLeft
        | BinaryOperator::ArithmeticShiftRight => 8,
        BinaryOperator::Less
        | BinaryOperator::LessOrEqual
        | BinaryOperator::Greater
        | BinaryOperator::GreaterOrEqual => 7,
        BinaryOperator::Equal
        | BinaryOperator::NotEqual
        | BinaryOperator::CaseEqual
        | BinaryOperator::CaseNotEqual => 6,
        BinaryOperator::And => 5,
        BinaryOperator::Xor | BinaryOperator::TildeXor | BinaryOperator::XorTilde => 4,
        BinaryOperator::Or => 3,
        BinaryOperator::AndAnd => 2,
        BinaryOperator::OrOr => 1,
    }
}

/// The type of two operands that size each other.
fn common(a: ExprType, b: ExprType, four: bool) -> ExprType
    ensures { result ≡ spec.common a b four }
{
    ExprType::Bits {
        width: a.width().max(b.width()),
        signed: a.is_signed() && b.is_signed(),
        four,
    }
}

pub(crate) fn either_four(a: ExprType, b: ExprType) -> bool
    ensures { result ≡ spec.either_four a b }
{
    a.is_four() || b.is_four()
}

/// What is reached in the one or in the other.
pub(crate) fn both_reached(a: Option<Violation>, b: Option<Violation>) -> Option<Violation>
    ensures { result ≡ order.joined a b }
{
    let mut least = a;
    join(&mut least, b);
    least
}

/// One unsigned bit, from operands that are widened to the wider one.
fn compared(
    a: ExprType,
    b: ExprType,
    reach: Option<Violation>,
    four: bool,
    found: &mut Option<Violation>,
) -> Option<Operand>
    ensures value { result ≡ (spec.compared a b reach four).value }
    ensures found { found.new ≡ noted found.old (spec.compared a b reach four).found }
{
    let bit = ExprType::Bits {
        width: 1,
        signed: false,
        four,
    };
    sized(a.width().max(b.width()), reach, bit, None, found)
}

/// A value as wide as the wider operand, whose context reaches both.
pub(crate) fn combined(
    a: ExprType,
    b: ExprType,
    reach: Option<Violation>,
    four: bool,
    found: &mut Option<Violation>,
) -> Option<Operand>
    ensures value { result ≡ (spec.combined a b reach four).value }
    ensures found { found.new ≡ noted found.old (spec.combined a b reach four).found }
{
    sized(
        a.width().max(b.width()),
        reach,
        common(a, b, four),
        reach,
        found,
    )
}

/// A shifted value, which has the type of the left operand.
fn shifted(a: Operand, four: bool) -> Option<Operand>
    ensures { result ≡ Some (operand (types.Bits (width_of a.of) (is_signed_bits a.of) four) a.reach) }
{
    Some(Operand {
        of: ExprType::Bits {
            width: a.of.width(),
            signed: a.of.is_signed(),
            four,
        },
        reach: a.reach,
    })
}

/// What an operator makes of two packed operands.
fn of_bits(
    binary: Binary,
    family: Family,
    a: Operand,
    b: Operand,
    found: &mut Option<Violation>,
) -> Option<Operand>
    ensures value { result ≡ (spec.of_bits binary.file binary.token family a.of b.of a.reach b.reach).value }
    ensures found { found.new ≡ noted found.old (spec.of_bits binary.file binary.token family a.of b.of a.reach b.reach).found }
{
    let reach = both_reached(a.reach, b.reach);
    let own = with_own(binary.file, binary.token, reach);
    let four = either_four(a.of, b.of);
    match family {
        Family::Arithmetic => combined(a.of, b.of, own, four, found),
        Family::Division => combined(a.of, b.of, own, true, found),
        Family::Bitwise => combined(a.of, b.of, reach, four, found),
        Family::Shift => shifted(a, four),
        Family::Ordering => compared(a.of, b.of, own, four, found),
        Family::Equality => compared(a.of, b.of, reach, four, found),
        Family::CaseEquality => compared(a.of, b.of, reach, false, found),
        Family::Logical => one_bit(four),
    }
}

fn are_packed(a: ExprType, b: ExprType) -> bool
    ensures { result ≡ (is_packed a && is_packed b) }
{
    a.is_packed() && b.is_packed()
}

fn are_equals(a: ExprType, b: ExprType) -> bool
    ensures { result ≡ spec.are_taken Family.Equality a b }
{
    are_packed(a, b) || a.is_text() && b.is_text() || a.is_chandle() && b.is_chandle()
}

fn are_taken(family: Family, a: ExprType, b: ExprType) -> bool
    ensures { result ≡ spec.are_taken family a b }
{
    match family {
        Family::Equality => are_equals(a, b),
        Family::Logical => a.is_condition() && b.is_condition(),
        Family::Arithmetic
        | Family::Division
        | Family::Bitwise
        | Family::Shift
        | Family::Ordering
        | Family::CaseEquality => are_packed(a, b),
    }
}

/// What an operator makes of its operands. Arithmetic and bitwise operators are as wide as the wider
/// operand and signed where both are, shifts have the type of the left one, the others give one
/// unsigned bit. Operands that size each other are each other's context. Noted at the operator: rule
/// 15 where it doesn't take the kinds, and rule 16 where arithmetic or an ordering works past 64
/// bits; rule 16 too at the first operator inside that such a width reaches. None where an operand
/// has no type or a rule is broken.
pub fn operated(
    binary: Binary,
    left: Option<Operand>,
    right: Option<Operand>,
    found: &mut Option<Violation>,
) -> Option<Operand>
    ensures value { result ≡ (spec.operated binary.file binary.token binary.operator left right).value }
    ensures found { found.new ≡ noted found.old (spec.operated binary.file binary.token binary.operator left right).found }
{
    let left = left?;
    let right = right?;
    let family = family_of(binary.operator);
    if are_taken(family, left.of, right.of) {
        of_bits(binary, family, left, right, found)
    } else {
        note(found, kind_broken(binary.file, binary.token));
        None
    }
}

/// What is kept of an operator between two parts.
fn part_between(operator: Binary, left: Part, right: Part) -> Part
    ensures { result ≡ spec.part_between operator left right }
{
    let mut found = both_reached(left.found, right.found);
    let value = operated(operator, left.value, right.value, &mut found);
    Part { found, value }
}

impl Operator for Binary {
    type Value = Part;

    ghost rank_of = { λ o. spec.rank_of o.operator };

    ghost joined = { spec.part_between };

    fn rank(self) -> u32 {
        rank_of(self.operator)
    }

    fn join(self, _alloc: Global, left: Part, right: Part) -> Result<Part, NoMemory> {
        Ok(part_between(self, left, right))
    }
}
