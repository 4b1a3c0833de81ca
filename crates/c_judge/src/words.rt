//! Expressions that are one token.
ghost use Rattle.std.specs.Prelude.{◌≡◌};
ghost use Rattle.c_judge.specs.Words as spec;

use c_tree::{CExpr, Chain, Cond, Operand, Primary};

fn primary_is_number(primary: &Primary) -> bool
    ensures { result ≡ spec.is_number (spec.primary_word primary.now) }
{
    matches!(primary, Primary::Number(_))
}

fn operand_is_number(operand: &Operand) -> bool
    ensures { result ≡ spec.is_number (spec.operand_word operand.now) }
{
    if !operand.prefixes.is_empty() {
        return false;
    }
    if !operand.suffixes.is_empty() {
        return false;
    }
    primary_is_number(&operand.primary)
}

fn chain_is_number(chain: &Chain) -> bool
    ensures { result ≡ spec.is_number (spec.chain_word chain.now) }
{
    if !chain.rest.is_empty() {
        return false;
    }
    operand_is_number(&chain.first)
}

fn cond_is_number(cond: &Cond) -> bool
    ensures { result ≡ spec.is_number (spec.cond_word cond.now) }
{
    if cond.choice.is_some() {
        return false;
    }
    chain_is_number(&cond.chain)
}

/// Whether an expression is one number token, which isn't in parentheses.
pub fn is_number(expr: &CExpr) -> bool
    ensures { result ≡ spec.is_number (spec.word_of expr.now) }
{
    if !expr.rest.is_empty() {
        return false;
    }
    cond_is_number(&expr.first)
}

/// Whether arguments are one number token.
pub(crate) fn are_one_number(exprs: &[CExpr]) -> bool
    ensures { result ≡ spec.are_one_number exprs.now }
{
    match exprs {
        [expr] => is_number(expr),
        _ => false,
    }
}
