//! Expressions that are one number.
ghost use Rattle.std.specs.Prelude.{◌≡◌, option_map};
ghost use Rattle.c_library.specs.Reserved.{word_count as words_of};
ghost use Rattle.c_facts.specs.Widths as spec;

use c_library::word_count;
use c_tree::{CExpr, Chain, Cond, Operand, Primary};
use dpi_literal::CConstant;

fn primary_words(primary: &Primary) -> Option<CConstant>
    ensures { result ≡ option_map words_of (spec.primary_number primary.now) }
{
    match primary {
        Primary::Number(number) => Some(word_count(number.bytes.as_slice())),
        _ => None,
    }
}

fn operand_words(operand: &Operand) -> Option<CConstant>
    ensures { result ≡ option_map words_of (spec.operand_number operand.now) }
{
    if !operand.prefixes.is_empty() {
        return None;
    }
    if !operand.suffixes.is_empty() {
        return None;
    }
    primary_words(&operand.primary)
}

fn chain_words(chain: &Chain) -> Option<CConstant>
    ensures { result ≡ option_map words_of (spec.chain_number chain.now) }
{
    if !chain.rest.is_empty() {
        return None;
    }
    operand_words(&chain.first)
}

fn cond_words(cond: &Cond) -> Option<CConstant>
    ensures { result ≡ option_map words_of (spec.cond_number cond.now) }
{
    if cond.choice.is_some() {
        return None;
    }
    chain_words(&cond.chain)
}

fn words(e: &CExpr) -> Option<CConstant>
    ensures { result ≡ option_map words_of (spec.number_in e.now) }
{
    if !e.rest.is_empty() {
        return None;
    }
    cond_words(&e.first)
}

/// The words of a vector of so many bits as the one argument says, which is a number token.
pub(crate) fn words_by(es: &[CExpr]) -> Option<CConstant>
    ensures { result ≡ option_map words_of (spec.one_number es.now) }
{
    match es {
        [e] => words(e),
        _ => None,
    }
}
