//! Expressions that are a number, or a `-` and a number.

ghost use Rattle.std.specs.Prelude.{◌≡◌};
ghost use Rattle.sv_expr.specs.Bounds as spec;

use sqlite_items::Items;
use sv_tree::{Bound, Chain, Expr, Number, Operand, Prefix, Primary, UnaryOperator};

/// Whether a `-` stands there, where nothing else does.
fn sign_of(prefixes: Items<Prefix>) -> Option<bool>
    ensures { result ≡ spec.sign_of prefixes }
{
    match prefixes.as_slice() {
        [] => Some(false),
        [prefix] if prefix.operator == UnaryOperator::Minus => Some(true),
        _ => None,
    }
}

/// The number that the operand is, without its prefixes.
fn number_in(primary: Primary) -> Option<Number>
    ensures { result ≡ spec.number_in primary }
{
    match primary {
        Primary::Number(number) => Some(number),
        _ => None,
    }
}

/// The bound that the operand is.
fn operand_bound(token: u32, operand: Operand) -> Option<Bound>
    ensures { result ≡ spec.operand_bound token operand }
{
    let Operand {
        token: _,
        prefixes,
        primary,
    } = operand;
    let negative = sign_of(prefixes)?;
    let number = number_in(primary)?;
    Some(Bound {
        token,
        negative,
        number,
    })
}

/// The bound that the chain is.
fn chain_bound(token: u32, chain: Chain) -> Option<Bound>
    ensures { result ≡ spec.chain_bound token chain }
{
    if !chain.rest.is_empty() {
        return None;
    }
    operand_bound(token, chain.first)
}

/// The bound that the expression is: a number, or a `-` and a number.
pub fn bound_of(e: Expr) -> Option<Bound>
    ensures { result ≡ spec.bound_of e }
{
    if e.choice.is_some() {
        return None;
    }
    chain_bound(e.token, e.chain)
}

/// The number that the expression is.
pub fn number_of(e: Expr) -> Option<Number>
    ensures { result ≡ spec.number_of e }
{
    let bound = bound_of(e)?;
    if bound.negative {
        return None;
    }
    Some(bound.number)
}
