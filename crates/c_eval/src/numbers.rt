//! Binary operators on two numbers.
ghost use Rattle.std.specs.Prelude.{◌≡◌};
ghost use Rattle.c_eval.specs.Numbers.{on_numbers, arithmetic, shifted};

use crate::arithmetic::{difference, product, quotient, remainder, sum};
use crate::operator::CBinOp;
use crate::shift::{shifted_left, shifted_right};
use crate::trap::OpTrap;
use crate::value::{CValue, bits_at, truth, typed};
use crate::whole::value_of;
use c_base::CBase;

/// An operator that works at the common type, on two numbers of it by their bits.
fn arithmetic(op: CBinOp, of: CBase, a: u64, b: u64) -> Result<u64, OpTrap>
    ensures { result ≡ arithmetic op of a b }
{
    let x = value_of(of, a);
    let y = value_of(of, b);
    match op {
        CBinOp::Mul => product(of, x, y),
        CBinOp::Div => quotient(of, x, y),
        CBinOp::Rem => remainder(of, x, y),
        CBinOp::Add => sum(of, x, y),
        CBinOp::Sub => difference(of, x, y),
        CBinOp::BitAnd => Ok(a & b),
        CBinOp::BitXor => Ok(a ^ b),
        CBinOp::BitOr => Ok(a | b),
        _ => Ok(u64::from(op.accepts(x.cmp(&y)))),
    }
}

/// A shift of a number of a promoted type by its bits.
fn shifted(op: CBinOp, of: CBase, a: u64, count: i128) -> Result<u64, OpTrap>
    ensures { result ≡ shifted op of a count }
{
    let x = value_of(of, a);
    match op {
        CBinOp::Shl => shifted_left(of, x, count),
        _ => shifted_right(of, x, count),
    }
}

/// A binary operator on two numbers by their types and bits.
pub(crate) fn on_numbers(op: CBinOp, s: CBase, a: u64, t: CBase, b: u64) -> Result<CValue, OpTrap>
    ensures { result ≡ on_numbers op s a t b }
{
    let of = s.common(t);
    match op {
        CBinOp::Shl | CBinOp::Shr => {
            let whole = s.promoted();
            typed(
                whole,
                shifted(op, whole, bits_at(s, whole, a), value_of(t, b)),
            )
        }
        CBinOp::And => Ok(truth(a != 0 && b != 0)),
        CBinOp::Or => Ok(truth(a != 0 || b != 0)),
        _ => {
            let kind = if op.is_comparison() { CBase::Int } else { of };
            typed(
                kind,
                arithmetic(op, of, bits_at(s, of, a), bits_at(t, of, b)),
            )
        }
    }
}
