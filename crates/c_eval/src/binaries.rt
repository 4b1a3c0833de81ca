//! Binary operators.
ghost use Rattle.std.specs.Prelude.{◌≡◌};
ghost use Rattle.c_eval.specs.Binary.{added, subtracted, compared, on_scalars, binary_of};

use crate::arithmetic::negative;
use crate::numbers::on_numbers;
use crate::operator::CBinOp;
use crate::pointers::{distance, moved, ordered};
use crate::trap::OpTrap;
use crate::value::{CValue, bits_in, is_set, same, truth};
use crate::whole::value_of;
use c_memory::{CCell, Memory};
use dpi_ports::Ledger;

/// A pointer plus a number, in either order.
fn added<L: Ledger>(memory: &Memory<L>, a: &CValue, b: &CValue) -> Result<CValue, OpTrap>
    ensures { result ≡ added memory.now a.now b.now }
{
    match (a.cell, b.cell) {
        (CCell::Pointer(p), _) => moved(memory, a.of, p, value_of(b.of.base, bits_in(b.cell))),
        (_, CCell::Pointer(p)) => moved(memory, b.of, p, value_of(a.of.base, bits_in(a.cell))),
        _ => Ok(truth(false)),
    }
}

/// A pointer minus a number or a pointer.
fn subtracted<L: Ledger>(memory: &Memory<L>, a: &CValue, b: &CValue) -> Result<CValue, OpTrap>
    ensures { result ≡ subtracted memory.now a.now b.now }
{
    match (a.cell, b.cell) {
        (CCell::Pointer(p), CCell::Pointer(q)) => distance(memory, p, q),
        (CCell::Pointer(p), _) => moved(
            memory,
            a.of,
            p,
            negative(value_of(b.of.base, bits_in(b.cell))),
        ),
        _ => Ok(truth(false)),
    }
}

/// An ordering of two pointers.
fn compared<L: Ledger>(memory: &Memory<L>, op: CBinOp, a: CCell, b: CCell) -> Result<CValue, OpTrap>
    ensures { result ≡ compared memory.now op a b }
{
    match (a, b) {
        (CCell::Pointer(p), CCell::Pointer(q)) => ordered(memory, op, p, q),
        _ => Ok(truth(false)),
    }
}

/// An operator on two values that aren't both numbers.
fn on_scalars<L: Ledger>(
    memory: &Memory<L>,
    op: CBinOp,
    a: &CValue,
    b: &CValue,
) -> Result<CValue, OpTrap>
    ensures { result ≡ on_scalars memory.now op a.now b.now }
{
    match op {
        CBinOp::Add => added(memory, a, b),
        CBinOp::Sub => subtracted(memory, a, b),
        CBinOp::Equal => Ok(truth(same(a.cell, b.cell))),
        CBinOp::NotEqual => Ok(truth(!same(a.cell, b.cell))),
        CBinOp::And => Ok(truth(is_set(a.cell) && is_set(b.cell))),
        CBinOp::Or => Ok(truth(is_set(a.cell) || is_set(b.cell))),
        _ => compared(memory, op, a.cell, b.cell),
    }
}

/// A binary operator on two values.
///
/// On numbers it works over unbounded whole numbers at the type that promotion and the usual
/// arithmetic conversions give; an unsigned result is taken modulo 2 to the width (ISO C 6.3.1.8,
/// 6.2.5). `SignedOverflow` comes exactly where a signed type doesn't have the result, or the
/// quotient of `%`, or a negative number is shifted left; `DivideByZero` exactly at `/` and `%` by
/// 0; `ShiftRange` exactly where the count is negative or not less than the width, and before
/// `SignedOverflow` (ISO C 6.5.5 to 6.5.7). A comparison and `&&` and `||` give an `int`.
///
/// A pointer moves by the number's mathematical value; `Memory` has the trap of the move, the
/// ordering or the difference. Equality never traps, and 0 equals null (ISO C 6.5.6 to 6.5.9).
/// The types are ones that the operator takes: what it doesn't take gives 0.
pub fn binary<L: Ledger>(
    memory: &Memory<L>,
    op: CBinOp,
    a: &CValue,
    b: &CValue,
) -> Result<CValue, OpTrap>
    ensures { result ≡ binary_of memory.now op a.now b.now }
{
    match (a.cell, b.cell) {
        (CCell::Number(m), CCell::Number(n)) => on_numbers(op, a.of.base, m, b.of.base, n),
        _ => on_scalars(memory, op, a, b),
    }
}
