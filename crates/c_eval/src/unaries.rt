//! Unary operators.
ghost use Rattle.std.specs.Prelude.{◌≡◌, ◌<◌};
ghost use Rattle.c_eval.specs.Whole.{size};
ghost use Rattle.c_eval.specs.Operators.{inverted};
ghost use Rattle.c_eval.specs.Unary.{on_promoted, unary_of};

use crate::operator::CUnOp;
use crate::trap::OpTrap;
use crate::value::{CValue, bits_at, bits_in, is_set, truth, typed};
use crate::whole::{fitted, size, value_of};
use c_base::CBase;
use c_memory::Memory;
use dpi_ports::Ledger;

/// All bits of a number inverted (ISO C 6.5.3.3).
fn inverted(of: CBase, bits: u64) -> u64
    requires { bits < size of }
    ensures { result ≡ inverted of bits }
{
    (size(of) - 1 - i128::from(bits)) as u64
}

/// `+`, `-` or `~` of a number of a promoted type by its bits (ISO C 6.5.3.3).
fn on_promoted(op: CUnOp, of: CBase, bits: u64) -> Result<u64, OpTrap>
    requires { bits < size of }
    ensures { result ≡ on_promoted op of bits }
{
    match op {
        CUnOp::Minus => fitted(of, -value_of(of, bits)),
        CUnOp::Complement => Ok(inverted(of, bits)),
        _ => Ok(bits),
    }
}

/// A unary operator: on a number `+`, `-` and `~` work at its promoted type; `!` takes numbers and
/// pointers and gives an `int`. `SignedOverflow` comes exactly where `-` meets the least number of
/// a signed type (ISO C 6.5.3.3). The memory isn't looked at.
pub fn unary<L: Ledger>(memory: &Memory<L>, op: CUnOp, a: &CValue) -> Result<CValue, OpTrap>
    ensures { result ≡ unary_of op a.now }
{
    let _ = memory;
    if op == CUnOp::Not {
        return Ok(truth(!is_set(a.cell)));
    }
    let of = a.of.base.promoted();
    typed(
        of,
        on_promoted(op, of, bits_at(a.of.base, of, bits_in(a.cell))),
    )
}
