//! Arithmetic and order of pointers.
ghost use Rattle.std.specs.Prelude.{◌≡◌};
ghost use Rattle.c_eval.specs.Whole.{IsSmall};
ghost use Rattle.c_eval.specs.Pointers.{far, moved, distance, ordered};

use crate::operator::CBinOp;
use crate::trap::OpTrap;
use crate::value::{CValue, number, truth};
use crate::whole::bits_of;
use c_base::{CBase, CType};
use c_memory::{CCell, MemTrap, Memory, Pointer};
use dpi_ports::Ledger;

/// The pointer `n` cells on, where `n` can be past 64 bits and is then outside every object.
fn far<L: Ledger>(memory: &Memory<L>, p: Pointer, n: i128) -> Result<Pointer, MemTrap>
    requires { IsSmall n }
    ensures { result ≡ far memory.now p n }
{
    let near = n.clamp(i128::from(i64::MIN), i128::from(i64::MAX));
    memory.move_by(p, near as i64)
}

/// The pointer `n` cells on, at its type (ISO C 6.5.6).
pub(crate) fn moved<L: Ledger>(
    memory: &Memory<L>,
    of: CType,
    p: Pointer,
    n: i128,
) -> Result<CValue, OpTrap>
    requires { IsSmall n }
    ensures { result ≡ moved memory.now of p n }
{
    match far(memory, p, n) {
        Ok(q) => Ok(CValue {
            of,
            cell: CCell::Pointer(q),
        }),
        Err(trap) => Err(OpTrap::Memory(trap)),
    }
}

/// `p - q` in cells, a `long long` (ISO C 6.5.6).
pub(crate) fn distance<L: Ledger>(
    memory: &Memory<L>,
    p: Pointer,
    q: Pointer,
) -> Result<CValue, OpTrap>
    ensures { result ≡ distance memory.now p q }
{
    match memory.difference(p, q) {
        Ok(n) => Ok(number(CBase::LongLong, bits_of(CBase::LongLong, i128::from(n)))),
        Err(trap) => Err(OpTrap::Memory(trap)),
    }
}

/// A comparison of two pointers into one object (ISO C 6.5.8).
pub(crate) fn ordered<L: Ledger>(
    memory: &Memory<L>,
    op: CBinOp,
    p: Pointer,
    q: Pointer,
) -> Result<CValue, OpTrap>
    ensures { result ≡ ordered memory.now op p q }
{
    match memory.compare(p, q) {
        Ok(order) => Ok(truth(op.accepts(order))),
        Err(trap) => Err(OpTrap::Memory(trap)),
    }
}
