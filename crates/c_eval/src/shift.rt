//! Shifts.
ghost use Rattle.std.specs.Prelude.{◌≡◌};
ghost use Rattle.c_eval.specs.Whole.{IsOperand};
ghost use Rattle.c_eval.specs.Operators.{is_past, shifted_left, shifted_right};

use crate::arithmetic::product;
use crate::trap::OpTrap;
use crate::whole::bits_of;
use c_base::CBase;

/// Whether the count is negative, or not less than the width.
fn is_past(of: CBase, count: i128) -> bool
    ensures { result ≡ is_past of count }
{
    count < 0 || i128::from(of.width()) <= count
}

/// `x << count` (ISO C 6.5.7).
pub(crate) fn shifted_left(of: CBase, x: i128, count: i128) -> Result<u64, OpTrap>
    requires { IsOperand of x }
    ensures { result ≡ shifted_left of x count }
{
    if is_past(of, count) {
        return Err(OpTrap::ShiftRange);
    }
    if x < 0 {
        return Err(OpTrap::SignedOverflow);
    }
    product(of, x, i128::from(2u64.pow(count as u32)))
}

/// `x >> count` (ISO C 6.5.7).
pub(crate) fn shifted_right(of: CBase, x: i128, count: i128) -> Result<u64, OpTrap>
    ensures { result ≡ shifted_right of x count }
{
    if is_past(of, count) {
        return Err(OpTrap::ShiftRange);
    }
    Ok(bits_of(of, x >> count as u32))
}
