//! Whole numbers, and the bits that stand for them.
ghost use Rattle.std.specs.Prelude.{◌≡◌, ◌<◌, pos};
ghost use Rattle.c_eval.specs.Whole.{size, half, value_of, bits_of, is_within, overflows};
ghost use Rattle.c_eval.specs.Whole.{fitted, IsOperand};

use crate::trap::OpTrap;
use c_base::CBase;

/// How many numbers a whole type has.
pub(crate) fn size(of: CBase) -> i128
    ensures { result ≡ pos (size of) }
{
    match of.width() {
        8 => 0x100,
        16 => 0x1_0000,
        32 => 0x1_0000_0000,
        64 => 0x1_0000_0000_0000_0000,
        _ => 1,
    }
}

/// The first number past those of a signed type.
fn half(of: CBase) -> i128
    ensures { result ≡ pos (half of) }
{
    match of.width() {
        8 => 0x80,
        16 => 0x8000,
        32 => 0x8000_0000,
        64 => 0x8000_0000_0000_0000,
        _ => 1,
    }
}

/// The whole number that the bits stand for.
pub(crate) fn value_of(of: CBase, bits: u64) -> i128
    ensures value { result ≡ value_of of bits }
    ensures operand { IsOperand of result }
{
    let n = i128::from(bits);
    if of.is_signed() && half(of) <= n {
        n - size(of)
    } else {
        n
    }
}

/// The bits that stand for the whole number: the number modulo 2 to the width.
pub(crate) fn bits_of(of: CBase, n: i128) -> u64
    ensures value { result ≡ bits_of of n }
    ensures fits { result < size of }
{
    n.rem_euclid(size(of)) as u64
}

/// Whether a signed type has the number.
fn is_within(of: CBase, n: i128) -> bool
    ensures { result ≡ is_within of n }
{
    -half(of) <= n && n < half(of)
}

/// Whether the number is past a signed type.
pub(crate) fn overflows(of: CBase, n: i128) -> bool
    ensures { result ≡ overflows of n }
{
    of.is_signed() && !is_within(of, n)
}

/// A mathematical result at a type: an overflow where a signed type doesn't have it, and modulo 2
/// to the width at an unsigned one (ISO C 6.2.5, 6.5).
pub(crate) fn fitted(of: CBase, n: i128) -> Result<u64, OpTrap>
    ensures { result ≡ fitted of n }
{
    if overflows(of, n) {
        return Err(OpTrap::SignedOverflow);
    }
    Ok(bits_of(of, n))
}
