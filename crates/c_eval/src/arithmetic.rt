//! Arithmetic on two numbers of one type.
ghost use Rattle.std.specs.Prelude.{◌≡◌, ◌≢◌, ◌+ℤ◌, ◌-ℤ◌, ◌*ℤ◌, pos, neg_ℤ, int_div, int_rem};
ghost use Rattle.c_eval.specs.Whole.{bits_of, fitted, IsOperand, IsSmall};
ghost use Rattle.c_eval.specs.Operators.{quotient, left_by, remainder};

use crate::trap::OpTrap;
use crate::whole::{bits_of, fitted, overflows, size};
use c_base::CBase;

/// The sum, which 128 bits hold.
fn plus(x: i128, y: i128) -> i128
    requires left { IsSmall x }
    requires right { IsSmall y }
    ensures { result ≡ x +ℤ y }
{
    x + y
}

/// The difference, which 128 bits hold.
fn minus(x: i128, y: i128) -> i128
    requires left { IsSmall x }
    requires right { IsSmall y }
    ensures { result ≡ x -ℤ y }
{
    x - y
}

/// The negative, which 128 bits hold.
pub(crate) fn negative(x: i128) -> i128
    requires { IsSmall x }
    ensures value { result ≡ neg_ℤ x }
    ensures small { IsSmall result }
{
    -x
}

/// `x + y` (ISO C 6.5.6).
pub(crate) fn sum(of: CBase, x: i128, y: i128) -> Result<u64, OpTrap>
    requires left { IsOperand of x }
    requires right { IsOperand of y }
    ensures { result ≡ fitted of (x +ℤ y) }
{
    fitted(of, plus(x, y))
}

/// `x - y` (ISO C 6.5.6).
pub(crate) fn difference(of: CBase, x: i128, y: i128) -> Result<u64, OpTrap>
    requires left { IsOperand of x }
    requires right { IsOperand of y }
    ensures { result ≡ fitted of (x -ℤ y) }
{
    fitted(of, minus(x, y))
}

/// The bits of the product of two numbers that aren't negative.
fn wrapped_product(of: CBase, x: u64, y: u64) -> u64
    ensures { result ≡ bits_of of (pos x *ℤ pos y) }
{
    (u128::from(x) * u128::from(y) % (size(of) as u128)) as u64
}

/// `x * y` (ISO C 6.5.5).
pub(crate) fn product(of: CBase, x: i128, y: i128) -> Result<u64, OpTrap>
    requires left { IsOperand of x }
    requires right { IsOperand of y }
    ensures { result ≡ fitted of (x *ℤ y) }
{
    if !of.is_signed() {
        return Ok(wrapped_product(of, x as u64, y as u64));
    }
    match x.checked_mul(y) {
        Some(n) => fitted(of, n),
        None => Err(OpTrap::SignedOverflow),
    }
}

/// The quotient, rounded toward zero.
fn divided(x: i128, y: i128) -> i128
    requires small { IsSmall x }
    requires divisor { y ≢ pos 0 }
    ensures { result ≡ int_div x y }
{
    x / y
}

/// What the quotient leaves, with the sign of `x`.
fn left_over(x: i128, y: i128) -> i128
    requires small { IsSmall x }
    requires divisor { y ≢ pos 0 }
    ensures { result ≡ int_rem x y }
{
    x % y
}

/// `x / y` (ISO C 6.5.5).
pub(crate) fn quotient(of: CBase, x: i128, y: i128) -> Result<u64, OpTrap>
    requires { IsOperand of x }
    ensures { result ≡ quotient of x y }
{
    if y == 0 {
        return Err(OpTrap::DivideByZero);
    }
    fitted(of, divided(x, y))
}

/// `x % y` of a number that isn't 0.
fn left_by(of: CBase, x: i128, y: i128) -> Result<u64, OpTrap>
    requires small { IsSmall x }
    requires divisor { y ≢ pos 0 }
    ensures { result ≡ left_by of x y }
{
    if overflows(of, divided(x, y)) {
        return Err(OpTrap::SignedOverflow);
    }
    Ok(bits_of(of, left_over(x, y)))
}

/// `x % y` (ISO C 6.5.5).
pub(crate) fn remainder(of: CBase, x: i128, y: i128) -> Result<u64, OpTrap>
    requires { IsOperand of x }
    ensures { result ≡ remainder of x y }
{
    if y == 0 {
        return Err(OpTrap::DivideByZero);
    }
    left_by(of, x, y)
}
