//! Operators.

ghost use Rattle.std.specs.Prelude.{◌≡◌, ℕ, IfOk};

use dpi_ports::NoMemory;
use std::alloc::Global;

/// A binary operator at its place in a text.
pub trait Operator: Copy {
    /// What an operand is, and what an operator makes of two of them.
    type Value;

    /// How strongly it binds.
    ghost rank_of: { Self → ℕ };

    /// What it makes of the operands on its left and on its right.
    ghost joined: { Self → Self.Value → Self.Value → Self.Value };

    /// How strongly it binds: a number that is greater where it binds more.
    fn rank(self) -> u32
        ensures { result ≡ rank_of self };

    /// What it makes of two operands, unless memory runs out.
    fn join(
        self,
        alloc: Global,
        left: Self::Value,
        right: Self::Value,
    ) -> Result<Self::Value, NoMemory>
        ensures { IfOk result (λ value. value ≡ joined self left right) };
}
