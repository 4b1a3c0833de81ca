//! Operators as parts of a chain (ISO C 6.5).
ghost use Rattle.std.specs.Prelude.{◌≡◌};
ghost use Rattle.c_typing.specs.Binary as spec;

use crate::binaries::{binary, rank};
use crate::operand::Operand;
use crate::place::Place;
use c_tree::BinaryOperator;
use dpi_chain::Operator;
use dpi_ports::NoMemory;
use dpi_rules::{Violation, join};
use std::alloc::Global;

/// A part of a chain: the least of what it breaks, and its type where it breaks nothing.
#[derive(Clone, Copy, Debug, Drop, PartialEq, Eq)]
pub struct Typed {
    /// The least violation in the part.
    pub found: Option<Violation>,
    /// What the part is.
    pub value: Option<Operand>,
}

/// An operator of a chain at its place.
#[derive(Clone, Copy, Debug, Drop, PartialEq, Eq)]
pub struct Sign {
    /// The place of the operator.
    pub place: Place,
    /// The operator.
    pub operator: BinaryOperator,
}

/// Two parts with an operator between.
fn binary_typed(sign: Sign, left: Typed, right: Typed) -> Typed
    ensures { result ≡ spec.binary_typed sign left right }
{
    let mut own = None;
    let value = binary(sign.place, sign.operator, left.value, right.value, &mut own);
    let mut found = left.found;
    join(&mut found, right.found);
    join(&mut found, own);
    Typed { found, value }
}

impl Operator for Sign {
    type Value = Typed;

    ghost rank_of = { λ s. spec.rank s.operator };

    ghost joined = { spec.binary_typed };

    fn rank(self) -> u32 {
        rank(self.operator)
    }

    fn join(self, _alloc: Global, left: Typed, right: Typed) -> Result<Typed, NoMemory> {
        Ok(binary_typed(self, left, right))
    }
}

/// What is kept of two operands with an operator between, the least of what they break and their
/// type, comes from what is kept of each.
pub fn typed_joins()
    ensures { spec.TypedJoins }
{}
