//! Chains that are read from the left.

ghost use Rattle.std.specs.Prelude.{◌≡◌, ℕ, IfOk};
ghost use Rattle.dpi_chain.specs.Tree.{Tree, leaf, with_link, value_of};
ghost use Rattle.dpi_chain.specs.Reading.{StandsFor, Reads};

use crate::operator::Operator;
use dpi_ports::NoMemory;
use std::alloc::Global;

/// An operator whose right operand may still grow, and its left one.
#[derive(Drop)]
pub(crate) struct Open<O, V> {
    pub(crate) operator: O,
    pub(crate) left: V,
}

/// A chain up to one of its operands.
#[derive(Drop)]
pub struct Chain<O, V> {
    pub(crate) pending: Vec<Open<O, V>>,
    pub(crate) value: V,
}

/// Completes the operators that bind at least so strongly; the value stands behind the last one.
fn close<O: Operator>(
    alloc: Global,
    pending: &mut Vec<Open<O, O::Value>>,
    floor: u32,
    value: O::Value,
) -> Result<O::Value, NoMemory>
where
    O::Value: Drop,
    O: Drop,
    ensures { (high : ℕ) (t : Tree O O.Value) → StandsFor O.rank_of O.joined 0 high floor pending.old.items value t → IfOk result (λ v. StandsFor O.rank_of O.joined 0 floor floor pending.new.items v t) }
{
    let Some(last) = pending.last() else {
        return Ok(value);
    };
    if last.operator.rank() < floor {
        return Ok(value);
    }
    let Some(Open { operator, left }) = pending.pop() else {
        return Ok(value);
    };
    let value = operator.join(alloc, left, value)?;
    close(alloc, pending, floor, value)
}

impl<O: Operator + Drop> Chain<O, O::Value>
where
    O::Value: Drop,
{
    /// A chain of one operand.
    pub fn new(alloc: Global, first: O::Value) -> Self
        ensures { Reads O.rank_of O.joined result (leaf first) }
    {
        Chain {
            pending: Vec::new(alloc),
            value: first,
        }
    }

    /// The chain with an operator and an operand behind it, unless memory runs out. The work over a
    /// whole chain is linear in its length.
    pub fn with(self, alloc: Global, operator: O, operand: O::Value) -> Result<Self, NoMemory>
        ensures { (t : Tree O O.Value) → Reads O.rank_of O.joined self t → IfOk result (λ chain. Reads O.rank_of O.joined chain (with_link O.rank_of t operator operand)) }
    {
        let Chain { mut pending, value } = self;
        let left = close(alloc, &mut pending, operator.rank(), value)?;
        pending.push(Open { operator, left })?;
        Ok(Chain {
            pending,
            value: operand,
        })
    }

    /// The value of the whole chain, unless memory runs out.
    pub fn value(self, alloc: Global) -> Result<O::Value, NoMemory>
        ensures { (t : Tree O O.Value) → Reads O.rank_of O.joined self t → IfOk result (λ value. value ≡ value_of O.joined t) }
    {
        let Chain { mut pending, value } = self;
        close(alloc, &mut pending, 0, value)
    }
}
