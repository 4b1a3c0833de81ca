//! What a chain means.

ghost use Rattle.dpi_chain.specs.Splits.{ChainsSplit};

use crate::operator::Operator;

/// A chain's tree is its split at the rightmost of the operators that bind least: none on the left
/// binds less, each on the right binds more, and both sides are the trees of their chains.
pub fn chains_split<O: Operator>()
    ensures { ChainsSplit O O.Value O.rank_of }
{}
