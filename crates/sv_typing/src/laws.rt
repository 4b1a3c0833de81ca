//! What the definitions mean: a call that does nothing, whose contract is a law.
ghost use Rattle.sv_typing.specs.Chains.{ChainsAreKept};

/// A chain may be computed over the least violations of its operands alone: it comes to the least of
/// all that the chain violates, and to the same type.
pub fn chains_are_kept()
    ensures { ChainsAreKept }
{}
