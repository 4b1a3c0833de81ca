//! What the definitions mean: a call that does nothing, whose contract is a law.
ghost use Rattle.sv_shapes.specs.Kinds.{KindsAreClean};

/// A declaration has a kind exactly where it violates nothing.
pub fn kinds_are_clean()
    ensures { KindsAreClean }
{}
