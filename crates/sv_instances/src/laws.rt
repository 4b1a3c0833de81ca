//! A law on the instances of a design, the contract of a function that does nothing.

ghost use Rattle.sv_instances.specs.Preorder.{LevelsSuffice};

/// As many levels as instances that are listed are enough: more levels list the same ones. So
/// `instances_of` lists a design up to its limit at `MOST_INSTANCES` and one level more.
pub fn levels_suffice()
    ensures { LevelsSuffice }
{}
