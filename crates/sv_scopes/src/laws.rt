//! A law on the scopes of a design, the contract of a function that does nothing.

ghost use Rattle.sv_scopes.specs.Scopes.{ModulesStand};

/// The module of each scope stands in the files, where the scope says.
pub fn modules_stand()
    ensures { ModulesStand }
{}
