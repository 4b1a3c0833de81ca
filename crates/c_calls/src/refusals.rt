//! Names whose calls are refused.

ghost use Rattle.std.specs.Prelude.{◌≡◌, OnOk};
ghost use Rattle.c_calls.specs.Refusals as spec;

use dpi_ports::NoMemory;
use std::alloc::Global;
use std::collections::BTreeMap;

/// The rule that a call of a name breaks, for each name whose calls break one. Contracts see it as a
/// function from names to rules, `rules_of`.
#[derive(Drop)]
pub struct Refusals<'a> {
    rules: BTreeMap<&'a [u8], u8>,
}

impl<'a> Refusals<'a> {
    /// Every call is accepted.
    pub fn new(alloc: Global) -> Refusals<'a>
        ensures { spec.rules_of result ≡ spec.no_rules }
    {
        Refusals {
            rules: BTreeMap::new(alloc),
        }
    }

    /// The rule that a call of the name breaks; None where it breaks none.
    pub fn get(&self, name: &[u8]) -> Option<u8>
        ensures { result ≡ spec.rules_of self.now name.now }
    {
        self.rules.get(name).copied()
    }

    /// Calls of the name break this rule; the first rule of a name stays. NoMemory where no memory was
    /// found.
    pub fn refuse(&mut self, name: &'a [u8], rule: u8) -> Result<(), NoMemory>
        ensures { OnOk result (spec.rules_of self.new ≡ spec.refused (spec.rules_of self.old) name.now rule) }
    {
        if self.rules.get(name).is_none() {
            self.rules.insert(name, rule)?;
        }
        Ok(())
    }
}
