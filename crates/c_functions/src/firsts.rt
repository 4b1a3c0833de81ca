//! The first declaration of each name.
ghost use Rattle.std.specs.Prelude.{◌≡◌, None, OnOk, option_map, ℕ, List};
ghost use Rattle.c_functions.specs.Declarations.{told};
ghost use Rattle.c_functions.specs.Again as spec;

use crate::declarations::Declaration;
use dpi_ports::NoMemory;
use std::alloc::Global;
use std::collections::BTreeMap;

/// The names that were declared so far, each with its first declaration.
#[derive(Drop)]
pub(crate) struct Firsts<'a> {
    names: BTreeMap<&'a [u8], Declaration<'a>>,
}

impl<'a> Firsts<'a> {
    /// No names.
    pub(crate) fn new(alloc: Global) -> Firsts<'a>
        ensures { (q : List ℕ) → spec.firsts_of result q ≡ None }
    {
        Firsts {
            names: BTreeMap::new(alloc),
        }
    }

    /// The first declaration of this name; None where there is none.
    pub(crate) fn get(&self, name: &[u8]) -> Option<Declaration<'a>>
        ensures { option_map told result ≡ spec.firsts_of self.now name.now }
    {
        self.names.get(name).copied()
    }

    /// One more declaration, which counts where it is the first of its name. NoMemory where no
    /// memory was found.
    pub(crate) fn add(
        &mut self,
        name: &'a [u8],
        declaration: Declaration<'a>,
    ) -> Result<(), NoMemory>
        ensures { OnOk result ((q : List ℕ) → spec.firsts_of self.new q ≡ spec.added (spec.firsts_of self.old) name.now (told declaration.entry) q) }
    {
        if self.names.get(name).is_none() {
            self.names.insert(name, declaration)?;
        }
        Ok(())
    }
}
