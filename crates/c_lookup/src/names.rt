//! Numbers by name.

ghost use Rattle.std.specs.Prelude.{◌≡◌, OnOk};
ghost use Rattle.c_functions.specs.Again.{added};
ghost use Rattle.c_lookup.specs.Names as spec;

use dpi_ports::NoMemory;
use std::alloc::Global;
use std::collections::BTreeMap;

/// Numbers by name. Contracts see it as a function from names to numbers, `named`.
#[derive(Drop)]
pub(crate) struct Named<'a> {
    names: BTreeMap<&'a [u8], u32>,
}

impl<'a> Named<'a> {
    /// No names.
    pub(crate) fn new(alloc: Global) -> Named<'a>
        ensures { spec.named result ≡ spec.no_names }
    {
        Named {
            names: BTreeMap::new(alloc),
        }
    }

    /// The number of the name; None where it has none.
    pub(crate) fn get(&self, name: &[u8]) -> Option<u32>
        ensures { result ≡ spec.named self.now name.now }
    {
        self.names.get(name).copied()
    }

    fn insert(&mut self, name: &'a [u8], number: u32) -> Result<(), NoMemory>
        ensures { OnOk result (spec.named self.new ≡ added (spec.named self.old) name.now number) }
    {
        if self.names.get(name).is_none() {
            self.names.insert(name, number)?;
        }
        Ok(())
    }

    /// Gives the name this number, if it is one, unless it has one already. NoMemory where no
    /// memory was found.
    pub(crate) fn add(&mut self, name: &'a [u8], number: Option<u32>) -> Result<(), NoMemory>
        ensures { OnOk result (spec.named self.new ≡ spec.or_names (spec.named self.old) (spec.only_named name.now number)) }
    {
        if let Some(number) = number {
            self.insert(name, number)?;
        }
        Ok(())
    }
}
