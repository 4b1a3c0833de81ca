//! The names that one scope declares (ISO C 6.2.1).

ghost use Rattle.std.specs.Prelude.{◌≡◌, OnOk};
ghost use Rattle.c_names.specs.Names as spec;

use crate::entry::Entry;
use dpi_ports::NoMemory;
use std::alloc::Global;
use std::collections::BTreeMap;

/// The names of one scope, each with its first declaration. Contracts see it as a function from
/// names to declarations, `names_of`.
#[derive(Drop)]
pub struct Scope<'a> {
    entries: BTreeMap<&'a [u8], Entry>,
}

impl<'a> Scope<'a> {
    /// A scope without names.
    pub fn new(alloc: Global) -> Scope<'a>
        ensures { spec.names_of result ≡ spec.no_names }
    {
        Scope {
            entries: BTreeMap::new(alloc),
        }
    }

    /// The declaration of the name in this scope; None where it has none.
    pub fn get(&self, name: &[u8]) -> Option<Entry>
        ensures { result ≡ spec.names_of self.now name.now }
    {
        self.entries.get(name).copied()
    }

    /// Declares the name, unless the scope has it already: its first declaration counts. NoMemory
    /// where no memory was found.
    pub fn add(&mut self, name: &'a [u8], entry: Entry) -> Result<(), NoMemory>
        ensures { OnOk result (spec.names_of self.new ≡ spec.added (spec.names_of self.old) name.now entry) }
    {
        if self.entries.get(name).is_none() {
            self.entries.insert(name, entry)?;
        }
        Ok(())
    }
}
