//! The names of a file's static functions (ISO C 6.2.2).
ghost use Rattle.std.specs.Prelude.{◌≡◌, ◌||◌, false, IfOk, OnOk, ℕ, List};
ghost use Rattle.std.specs.Str.{bytes_eq};
ghost use Rattle.c_functions.specs.Declarations as spec;

use c_tree::{External, Store, StoreKind};
use dpi_ports::NoMemory;
use std::alloc::Global;
use std::collections::BTreeMap;

/// The names of functions that are static in a file: those of which one declaration there is.
#[derive(Drop)]
pub(crate) struct Statics<'a> {
    names: BTreeMap<&'a [u8], ()>,
}

fn is_static(store: &Option<Store>) -> bool
    ensures { result ≡ spec.is_static store.now }
{
    match store {
        None => false,
        Some(store) => matches!(store.kind, StoreKind::Static),
    }
}

impl<'a> Statics<'a> {
    fn new(alloc: Global) -> Statics<'a>
        ensures { (q : List ℕ) → spec.has result q ≡ false }
    {
        Statics {
            names: BTreeMap::new(alloc),
        }
    }

    /// Whether the name is there.
    pub(crate) fn has(&self, name: &[u8]) -> bool
        ensures { result ≡ spec.has self.now name.now }
    {
        self.names.get(name).is_some()
    }

    fn add(&mut self, name: &'a [u8]) -> Result<(), NoMemory>
        ensures { OnOk result ((q : List ℕ) → spec.has self.new q ≡ (spec.has self.old q || bytes_eq name.now q)) }
    {
        self.names.insert(name, ())?;
        Ok(())
    }

    fn add_of(&mut self, external: &'a External) -> Result<(), NoMemory>
        ensures { OnOk result ((q : List ℕ) → spec.has self.new q ≡ (spec.has self.old q || spec.is_static_of q external.now)) }
    {
        if let External::Function(function) = external {
            if is_static(&function.store) {
                self.add(function.name.bytes.as_slice())?;
            }
        }
        Ok(())
    }
}

/// The names of the functions that are static in a file. NoMemory where no memory was found.
pub(crate) fn statics_of<'a>(
    alloc: Global,
    externals: &'a [External],
) -> Result<Statics<'a>, NoMemory>
    ensures { IfOk result (λ s. (q : List ℕ) → spec.has s q ≡ spec.statics_in externals.now q) }
{
    let mut statics = Statics::new(alloc);
    for external in externals {
        statics.add_of(external)?;
    }
    Ok(statics)
}
