//! Sets of names.
ghost use Rattle.std.specs.Prelude.{◌≡◌, ◌||◌, false, OnOk, ℕ, List};
ghost use Rattle.std.specs.Str.{bytes_eq};
ghost use Rattle.c_functions.specs.Declarations.{told};
ghost use Rattle.c_program.specs.Functions as spec;

use c_functions::Declaration;
use dpi_ports::NoMemory;
use std::alloc::Global;
use std::collections::BTreeMap;

/// A set of names. Contracts see it as what tells whether a name is there, `has`.
#[derive(Drop)]
pub(crate) struct NameSet<'a> {
    names: BTreeMap<&'a [u8], ()>,
}

impl<'a> NameSet<'a> {
    /// No names.
    pub(crate) fn new(alloc: Global) -> NameSet<'a>
        ensures { (q : List ℕ) → spec.has result q ≡ false }
    {
        NameSet {
            names: BTreeMap::new(alloc),
        }
    }

    /// Whether the name is there.
    pub(crate) fn has(&self, name: &[u8]) -> bool
        ensures { result ≡ spec.has self.now name.now }
    {
        self.names.get(name).is_some()
    }

    /// One more name. NoMemory where no memory was found.
    pub(crate) fn add(&mut self, name: &'a [u8]) -> Result<(), NoMemory>
        ensures { OnOk result ((q : List ℕ) → spec.has self.new q ≡ (spec.has self.old q || bytes_eq name.now q)) }
    {
        self.names.insert(name, ())?;
        Ok(())
    }
}

/// Names of functions. Contracts see them as `named`.
#[derive(Drop)]
pub(crate) struct FunctionNames<'a> {
    shared: NameSet<'a>,
    own: NameSet<'a>,
}

impl<'a> FunctionNames<'a> {
    /// These names of functions that all files share, and none of a file's own.
    pub(crate) fn new(alloc: Global, shared: NameSet<'a>) -> FunctionNames<'a>
        ensures { (spec.named result).shared ≡ spec.has shared.entry }
    {
        FunctionNames {
            shared,
            own: NameSet::new(alloc),
        }
    }

    /// Goes on to a file that has these names of its own.
    pub(crate) fn set_own(&mut self, own: NameSet<'a>)
        ensures { spec.named self.new ≡ spec.opened (spec.named self.old).shared (spec.has own.entry) }
    {
        self.own = own;
    }

    /// Whether the name of the declared function is there.
    pub(crate) fn has(&self, declaration: Declaration<'_>) -> bool
        ensures { result ≡ spec.is_named (spec.named self.now) (told declaration.entry) }
    {
        let name = declaration.function.name.bytes.as_slice();
        if declaration.is_static {
            self.own.has(name)
        } else {
            self.shared.has(name)
        }
    }

    /// One more name. NoMemory where no memory was found.
    pub(crate) fn add(&mut self, declaration: Declaration<'a>) -> Result<(), NoMemory>
        ensures { OnOk result (spec.named self.new ≡ spec.with_declaration (spec.named self.old) (told declaration.entry)) }
    {
        let name = declaration.function.name.bytes.as_slice();
        if declaration.is_static {
            self.own.add(name)
        } else {
            self.shared.add(name)
        }
    }
}
