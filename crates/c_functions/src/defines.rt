//! The defines of a file, as sizes of arrays name them (ISO C 6.10.3).
ghost use Rattle.std.specs.Prelude.{◌≡◌, OnOk};
ghost use Rattle.std.specs.Option.{option_copied};
ghost use Rattle.c_functions.specs.Again.{added};
ghost use Rattle.c_functions.specs.Objects as spec;

use c_tree::{Define, External};
use dpi_literal::c_define_name;
use dpi_ports::NoMemory;
use std::alloc::Global;
use std::collections::BTreeMap;

/// The defines of a file so far, by their names. Contracts see them as a function from names to
/// defines, `names_of`.
#[derive(Drop)]
pub struct Defines<'a> {
    names: BTreeMap<&'a [u8], &'a Define>,
}

impl<'a> Defines<'a> {
    /// No defines.
    pub fn new(alloc: Global) -> Defines<'a>
        ensures { spec.names_of result ≡ spec.no_names }
    {
        Defines {
            names: BTreeMap::new(alloc),
        }
    }

    /// The define of this name; None where there is none.
    pub fn get(&self, name: &[u8]) -> Option<&'a Define>
        ensures { option_copied result ≡ spec.names_of self.now name.now }
    {
        self.names.get(name).copied()
    }

    fn add(&mut self, name: &'a [u8], define: &'a Define) -> Result<(), NoMemory>
        ensures { OnOk result (spec.names_of self.new ≡ added (spec.names_of self.old) name.now define.now) }
    {
        if self.names.get(name).is_none() {
            self.names.insert(name, define)?;
        }
        Ok(())
    }

    fn add_define(&mut self, define: &'a Define) -> Result<(), NoMemory>
        ensures { OnOk result (spec.names_of self.new ≡ spec.with_define (spec.names_of self.old) define.now) }
    {
        self.add(c_define_name(define.bytes.as_slice()), define)?;
        Ok(())
    }

    /// What an external declaration defines, if it is a define. NoMemory where no memory was found.
    pub fn add_of(&mut self, external: &'a External) -> Result<(), NoMemory>
        ensures { OnOk result (spec.names_of self.new ≡ spec.names_behind (spec.names_of self.old) external.now) }
    {
        match external {
            External::Define(define) => self.add_define(define),
            _ => Ok(()),
        }
    }
}
