//! The values of defines (ISO C 6.10.3).
ghost use Rattle.std.specs.Prelude.{◌≡◌, IfOk, OnOk};
ghost use Rattle.dpi_literal.specs.Constants.{define_value as c_value};
ghost use Rattle.c_walk.specs.Around as spec;

use c_tree::{Define, External};
use dpi_literal::c_define_value;
use dpi_ports::NoMemory;
use std::alloc::Global;
use std::collections::BTreeMap;

/// The values of a file's defines, by the numbers of their tokens. Contracts see them as a
/// function, `values_of`.
#[derive(Drop)]
pub struct Defines {
    values: BTreeMap<u32, i128>,
}

impl Defines {
    fn new(alloc: Global) -> Defines
        ensures { spec.values_of result ≡ spec.no_values }
    {
        Defines {
            values: BTreeMap::new(alloc),
        }
    }

    /// The value of the define of this token. None where there is none.
    pub fn get(&self, token: u32) -> Option<i128>
        ensures { result ≡ spec.values_of self.now token }
    {
        self.values.get(&token).copied()
    }

    fn add(&mut self, token: u32, value: i128) -> Result<(), NoMemory>
        ensures { OnOk result (spec.values_of self.new ≡ spec.with_value (spec.values_of self.old) token value) }
    {
        self.values.insert(token, value)?;
        Ok(())
    }
}

fn value_of(define: &Define) -> i128
    ensures { result ≡ (c_value define.now.bytes).value }
{
    c_define_value(define.bytes.as_slice()).value
}

fn add_define(defines: &mut Defines, define: &Define) -> Result<(), NoMemory>
    ensures { OnOk result (spec.values_of defines.new ≡ spec.define_values (spec.values_of defines.old) define.now) }
{
    defines.add(define.token, value_of(define))
}

fn add_external(defines: &mut Defines, external: &External) -> Result<(), NoMemory>
    ensures { OnOk result (spec.values_of defines.new ≡ spec.external_values (spec.values_of defines.old) external.now) }
{
    match external {
        External::Define(define) => add_define(defines, define),
        External::Function(_) | External::Variables(_) => Ok(()),
    }
}

/// The values of the defines of a file. NoMemory where no memory was found.
pub fn defines_of(alloc: Global, externals: &[External]) -> Result<Defines, NoMemory>
    ensures { IfOk result (λ d. spec.values_of d ≡ spec.values_behind spec.no_values externals.now) }
{
    let mut defines = Defines::new(alloc);
    for external in externals {
        add_external(&mut defines, external)?;
    }
    Ok(defines)
}
