//! Where modules stand (IEEE 1800-2017, 23.2).
ghost use Rattle.std.specs.Prelude.{◌≡◌, ◌≤◌, ◌++◌, IfOk, OnOk, length};
ghost use Rattle.sv_scopes.specs.Homes as spec;

use dpi_numbered::next;
use dpi_ports::NoMemory;
use std::alloc::Global;
use sv_tree::{Module, SvFile};

/// Where a module stands.
#[derive(Clone, Copy, Debug, PartialEq, Eq)]
pub struct Home {
    /// The number of the file.
    pub file: u32,
    /// The number of the module in its file, from 0.
    pub number: u32,
}

/// Adds the modules of a file.
fn add_homes(file: u32, modules: &[Module], list: &mut Vec<Home>) -> Result<(), NoMemory>
    ensures { OnOk result (list.new.items ≡ list.old.items ++ spec.homes_from file 0 modules.now) }
{
    let mut number = 0;
    for _module in modules {
        list.push(Home { file, number })?;
        number = next(number)?;
    }
    Ok(())
}

/// Where each module stands, by the number that it has over all files, in text order. There are at
/// most 1,000 files. NoMemory where no memory was found.
pub fn homes_of(alloc: Global, files: &[SvFile]) -> Result<Vec<Home>, NoMemory>
    requires { length files.now ≤ 1000 }
    ensures { IfOk result (λ list. list.items ≡ spec.homes_in files.now) }
{
    let mut list = Vec::new(alloc);
    let mut number = 0;
    for file in files {
        add_homes(number, file.modules.as_slice(), &mut list)?;
        number += 1;
    }
    Ok(list)
}
