//! Instances as scopes (IEEE 1800-2017, 23.6).
ghost use Rattle.std.specs.Prelude.{◌≡◌, ◌++◌, IfOk, OnOk};
ghost use Rattle.sv_scopes.specs.Scopes as spec;

use crate::homes::Home;
use dpi_ports::NoMemory;
use sqlite_items::{Items, at};
use std::alloc::Global;
use sv_instances::Instance;

/// A scope: an instance of a module.
#[derive(Drop)]
pub struct Scope {
    /// Its full name, from the top, with dots between.
    pub name: Items<u8>,
    /// Where its module stands.
    pub home: Home,
    /// The number that its module has over all files.
    pub module_number: usize,
}

/// Adds the scope of an instance, whose module stands there.
fn add_scope(
    alloc: Global,
    home: Option<Home>,
    instance: &Instance,
    list: &mut Vec<Scope>,
) -> Result<(), NoMemory>
    ensures { OnOk result (list.new.items ≡ list.old.items ++ spec.scope_at instance.now home) }
{
    match home {
        None => Ok(()),
        Some(home) => {
            list.push(Scope {
                name: Items::from_slice(alloc, instance.name.as_slice())?,
                home,
                module_number: instance.module_number,
            })?;
            Ok(())
        }
    }
}

/// The scopes of these instances in order, by where each module stands. NoMemory where no memory was
/// found.
pub fn scopes_of(
    alloc: Global,
    homes: &[Home],
    instances: &[Instance],
) -> Result<Vec<Scope>, NoMemory>
    ensures { IfOk result (λ list. list.items ≡ spec.scopes_of homes.now instances.now) }
{
    let mut list = Vec::new(alloc);
    for instance in instances {
        let home = at(homes, instance.module_number).copied();
        add_scope(alloc, home, instance, &mut list)?;
    }
    Ok(list)
}
