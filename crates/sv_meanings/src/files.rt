//! Files and their modules (IEEE 1800-2017, 23.2).
ghost use Rattle.std.specs.Prelude.{◌≡◌, ◌++◌, IfOk, OnOk, flat_map};
ghost use Rattle.sv_names.specs.Scopes.{scopes_of};
ghost use Rattle.sv_inside.specs.Seen.{here};
ghost use Rattle.sv_meanings.specs.Items.{item_facts};
ghost use Rattle.sv_meanings.specs.Files as spec;

use crate::declarations::add_meant;
use crate::items::add_item;
use dpi_ports::NoMemory;
use std::alloc::Global;
use sv_facts::{Fact, Meant};
use sv_inside::{imports_of, subroutines_of};
use sv_names::{Scopes, module_scope};
use sv_tree::{Item, Module, SvFile};
use sv_walk::Around;

/// Adds what the items of a module tell inside the scopes of the module, which are the same when it
/// is done.
fn add_items<'a>(
    alloc: Global,
    around: &Around<'_>,
    scopes: &mut Scopes<'a>,
    items: &'a [Item],
    list: &mut Vec<Fact>,
) -> Result<(), NoMemory>
    ensures { OnOk result ((scopes_of scopes.new ≡ scopes_of scopes.old) × (list.new.items ≡ list.old.items ++ flat_map (item_facts (here around.now scopes.old)) items.now)) }
{
    for item in items {
        add_item(alloc, around, scopes, item, list)?;
    }
    Ok(())
}

/// Adds what a module of the file of this number tells: its name, and its items inside its scope.
fn add_module(
    alloc: Global,
    number: u32,
    module: &Module,
    list: &mut Vec<Fact>,
) -> Result<(), NoMemory>
    ensures { OnOk result (list.new.items ≡ list.old.items ++ spec.module_facts number «module».now) }
{
    add_meant(&module.name, Meant::Module, list)?;
    let items = module.items.as_slice();
    let subroutines = subroutines_of(alloc, number, items)?;
    let imports = imports_of(alloc, number, items)?;
    let mut scopes = Scopes::new(alloc);
    scopes.enter(module_scope(alloc, number, module, &mut None)?)?;
    let around = Around {
        file: number,
        subroutines: subroutines.as_slice(),
        imports: imports.as_slice(),
        in_function: false,
        result: None,
    };
    add_items(alloc, &around, &mut scopes, items, list)
}

/// Adds what modules of the file of this number tell.
fn add_modules(
    alloc: Global,
    number: u32,
    modules: &[Module],
    list: &mut Vec<Fact>,
) -> Result<(), NoMemory>
    ensures { OnOk result (list.new.items ≡ list.old.items ++ flat_map (spec.module_facts number) modules.now) }
{
    for module in modules {
        add_module(alloc, number, module, list)?;
    }
    Ok(())
}

/// All facts of the file of this number, in text order: what each name means, and the type of each
/// expression by itself, its own before those of its parts. NoMemory where no memory was found.
pub fn facts_of(alloc: Global, number: u32, file: &SvFile) -> Result<Vec<Fact>, NoMemory>
    ensures { IfOk result (λ v. v.items ≡ spec.file_facts number file.now) }
{
    let mut list = Vec::new(alloc);
    add_modules(alloc, number, file.modules.as_slice(), &mut list)?;
    Ok(list)
}
