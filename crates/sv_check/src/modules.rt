//! Modules (IEEE 1800-2017, 23.2).
ghost use Rattle.std.specs.Prelude.{◌≡◌, flat_map, map, OnOk};
ghost use Rattle.dpi_rules.specs.Least.{noted};
ghost use Rattle.sv_instances.specs.Modules.{told};
ghost use Rattle.sv_inside.specs.Seen.{here};
ghost use Rattle.sv_check.specs.Modules as spec;

use crate::items::note_item;
use dpi_ports::NoMemory;
use dpi_rules::Violation;
use std::alloc::Global;
use sv_inside::{imports_of, subroutines_of};
use sv_instances::Placed;
use sv_names::{Scopes, module_scope};
use sv_tree::Item;
use sv_walk::Around;

/// Notes what the items of a module violate, inside the scopes of the module.
fn note_items<'a>(
    alloc: Global,
    around: &Around<'_>,
    scopes: &mut Scopes<'a>,
    items: &'a [Item],
    found: &mut Option<Violation>,
) -> Result<(), NoMemory>
    ensures { OnOk result (found.new ≡ noted found.old (flat_map (spec.item_violations (here around.now scopes.old)) items.now)) }
{
    for item in items {
        note_item(alloc, around, scopes, item, found)?;
    }
    Ok(())
}

/// Notes what a module violates: rule 4 in its scope, and its items inside that scope. NoMemory where
/// no memory was found.
fn note_module(
    alloc: Global,
    placed: Placed<'_>,
    found: &mut Option<Violation>,
) -> Result<(), NoMemory>
    ensures { OnOk result (found.new ≡ noted found.old (spec.module_violations (told placed.entry))) }
{
    let items = placed.tree.items.as_slice();
    let subroutines = subroutines_of(alloc, placed.file, items)?;
    let imports = imports_of(alloc, placed.file, items)?;
    let mut scopes = Scopes::new(alloc);
    scopes.enter(module_scope(alloc, placed.file, placed.tree, found)?)?;
    let around = Around {
        file: placed.file,
        subroutines: subroutines.as_slice(),
        imports: imports.as_slice(),
        in_function: false,
        result: None,
    };
    note_items(alloc, &around, &mut scopes, items, found)
}

/// Notes what each module violates. NoMemory where no memory was found.
pub(crate) fn note_modules(
    alloc: Global,
    modules: &[Placed<'_>],
    found: &mut Option<Violation>,
) -> Result<(), NoMemory>
    ensures { OnOk result (found.new ≡ noted found.old (flat_map spec.module_violations (map told modules.now))) }
{
    for placed in modules {
        note_module(alloc, *placed, found)?;
    }
    Ok(())
}
