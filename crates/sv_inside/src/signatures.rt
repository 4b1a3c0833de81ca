//! The signatures of a module's functions, tasks and imports, in text order. What they violate is
//! noted where the items are.
ghost use Rattle.std.specs.Prelude.{◌≡◌, ◌++◌, flat_map, map, IfOk, OnOk};
ghost use Rattle.sv_inside.specs.Seen as spec;

use dpi_ports::NoMemory;
use sqlite_items::Items;
use std::alloc::Global;
use sv_shapes::VarKind;
use sv_signatures::{
    Formal, ImportSignature, Signature, function_signature, import_signature, task_signature,
};
use sv_tree::Item;

/// Adds the signature of an item that is a function or a task.
fn add_subroutine(
    alloc: Global,
    file: u32,
    list: &mut Items<Signature>,
    item: &Item,
) -> Result<(), NoMemory>
    ensures { OnOk result (list.new ≡ list.old ++ spec.item_subroutines item.now) }
{
    match item {
        Item::Function(function) => {
            list.push(function_signature(alloc, file, function, &mut None)?)?
        }
        Item::Task(task) => list.push(task_signature(alloc, file, task, &mut None)?)?,
        _ => {}
    }
    Ok(())
}

/// Adds the signature of an item that is an import.
fn add_import(
    alloc: Global,
    file: u32,
    list: &mut Items<ImportSignature>,
    item: &Item,
) -> Result<(), NoMemory>
    ensures { OnOk result (list.new ≡ list.old ++ spec.item_imports item.now) }
{
    if let Item::Import(import) = item {
        list.push(import_signature(alloc, file, import, &mut None)?)?;
    }
    Ok(())
}

/// The signatures of the functions and tasks among items. NoMemory where no memory was found.
pub fn subroutines_of(
    alloc: Global,
    file: u32,
    items: &[Item],
) -> Result<Items<Signature>, NoMemory>
    ensures { IfOk result (λ r. r ≡ flat_map spec.item_subroutines items.now) }
{
    let mut list = Items::new(alloc);
    for item in items {
        add_subroutine(alloc, file, &mut list, item)?;
    }
    Ok(list)
}

/// The signatures of the imports among items. NoMemory where no memory was found.
pub fn imports_of(
    alloc: Global,
    file: u32,
    items: &[Item],
) -> Result<Items<ImportSignature>, NoMemory>
    ensures { IfOk result (λ r. r ≡ flat_map spec.item_imports items.now) }
{
    let mut list = Items::new(alloc);
    for item in items {
        add_import(alloc, file, &mut list, item)?;
    }
    Ok(list)
}

/// The kinds of formals, in order. NoMemory where no memory was found.
pub fn kinds_of(alloc: Global, formals: &[Formal]) -> Result<Vec<Option<VarKind>>, NoMemory>
    ensures { IfOk result (λ r. r.items ≡ spec.kinds_of formals.now) }
{
    let mut kinds = Vec::new(alloc);
    for formal in formals {
        kinds.push(formal.kind)?;
    }
    Ok(kinds)
}
