//! Imports (IEEE 1800-2017, 35.5.4).
ghost use Rattle.std.specs.Prelude.{◌≡◌, ◌≤◌, ◌++◌, IfOk, OnOk, flat_map, map, length};
ghost use Rattle.sv_instances.specs.Modules.{told};
ghost use Rattle.sv_design.specs.Imports as spec;

use dpi_ports::NoMemory;
use sqlite_items::Items;
use std::alloc::Global;
use sv_instances::{Placed, modules_of};
use sv_shapes::{FormalKind, VarKind};
use sv_signatures::{Returns, import_signature};
use sv_tree::{Direction, Item, Name, Property, SvFile, Trait};

/// A formal of an import.
#[derive(Clone, Copy, Debug, PartialEq, Eq)]
pub struct ImportFormal {
    /// Its direction.
    pub dir: Direction,
    /// Its kind.
    pub kind: FormalKind,
}

/// An imported function or task.
#[derive(Drop)]
pub struct Import {
    /// The number of the file.
    pub file: u32,
    /// The number of its name's token.
    pub token: u32,
    /// Its name in C: where none is written, its name (35.4).
    pub c_name: Items<u8>,
    /// Whether it is a task.
    pub is_task: bool,
    /// Whether it is declared with `context` (35.5.3).
    pub context: bool,
    /// The kind of its result. None for a task and a void function.
    pub result: Option<VarKind>,
    /// Its formals, in order.
    pub formals: Items<ImportFormal>,
}

/// The name in C: the one that is written, else the name.
pub(crate) fn c_name_of(
    alloc: Global,
    c_name: &Option<Name>,
    name: &Name,
) -> Result<Items<u8>, NoMemory>
    ensures { IfOk result (λ r. r ≡ spec.c_name_of c_name.now name.now) }
{
    let name = match c_name {
        Some(c_name) => c_name,
        None => name,
    };
    Ok(Items::from_slice(alloc, name.bytes.as_slice())?)
}

/// Whether an import with this property is declared with `context`.
fn is_context(property: &Option<Trait>) -> bool
    ensures { result ≡ spec.is_context property.now }
{
    match property {
        None => false,
        Some(property) => matches!(property.property, Property::Context),
    }
}

/// The kind of what is given, if there is one.
fn result_kind(returns: Returns) -> Option<VarKind>
    ensures { result ≡ spec.result_kind returns }
{
    match returns {
        Returns::Void => None,
        Returns::Value(kind) => kind,
    }
}

/// Adds a formal, unless its kind is refused.
fn add_formal(
    formal: &sv_signatures::ImportFormal,
    list: &mut Items<ImportFormal>,
) -> Result<(), NoMemory>
    ensures { OnOk result (list.new ≡ list.old ++ spec.formal formal.now) }
{
    if let Some(kind) = formal.kind {
        list.push(ImportFormal {
            dir: formal.direction,
            kind,
        })?;
    }
    Ok(())
}

/// The formals whose kinds aren't refused.
fn kept_formals(
    alloc: Global,
    formals: &[sv_signatures::ImportFormal],
) -> Result<Items<ImportFormal>, NoMemory>
    ensures { IfOk result (λ r. r ≡ flat_map spec.formal formals.now) }
{
    let mut list = Items::new(alloc);
    for formal in formals {
        add_formal(formal, &mut list)?;
    }
    Ok(list)
}

fn import_of(alloc: Global, file: u32, tree: &sv_tree::Import) -> Result<Import, NoMemory>
    ensures { IfOk result (λ r. r ≡ spec.import_of file tree.now) }
{
    let signature = import_signature(alloc, file, tree, &mut None)?;
    let c_name = c_name_of(alloc, &tree.c_name, &tree.name)?;
    let formals = kept_formals(alloc, signature.formals.as_slice())?;
    Ok(Import {
        file,
        token: signature.token,
        c_name,
        is_task: signature.is_task,
        context: is_context(&tree.property),
        result: result_kind(signature.result),
        formals,
    })
}

/// Adds the import that an item is, if it is one.
fn add_import(alloc: Global, file: u32, item: &Item, list: &mut Vec<Import>) -> Result<(), NoMemory>
    ensures { OnOk result (list.new.items ≡ list.old.items ++ spec.item_imports file item.now) }
{
    if let Item::Import(tree) = item {
        list.push(import_of(alloc, file, tree)?)?;
    }
    Ok(())
}

/// Adds the imports among items.
fn add_imports(
    alloc: Global,
    file: u32,
    items: &[Item],
    list: &mut Vec<Import>,
) -> Result<(), NoMemory>
    ensures { OnOk result (list.new.items ≡ list.old.items ++ flat_map (spec.item_imports file) items.now) }
{
    for item in items {
        add_import(alloc, file, item, list)?;
    }
    Ok(())
}

/// Adds the imports of modules.
fn add_module_imports(
    alloc: Global,
    modules: &[Placed<'_>],
    list: &mut Vec<Import>,
) -> Result<(), NoMemory>
    ensures { OnOk result (list.new.items ≡ list.old.items ++ flat_map spec.module_imports (map told modules.now)) }
{
    for placed in modules {
        add_imports(alloc, placed.file, placed.tree.items.as_slice(), list)?;
    }
    Ok(())
}

/// The imports of a design in text order. A formal whose kind is refused is left out. There are at
/// most 1,000 files. NoMemory where no memory was found.
pub fn imports_of(alloc: Global, files: &[SvFile]) -> Result<Vec<Import>, NoMemory>
    requires { length files.now ≤ 1000 }
    ensures { IfOk result (λ list. list.items ≡ spec.imports_in files.now) }
{
    let modules = modules_of(alloc, files)?;
    let mut list = Vec::new(alloc);
    add_module_imports(alloc, &modules, &mut list)?;
    Ok(list)
}
