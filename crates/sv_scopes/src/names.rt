//! The variables that modules declare (IEEE 1800-2017, 6.8 and 23.2).
ghost use Rattle.std.specs.Prelude.{◌≡◌, ◌++◌, flat_map, map, IfOk, OnOk};
ghost use Rattle.dpi_table.specs.Files.{in_file};
ghost use Rattle.sv_instances.specs.Modules.{told};
ghost use Rattle.sv_scopes.specs.Names as spec;

use dpi_numbered::next;
use dpi_ports::NoMemory;
use dpi_table::Tables;
use sqlite_items::{Items, at};
use std::alloc::Global;
use sv_design::Declaration;
use sv_instances::Placed;
use sv_shapes::VarKind;
use sv_tree::{Declarator, Item, Name};

/// A variable of a module.
#[derive(Drop)]
pub(crate) struct Named {
    /// The number of its declaration.
    pub(crate) declaration: u32,
    /// Its name.
    pub(crate) name: Items<u8>,
    /// What it holds.
    pub(crate) kind: VarKind,
}

/// The declarations of a design, and their numbers by file and token.
#[derive(Clone, Copy)]
pub(crate) struct Known<'a> {
    pub(crate) declarations: &'a [Declaration],
    pub(crate) numbers: &'a Tables<u32>,
}

/// The numbers of declarations by file and token: of several at one token the first counts.
pub(crate) fn numbers_of(
    alloc: Global,
    declarations: &[Declaration],
) -> Result<Tables<u32>, NoMemory>
    ensures { IfOk result (λ numbers. in_file numbers ≡ spec.numbers_in declarations.now) }
{
    let mut numbers = Tables::new(alloc);
    let mut number = 0;
    for declaration in declarations {
        numbers.put(alloc, declaration.file, declaration.token, number)?;
        number = next(number)?;
    }
    Ok(numbers)
}

/// Adds a name with its declaration, which has this number.
fn add_named(
    alloc: Global,
    name: &Name,
    number: u32,
    declaration: Option<Declaration>,
    list: &mut Items<Named>,
) -> Result<(), NoMemory>
    ensures { OnOk result (list.new ≡ list.old ++ spec.named name.now number declaration) }
{
    match declaration {
        None => Ok(()),
        Some(declaration) => {
            list.push(Named {
                declaration: number,
                name: Items::from_slice(alloc, name.bytes.as_slice())?,
                kind: declaration.kind,
            })?;
            Ok(())
        }
    }
}

/// Adds a name whose declaration has this number.
fn add_numbered(
    alloc: Global,
    declarations: &[Declaration],
    name: &Name,
    number: Option<u32>,
    list: &mut Items<Named>,
) -> Result<(), NoMemory>
    ensures { OnOk result (list.new ≡ list.old ++ spec.numbered declarations.now name.now number) }
{
    match number {
        None => Ok(()),
        Some(number) => {
            let declaration = at(declarations, number as usize).copied();
            add_named(alloc, name, number, declaration, list)
        }
    }
}

/// Adds the variables of one type.
fn add_declarators(
    alloc: Global,
    known: Known<'_>,
    file: u32,
    declarators: &[Declarator],
    list: &mut Items<Named>,
) -> Result<(), NoMemory>
    ensures { OnOk result (list.new ≡ list.old ++ flat_map (spec.declarator_names known.entry.declarations.now (in_file known.entry.numbers.now) file) declarators.now) }
{
    for declarator in declarators {
        let number = known.numbers.get(file, declarator.name.token);
        add_numbered(alloc, known.declarations, &declarator.name, number, list)?;
    }
    Ok(())
}

/// Adds the variables that an item declares.
fn add_item(
    alloc: Global,
    known: Known<'_>,
    file: u32,
    item: &Item,
    list: &mut Items<Named>,
) -> Result<(), NoMemory>
    ensures { OnOk result (list.new ≡ list.old ++ spec.item_names known.entry.declarations.now (in_file known.entry.numbers.now) file item.now) }
{
    match item {
        Item::Variables(variables) => {
            add_declarators(alloc, known, file, variables.declarators.as_slice(), list)
        }
        _ => Ok(()),
    }
}

/// The variables of a module, in text order.
fn module_names(
    alloc: Global,
    known: Known<'_>,
    placed: Placed<'_>,
) -> Result<Items<Named>, NoMemory>
    ensures { IfOk result (λ r. r ≡ spec.module_names known.entry.declarations.now (in_file known.entry.numbers.now) (told placed.entry)) }
{
    let mut list = Items::new(alloc);
    for item in placed.tree.items.as_slice() {
        add_item(alloc, known, placed.file, item, &mut list)?;
    }
    Ok(list)
}

/// The variables of each module, by the number of the module.
pub(crate) fn all_names(
    alloc: Global,
    known: Known<'_>,
    modules: &[Placed<'_>],
) -> Result<Items<Items<Named>>, NoMemory>
    ensures { IfOk result (λ r. r ≡ map (spec.module_names known.entry.declarations.now (in_file known.entry.numbers.now)) (map told modules.now)) }
{
    let mut table = Items::new(alloc);
    for placed in modules {
        table.push(module_names(alloc, known, *placed)?)?;
    }
    Ok(table)
}
