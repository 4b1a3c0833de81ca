//! The instances that items make (IEEE 1800-2017, 23.3.2).

ghost use Rattle.std.specs.Prelude.{◌≡◌, ◌++◌, map, IfOk, OnOk};
ghost use Rattle.dpi_rules.specs.Least.{noted};
ghost use Rattle.sv_instances.specs.Modules.{told, numbers_of};
ghost use Rattle.sv_instances.specs.Instances as spec;

use crate::modules::{Numbers, Placed};
use crate::preorder::Child;
use dpi_ports::NoMemory;
use dpi_rules::{Violation, note};
use sqlite_items::Items;
use std::alloc::Global;
use sv_tree::{Item, Name};

/// The rule on instances of unknown modules.
const UNKNOWN_RULE: u8 = 2;

/// Notes rule 2 at the name of a module, where there is no module of that name.
fn note_unknown_name(file: u32, name: &Name, number: Option<usize>, found: &mut Option<Violation>)
    ensures { found.new ≡ noted found.old (spec.unknown file name.now number) }
{
    if number.is_none() {
        note(
            found,
            Violation {
                file,
                token: name.token,
                rule: UNKNOWN_RULE,
            },
        );
    }
}

/// Notes rule 2 at an instance of an unknown module.
fn note_item(numbers: &Numbers<'_>, file: u32, item: &Item, found: &mut Option<Violation>)
    ensures { found.new ≡ noted found.old (spec.item_unknown (numbers_of numbers.now.numbers) file item.now) }
{
    if let Item::Instance(name, _) = item {
        note_unknown_name(file, name, numbers.get(name.bytes.as_slice()), found);
    }
}

/// Notes rule 2 at each instance of an unknown module in a module.
fn note_items(numbers: &Numbers<'_>, placed: Placed<'_>, found: &mut Option<Violation>)
    ensures { found.new ≡ noted found.old (spec.module_unknown (numbers_of numbers.now.numbers) (told placed.entry)) }
{
    for item in placed.tree.items.as_slice() {
        note_item(numbers, placed.file, item, found);
    }
}

/// Notes rule 2 at the module's name of each instance of an unknown module.
pub fn note_unknown(numbers: &Numbers<'_>, modules: &[Placed<'_>], found: &mut Option<Violation>)
    ensures { found.new ≡ noted found.old (spec.all_unknown (numbers_of numbers.now.numbers) (map told modules.now)) }
{
    for placed in modules {
        note_items(numbers, *placed, found);
    }
}

/// Adds an instance of the module of this number, if there is one.
fn add_child(
    alloc: Global,
    list: &mut Items<Child>,
    file: u32,
    module_name: &Name,
    name: &Name,
    number: Option<usize>,
) -> Result<(), NoMemory>
    ensures { OnOk result (list.new ≡ list.old ++ spec.child file module_name.now name.now number) }
{
    match number {
        None => Ok(()),
        Some(module_number) => {
            list.push(Child {
                module_number,
                file,
                token: module_name.token,
                name: Items::from_slice(alloc, name.bytes.as_slice())?,
            })?;
            Ok(())
        }
    }
}

/// Adds what an item instantiates, if it does and the module is known.
fn add_item(
    alloc: Global,
    list: &mut Items<Child>,
    numbers: &Numbers<'_>,
    file: u32,
    item: &Item,
) -> Result<(), NoMemory>
    ensures { OnOk result (list.new ≡ list.old ++ spec.item_children (numbers_of numbers.now.numbers) file item.now) }
{
    match item {
        Item::Instance(module_name, name) => {
            let number = numbers.get(module_name.bytes.as_slice());
            add_child(alloc, list, file, module_name, name, number)
        }
        _ => Ok(()),
    }
}

/// What a module instantiates, in text order, without instances of unknown modules. NoMemory where
/// no memory was found.
pub fn module_children(
    alloc: Global,
    numbers: &Numbers<'_>,
    placed: Placed<'_>,
) -> Result<Items<Child>, NoMemory>
    ensures { IfOk result (λ r. r ≡ spec.module_children (numbers_of numbers.now.numbers) (told placed.entry)) }
{
    let mut list = Items::new(alloc);
    for item in placed.tree.items.as_slice() {
        add_item(alloc, &mut list, numbers, placed.file, item)?;
    }
    Ok(list)
}

/// What each module instantiates, by the number of the module. NoMemory where no memory was found.
pub fn all_children(
    alloc: Global,
    numbers: &Numbers<'_>,
    modules: &[Placed<'_>],
) -> Result<Items<Items<Child>>, NoMemory>
    ensures { IfOk result (λ r. r ≡ spec.all_children (numbers_of numbers.now.numbers) (map told modules.now)) }
{
    let mut table = Items::new(alloc);
    for placed in modules {
        table.push(module_children(alloc, numbers, *placed)?)?;
    }
    Ok(table)
}
