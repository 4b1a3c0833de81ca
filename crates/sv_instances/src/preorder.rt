//! Instances in preorder (IEEE 1800-2017, 23.3, 23.6).

ghost use Rattle.dpi_rules.specs.Least.{noted};
ghost use Rattle.std.specs.Prelude.{slice_get, ◌≡◌, ◌≤◌, ◌++◌, ◌-◌, [], ◌∷◌, length, take, IfOk, OnOk};
ghost use Rattle.sv_instances.specs.Preorder as spec;

use dpi_ports::NoMemory;
use dpi_rules::{Violation, note};
use sqlite_items::Items;
use std::alloc::Global;

/// The most instances of a design, tops included.
pub const MOST_INSTANCES: usize = 1000;

/// The rule on the number of instances.
const COUNT_RULE: u8 = 3;

/// What a module instantiates.
#[derive(Drop)]
pub struct Child {
    /// The number of the module that is instantiated.
    pub module_number: usize,
    /// The number of the file that the item stands in.
    pub file: u32,
    /// The number of the token of the module's name in the item.
    pub token: u32,
    /// The name of the instance.
    pub name: Items<u8>,
}

/// An instance of a module.
#[derive(Drop)]
pub struct Instance {
    /// The number of its module.
    pub module_number: usize,
    /// The number of the file that its module's name stands in: in the item that makes it, or for a
    /// top in the module's header.
    pub file: u32,
    /// The number of that name's token.
    pub token: u32,
    /// Its full name, from the top, with dots between.
    pub name: Items<u8>,
}

/// The bytes of the one, a dot, and those of the other.
fn dotted(alloc: Global, outer: &[u8], name: &[u8]) -> Result<Items<u8>, NoMemory>
    ensures { IfOk result (λ r. r ≡ outer.now ++ 46 ∷ name.now) }
{
    let mut bytes = Items::from_slice(alloc, outer)?;
    bytes.push(b'.')?;
    bytes.append(Items::from_slice(alloc, name)?)?;
    Ok(bytes)
}

/// The instance that a part makes inside one of this name.
fn inside(alloc: Global, outer: &[u8], child: &Child) -> Result<Instance, NoMemory>
    ensures { IfOk result (λ r. r ≡ spec.inside outer.now child.now) }
{
    Ok(Instance {
        module_number: child.module_number,
        file: child.file,
        token: child.token,
        name: dotted(alloc, outer, child.name.as_slice())?,
    })
}

/// What a module instantiates, by its number.
pub(crate) fn children_of(children: &[Items<Child>], number: usize) -> &[Child]
    ensures { result.now ≡ spec.children_of children.now number }
{
    match children.get(number) {
        Some(list) => list.as_slice(),
        None => &[],
    }
}

/// Adds an instance and those inside it, to so many levels, in preorder; no more than up to `most`
/// instances in the list. NoMemory where no memory was found.
fn add_instance(
    alloc: Global,
    children: &[Items<Child>],
    levels: usize,
    most: usize,
    instance: Instance,
    list: &mut Items<Instance>,
) -> Result<(), NoMemory>
    requires { length list.old ≤ most }
    ensures { OnOk result (list.new ≡ take most (list.old ++ spec.from_instance children.now levels instance)) }
{
    if levels == 0 {
        return Ok(());
    }
    if list.len() >= most {
        return Ok(());
    }
    let name = Items::from_slice(alloc, instance.name.as_slice())?;
    let below = children_of(children, instance.module_number);
    list.push(instance)?;
    let outer = name.as_slice();
    for child in below {
        let next = inside(alloc, outer, child)?;
        add_instance(alloc, children, levels - 1, most, next, list)?;
    }
    Ok(())
}

/// The instance that a top makes: its name is that of its module.
fn top(alloc: Global, child: &Child) -> Result<Instance, NoMemory>
    ensures { IfOk result (λ r. r ≡ spec.top child.now) }
{
    Ok(Instance {
        module_number: child.module_number,
        file: child.file,
        token: child.token,
        name: Items::from_slice(alloc, child.name.as_slice())?,
    })
}

/// Adds tops and those inside them, to so many levels, in preorder; no more than up to `most`
/// instances in the list.
fn add_tops(
    alloc: Global,
    children: &[Items<Child>],
    levels: usize,
    most: usize,
    tops: &[Child],
    list: &mut Items<Instance>,
) -> Result<(), NoMemory>
    requires { length list.old ≤ most }
    ensures { OnOk result (list.new ≡ take most (list.old ++ spec.from_tops children.now levels tops.now)) }
{
    for child in tops {
        let next = top(alloc, child)?;
        add_instance(alloc, children, levels, most, next, list)?;
    }
    Ok(())
}

/// Notes rule 3 at the place of the instance of this number, if the list has it.
fn note_count(list: &[Instance], number: usize, found: &mut Option<Violation>)
    ensures { found.new ≡ noted found.old (spec.count_violations (slice_get list.now number)) }
{
    if let Some(instance) = list.get(number) {
        note(
            found,
            Violation {
                file: instance.file,
                token: instance.token,
                rule: COUNT_RULE,
            },
        );
    }
}

/// The instances of a design in preorder, of which there are at most 1,000: each top, and behind it
/// each of its children with those inside it, to so many levels. `children` has what each module
/// instantiates, by its number, and `tops` the modules that none instantiates. The 1,001st instance
/// breaks rule 3 where its module is named; the list ends there. NoMemory where no memory was found.
pub fn instances_of(
    alloc: Global,
    children: &[Items<Child>],
    levels: usize,
    tops: &[Child],
    found: &mut Option<Violation>,
) -> Result<Items<Instance>, NoMemory>
    ensures { spec.Lists children.now levels tops.now MOST_INSTANCES found.old result found.new }
{
    let mut list = Items::new(alloc);
    add_tops(alloc, children, levels, MOST_INSTANCES + 1, tops, &mut list)?;
    note_count(list.as_slice(), MOST_INSTANCES, found);
    Ok(list)
}
