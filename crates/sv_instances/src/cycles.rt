//! Items that stand on a cycle of modules (IEEE 1800-2017, 23.3).

ghost use Rattle.std.specs.Prelude.{◌≡◌, ◌<◌, ◌++◌, [], ◌∷◌, length, flat_map, true, false, IfOk, OnOk, ℕ};
ghost use Rattle.dpi_rules.specs.Least.{noted};
ghost use Rattle.sv_instances.specs.Tops.{marked};
ghost use Rattle.sv_instances.specs.Cycles as spec;

use crate::preorder::{Child, children_of};
use crate::tops::{mark, marked};
use dpi_ports::NoMemory;
use dpi_rules::{Violation, note};
use sqlite_items::Items;
use std::alloc::Global;
use std::mem::swap;

/// The rule on items that stand on a cycle.
const CYCLE_RULE: u8 = 2;

/// Marks a module and adds it to the list, unless it has its mark.
fn add_fresh(marks: &mut [bool], list: &mut Vec<usize>, number: usize) -> Result<(), NoMemory>
    ensures { OnOk result (spec.IsSpread marks.old list.old.items (number ∷ []) marks.new list.new.items) }
{
    if !marked(marks, number) {
        mark(marks, number);
        list.push(number)?;
    }
    Ok(())
}

/// The same for the modules that these items instantiate.
fn add_row(marks: &mut [bool], list: &mut Vec<usize>, row: &[Child]) -> Result<(), NoMemory>
    ensures { OnOk result (spec.IsSpread marks.old list.old.items (spec.numbers_in row.now) marks.new list.new.items) }
{
    for child in row {
        add_fresh(marks, list, child.module_number)?;
    }
    Ok(())
}

/// Marks the modules that those of a layer instantiate. The next layer is those that had no mark.
fn next_layer(
    children: &[Items<Child>],
    marks: &mut [bool],
    layer: &[usize],
    next: &mut Vec<usize>,
) -> Result<(), NoMemory>
    ensures { OnOk result (spec.IsSpread marks.old [] (flat_map (spec.parts children.now) layer.now) marks.new next.new.items) }
{
    next.clear();
    for number in layer {
        add_row(marks, next, children_of(children, *number))?;
    }
    Ok(())
}

/// Marks the modules that this one leads to, layer by layer, where none has a mark before.
fn mark_reached(
    alloc: Global,
    children: &[Items<Child>],
    marks: &mut [bool],
    from: usize,
) -> Result<(), NoMemory>
    requires long { length marks.old ≡ length children.now }
    requires blank { (k : ℕ) → marked marks.old k ≡ false }
    ensures { OnOk result ((k : ℕ) → k < length children.now
        → marked marks.new k ≡ spec.is_in (spec.reached children.now from (length children.now)) k) }
{
    mark(marks, from);
    let mut layer = Vec::new(alloc);
    layer.push(from)?;
    let mut next = Vec::new(alloc);
    for _turn in 0..children.len() {
        if layer.is_empty() {
            return Ok(());
        }
        next_layer(children, marks, &layer, &mut next)?;
        swap(&mut layer, &mut next);
    }
    Ok(())
}

/// For each module, whether this one leads to it.
fn reach(alloc: Global, children: &[Items<Child>], from: usize) -> Result<Vec<bool>, NoMemory>
    ensures { IfOk result (λ r. (k : ℕ) → k < length children.now
        → marked r.items k ≡ spec.is_in (spec.reached children.now from (length children.now)) k) }
{
    let mut marks = vec![in alloc; false; children.len()]?;
    mark_reached(alloc, children, &mut marks, from)?;
    Ok(marks)
}

/// Whether all that these items instantiate is marked.
fn are_marked(marks: &[bool], row: &[Child]) -> bool
    ensures { result ≡ spec.are_marked marks.now row.now }
{
    for child in row {
        if !marked(marks, child.module_number) {
            return false;
        }
    }
    true
}

/// Marks a module as free of cycles, where it has no mark and all that it instantiates has one.
fn settle(children: &[Items<Child>], marks: &mut [bool], number: usize)
    requires { spec.AreFree children.now marks.old }
    ensures { spec.AreFree children.now marks.new }
{
    if !marked(marks, number) && are_marked(marks, children_of(children, number)) {
        mark(marks, number);
    }
}

/// Marks modules that are free of cycles, upwards and then downwards: each of them, where all modules
/// stand behind those that they instantiate, or all before them.
fn settle_all(children: &[Items<Child>], marks: &mut [bool])
    requires { spec.AreFree children.now marks.old }
    ensures { spec.AreFree children.now marks.new }
{
    let count = children.len();
    for number in 0..count {
        settle(children, marks, number);
    }
    for number in 0..count {
        settle(children, marks, count - 1 - number);
    }
}

/// For some modules, that none of their items stands on a cycle.
fn free_modules(alloc: Global, children: &[Items<Child>]) -> Result<Vec<bool>, NoMemory>
    ensures { IfOk result (λ r. spec.AreFree children.now r.items) }
{
    let mut marks = vec![in alloc; false; children.len()]?;
    settle_all(children, &mut marks);
    Ok(marks)
}

/// Whether an item of the module of this number stands on a cycle.
fn is_cyclic(
    alloc: Global,
    children: &[Items<Child>],
    free: bool,
    number: usize,
    child: &Child,
) -> Result<bool, NoMemory>
    requires inside { number < length children.now }
    requires free { free ≡ true → spec.is_cyclic children.now number child.now ≡ false }
    ensures { IfOk result (λ r. r ≡ spec.is_cyclic children.now number child.now) }
{
    if free {
        return Ok(false);
    }
    let marks = reach(alloc, children, child.module_number)?;
    Ok(marked(&marks, number))
}

/// Notes rule 2 at the module's name in an item, if the item stands on a cycle.
fn note_cycle(cyclic: bool, child: &Child, found: &mut Option<Violation>)
    ensures { found.new ≡ noted found.old (spec.cycle cyclic child.now) }
{
    if cyclic {
        note(
            found,
            Violation {
                file: child.file,
                token: child.token,
                rule: CYCLE_RULE,
            },
        );
    }
}

/// Adds an item, unless it stands on a cycle.
fn keep(alloc: Global, list: &mut Items<Child>, cyclic: bool, child: &Child) -> Result<(), NoMemory>
    ensures { OnOk result (list.new ≡ list.old ++ spec.unless_cyclic cyclic child.now) }
{
    if cyclic {
        return Ok(());
    }
    list.push(Child {
        module_number: child.module_number,
        file: child.file,
        token: child.token,
        name: Items::from_slice(alloc, child.name.as_slice())?,
    })?;
    Ok(())
}

/// The items of a module that stand on no cycle; rule 2 is noted at the others.
fn sift_row(
    alloc: Global,
    children: &[Items<Child>],
    free: bool,
    number: usize,
    row: &[Child],
    found: &mut Option<Violation>,
) -> Result<Items<Child>, NoMemory>
    requires inside { number < length children.now }
    requires free { free ≡ true → (j : ℕ) → spec.is_in (spec.numbers_in row.now) j ≡ true
        → spec.is_in (spec.reached children.now j (length children.now)) number ≡ false }
    ensures kept { IfOk result (λ r. r ≡ spec.acyclic_row children.now number row.now) }
    ensures refused { OnOk result (found.new
        ≡ noted found.old (flat_map (λ c. spec.cycle (spec.is_cyclic children.now number c) c) row.now)) }
{
    let mut list = Items::new(alloc);
    for child in row {
        let cyclic = is_cyclic(alloc, children, free, number, child)?;
        note_cycle(cyclic, child, found);
        keep(alloc, &mut list, cyclic, child)?;
    }
    Ok(list)
}

/// What each module instantiates, by the number of the module, without the items that stand on a
/// cycle: those whose instance would contain one of the same item again. Rule 2 is noted at the
/// module's name in each of them. An item that only leads to a cycle stays. NoMemory where no memory was found.
pub fn without_cycles(
    alloc: Global,
    children: &[Items<Child>],
    found: &mut Option<Violation>,
) -> Result<Items<Items<Child>>, NoMemory>
    ensures kept { IfOk result (λ r. r ≡ spec.acyclic children.now) }
    ensures refused { OnOk result (found.new ≡ noted found.old (spec.cycle_violations children.now)) }
{
    let marks = free_modules(alloc, children)?;
    let mut table = Items::new(alloc);
    let mut number = 0;
    for row in children {
        let free = marked(&marks, number);
        table.push(sift_row(alloc, children, free, number, row.as_slice(), found)?)?;
        number += 1;
    }
    Ok(table)
}
