//! The modules that no module instantiates (IEEE 1800-2017, 23.3.1).

ghost use Rattle.std.specs.Prelude.{◌≡◌, ◌==◌, ◌<◌, ◌++◌, length, map, IfOk, OnOk, ℕ};
ghost use Rattle.sv_instances.specs.Modules.{told};
ghost use Rattle.sv_instances.specs.Tops as spec;

use crate::modules::Placed;
use crate::preorder::Child;
use dpi_ports::NoMemory;
use sqlite_items::Items;
use std::alloc::Global;

/// Marks this number, if there is a mark for it.
pub(crate) fn mark(marks: &mut [bool], number: usize)
    ensures { spec.Marks marks.old (λ k. number == k) marks.new }
{
    if number < marks.len() {
        marks[number] = true;
    }
}

/// Marks the modules of these instances.
fn mark_row(marks: &mut [bool], row: &[Child])
    ensures { spec.Marks marks.old (spec.is_among row.now) marks.new }
{
    for child in row {
        mark(marks, child.module_number);
    }
}

/// Marks the modules that some module instantiates.
fn mark_table(marks: &mut [bool], children: &[Items<Child>])
    ensures { spec.Marks marks.old (spec.is_instantiated children.now) marks.new }
{
    for row in children {
        mark_row(marks, row.as_slice());
    }
}

/// The mark of this number.
pub(crate) fn marked(marks: &[bool], number: usize) -> bool
    ensures { result ≡ spec.marked marks.now number }
{
    match marks.get(number) {
        Some(mark) => *mark,
        None => false,
    }
}

/// For each of so many modules, whether some module instantiates it.
fn marks_of(alloc: Global, children: &[Items<Child>], count: usize) -> Result<Vec<bool>, NoMemory>
    ensures { IfOk result (λ r. (k : ℕ) → k < count → spec.marked r.items k ≡ spec.is_instantiated children.now k) }
{
    let mut marks = vec![in alloc; false; count]?;
    mark_table(&mut marks, children);
    Ok(marks)
}

/// Adds a module as a top, unless some module instantiates it.
fn add_top(
    alloc: Global,
    list: &mut Items<Child>,
    instantiated: bool,
    number: usize,
    placed: Placed<'_>,
) -> Result<(), NoMemory>
    ensures { OnOk result (list.new ≡ list.old ++ spec.unless_instantiated instantiated number (told placed.entry)) }
{
    if instantiated {
        return Ok(());
    }
    let name = &placed.tree.name;
    list.push(Child {
        module_number: number,
        file: placed.file,
        token: name.token,
        name: Items::from_slice(alloc, name.bytes.as_slice())?,
    })?;
    Ok(())
}

/// The modules that none instantiates, in text order, by what each module instantiates. Each stands
/// at its name in its header. NoMemory where no memory was found.
pub fn tops_of(
    alloc: Global,
    children: &[Items<Child>],
    modules: &[Placed<'_>],
) -> Result<Items<Child>, NoMemory>
    ensures { IfOk result (λ r. r ≡ spec.tops children.now (map told modules.now)) }
{
    let marks = marks_of(alloc, children, modules.len())?;
    let mut list = Items::new(alloc);
    let mut number = 0;
    for placed in modules {
        add_top(alloc, &mut list, marked(&marks, number), number, *placed)?;
        number += 1;
    }
    Ok(list)
}
