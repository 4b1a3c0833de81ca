//! Modules and instances over all files (IEEE 1800-2017, 23.2, 23.3).
ghost use Rattle.std.specs.Prelude.{◌≡◌, map, take, IfOk, OnOk};
ghost use Rattle.dpi_rules.specs.Least.{noted};
ghost use Rattle.sv_instances.specs.Modules.{told};
ghost use Rattle.sv_scopes.specs.Instances as spec;

use dpi_ports::NoMemory;
use dpi_rules::Violation;
use sqlite_items::Items;
use std::alloc::Global;
use sv_instances::{
    Instance, Numbers, Placed, all_children, instances_of, note_unknown, numbers_of, tops_of,
    without_cycles,
};

/// The instances of these modules in preorder, to so many levels; the list ends behind the 1,001st.
/// What modules and instances violate is noted: rule 1 at the name of a second module of one name,
/// rule 2 at the module's name of an instance of an unknown module or on a cycle, rule 3 where the
/// module of the 1,001st instance is named. NoMemory where no memory was found.
pub fn listed_instances(
    alloc: Global,
    levels: usize,
    modules: &[Placed<'_>],
    found: &mut Option<Violation>,
) -> Result<Items<Instance>, NoMemory>
    ensures listed { IfOk result (λ list. list ≡ take 1001 (spec.instances levels (map told modules.now))) }
    ensures broken { OnOk result (found.new ≡ noted found.old (spec.instance_violations levels (map told modules.now))) }
{
    let numbers = numbers_of(alloc, modules, found)?;
    note_unknown(&numbers, modules, found);
    let all = all_children(alloc, &numbers, modules)?;
    let kept = without_cycles(alloc, all.as_slice(), found)?;
    let tops = tops_of(alloc, kept.as_slice(), modules)?;
    let list = instances_of(alloc, kept.as_slice(), levels, tops.as_slice(), found)?;
    Ok(list)
}
