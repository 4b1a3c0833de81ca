//! The modules of all files, by number and by name (IEEE 1800-2017, 23.2).

ghost use Rattle.std.specs.Prelude.{◌≡◌, ◌≤◌, ◌++◌, length, map, IfOk, OnOk, ℕ, List};
ghost use Rattle.dpi_rules.specs.Least.{noted};
ghost use Rattle.sv_instances.specs.Modules as spec;

use dpi_ports::NoMemory;
use dpi_rules::{Violation, note};
use std::alloc::Global;
use std::collections::BTreeMap;
use sv_tree::{Module, SvFile};

/// The rule on second modules of one name.
const SECOND_RULE: u8 = 1;

/// A module and its file.
#[derive(Clone, Copy)]
pub struct Placed<'a> {
    /// The number of the file, from 0.
    pub file: u32,
    /// The module.
    pub tree: &'a Module,
}

/// Adds the modules of one file.
fn add_file<'a>(
    list: &mut Vec<Placed<'a>>,
    file: u32,
    modules: &'a [Module],
) -> Result<(), NoMemory>
    ensures { OnOk result (map spec.told list.new.items ≡ map spec.told list.old.items ++ map (spec.in_file file) modules.now) }
{
    for tree in modules {
        list.push(Placed { file, tree })?;
    }
    Ok(())
}

/// The modules of the files in text order. There are at most 1,000 files. NoMemory where no memory
/// was found.
pub fn modules_of<'a>(alloc: Global, files: &'a [SvFile]) -> Result<Vec<Placed<'a>>, NoMemory>
    requires { length files.now ≤ 1000 }
    ensures { IfOk result (λ list. map spec.told list.items ≡ spec.modules_in files.now) }
{
    let mut list = Vec::new(alloc);
    let mut number = 0;
    for file in files {
        add_file(&mut list, number, file.modules.as_slice())?;
        number += 1;
    }
    Ok(list)
}

/// The modules of all files by their names: a name means the first module that has it.
#[derive(Drop)]
pub struct Numbers<'a> {
    numbers: BTreeMap<&'a [u8], usize>,
}

impl<'a> Numbers<'a> {
    /// The number of the first module of this name; None where there is none.
    pub fn get(&self, name: &[u8]) -> Option<usize>
        ensures { result ≡ spec.numbers_of self.now.numbers name.now }
    {
        self.numbers.get(name).copied()
    }
}

/// Notes rule 1 at the name of a module, where an earlier one has its name.
fn note_second(file: u32, tree: &Module, earlier: Option<usize>, found: &mut Option<Violation>)
    ensures { found.new ≡ noted found.old (spec.second file tree.now.name earlier) }
{
    if earlier.is_some() {
        note(
            found,
            Violation {
                file,
                token: tree.name.token,
                rule: SECOND_RULE,
            },
        );
    }
}

/// One more module, of this number.
fn add_number<'a>(
    numbers: &mut BTreeMap<&'a [u8], usize>,
    name: &'a [u8],
    number: usize,
) -> Result<(), NoMemory>
    ensures { OnOk result ((q : List ℕ) → spec.numbers_of numbers.new q ≡ spec.added (spec.numbers_of numbers.old) name.now number q) }
{
    if numbers.get(name).is_none() {
        numbers.insert(name, number)?;
    }
    Ok(())
}

/// The modules by their names. Rule 1 is noted at the name of each module that has the name of an
/// earlier one. NoMemory where no memory was found.
pub fn numbers_of<'a>(
    alloc: Global,
    modules: &[Placed<'a>],
    found: &mut Option<Violation>,
) -> Result<Numbers<'a>, NoMemory>
    ensures { spec.Numbered (map spec.told modules.now) found.old result found.new }
{
    let mut numbers = BTreeMap::new(alloc);
    let mut number = 0;
    for placed in modules {
        let name = placed.tree.name.bytes.as_slice();
        note_second(placed.file, placed.tree, numbers.get(name).copied(), found);
        add_number(&mut numbers, name, number)?;
        number += 1;
    }
    Ok(Numbers { numbers })
}
