//! All rules over all files.
ghost use Rattle.std.specs.Prelude.{◌≡◌, ◌≤◌, length, flat_map, IfOk, None};
ghost use Rattle.dpi_rules.specs.Least.{noted};
ghost use Rattle.c_check.specs.Check as spec;

use c_forms::note_file;
use c_functions::{function_types, note_function_type, note_functions, note_objects};
use c_tree::{CFile, External};
use c_walk::walk_file;
use dpi_ports::NoMemory;
use dpi_rules::Violation;
use std::alloc::Global;

fn note_type(number: u32, external: &External, found: &mut Option<Violation>)
    ensures { found.new ≡ noted found.old (spec.written_violations number external.now) }
{
    if let External::Function(function) = external {
        note_function_type(number, function, found);
    }
}

/// Notes what the written types of functions violate.
fn note_types(number: u32, externals: &[External], found: &mut Option<Violation>)
    ensures { found.new ≡ noted found.old (flat_map (spec.written_violations number) externals.now) }
{
    for external in externals {
        note_type(number, external, found);
    }
}

/// Notes what a file violates by itself.
fn note_one(
    alloc: Global,
    number: u32,
    file: &CFile,
    found: &mut Option<Violation>,
) -> Result<(), NoMemory>
    ensures { IfOk result (λ _. found.new ≡ noted found.old (spec.file_violations number file.now)) }
{
    note_file(number, file, found);
    note_types(number, file.externals.as_slice(), found);
    let functions = function_types(alloc, file)?;
    walk_file(alloc, number, file, &functions, found)?;
    Ok(())
}

/// Notes what each file violates by itself.
fn note_each(alloc: Global, files: &[CFile], found: &mut Option<Violation>) -> Result<(), NoMemory>
    requires { length files.now ≤ 1000 }
    ensures { IfOk result (λ _. found.new ≡ noted found.old (spec.files_from 0 files.now)) }
{
    let mut number = 0;
    for file in files {
        note_one(alloc, number, file, found)?;
        number += 1;
    }
    Ok(())
}

/// The least violation of the files, of which there are at most 1,000; None where they break no rule.
/// NoMemory where no memory was found.
pub fn check(alloc: Global, files: &[CFile]) -> Result<Option<Violation>, NoMemory>
    requires { length files.now ≤ 1000 }
    ensures { IfOk result (λ v. v ≡ noted None (spec.violations files.now)) }
{
    let mut found = None;
    note_each(alloc, files, &mut found)?;
    note_functions(alloc, files, &mut found)?;
    note_objects(alloc, files, &mut found)?;
    Ok(found)
}
