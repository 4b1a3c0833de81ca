//! All rules over all files.
ghost use Rattle.std.specs.Prelude.{◌≡◌, ◌≤◌, length, take, IfOk, OnOk, None};
ghost use Rattle.dpi_rules.specs.Least.{noted};
ghost use Rattle.sv_instances.specs.Modules.{modules_in};
ghost use Rattle.sv_scopes.specs.Instances.{instances};
ghost use Rattle.sv_check.specs.Check as spec;

use crate::modules::note_modules;
use dpi_ports::NoMemory;
use dpi_rules::Violation;
use sqlite_items::Items;
use std::alloc::Global;
use sv_forms::note_file;
use sv_instances::{Instance, modules_of};
use sv_scopes::listed_instances;
use sv_tree::SvFile;

/// Notes what each file violates by its form alone.
fn note_forms(files: &[SvFile], found: &mut Option<Violation>)
    requires { length files.now ≤ 1000 }
    ensures { found.new ≡ noted found.old (spec.forms_from 0 files.now) }
{
    let mut number = 0;
    for file in files {
        note_file(number, file, found);
        number += 1;
    }
}

/// How many levels of instances are looked at: one more than there may be instances.
const LEVELS: usize = 1001;

/// Notes what the files violate. The answer is their instances in preorder, up to the 1,001st.
/// NoMemory where no memory was found.
pub(crate) fn note_files(
    alloc: Global,
    files: &[SvFile],
    found: &mut Option<Violation>,
) -> Result<Items<Instance>, NoMemory>
    requires { length files.now ≤ 1000 }
    ensures listed { IfOk result (λ list. list ≡ take 1001 (instances 1001 (modules_in files.now))) }
    ensures broken { OnOk result (found.new ≡ noted found.old (spec.violations files.now)) }
{
    note_forms(files, found);
    let modules = modules_of(alloc, files)?;
    let list = listed_instances(alloc, LEVELS, &modules, found)?;
    note_modules(alloc, &modules, found)?;
    Ok(list)
}

/// The least violation of the files, of which there are at most 1,000; None where they break no rule.
/// NoMemory where no memory was found.
pub fn check(alloc: Global, files: &[SvFile]) -> Result<Option<Violation>, NoMemory>
    requires { length files.now ≤ 1000 }
    ensures { IfOk result (λ v. v ≡ noted None (spec.violations files.now)) }
{
    let mut found = None;
    note_files(alloc, files, &mut found)?;
    Ok(found)
}
