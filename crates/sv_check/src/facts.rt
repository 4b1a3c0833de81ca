//! What names mean in all files, and the types of expressions (IEEE 1800-2017, 11.6 and 23.9).
ghost use Rattle.std.specs.Prelude.{◌≡◌, ◌≤◌, length, map, IfOk};
ghost use Rattle.std.specs.Vec.{vec_items};
ghost use Rattle.sv_check.specs.Facts as spec;

use dpi_ports::NoMemory;
use std::alloc::Global;
use sv_facts::Fact;
use sv_tree::SvFile;

/// The facts of each file. There are at most 1,000 files. NoMemory where no memory was found.
pub(crate) fn facts_of(alloc: Global, files: &[SvFile]) -> Result<Vec<Vec<Fact>>, NoMemory>
    requires { length files.now ≤ 1000 }
    ensures { IfOk result (λ list. map vec_items list.items ≡ spec.facts_from 0 files.now) }
{
    let mut list = Vec::new(alloc);
    let mut number = 0;
    for file in files {
        list.push(sv_meanings::facts_of(alloc, number, file)?)?;
        number += 1;
    }
    Ok(list)
}
