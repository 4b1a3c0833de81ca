//! What names mean in all files, and the types of expressions (ISO C 6.2.1 and 6.5).
ghost use Rattle.std.specs.Prelude.{◌≡◌, ◌≤◌, length, map, IfOk};
ghost use Rattle.std.specs.Vec.{vec_items};
ghost use Rattle.c_check.specs.Facts as spec;

use c_facts::CFact;
use c_tree::CFile;
use dpi_ports::NoMemory;
use std::alloc::Global;

/// The facts of each file. There are at most 1,000 files. NoMemory where no memory was found.
pub(crate) fn facts_of(alloc: Global, files: &[CFile]) -> Result<Vec<Vec<CFact>>, NoMemory>
    requires { length files.now ≤ 1000 }
    ensures { IfOk result (λ list. map vec_items list.items ≡ spec.facts_from 0 files.now) }
{
    let mut list = Vec::new(alloc);
    let mut number = 0;
    for file in files {
        list.push(c_meanings::facts_of(alloc, number, file)?)?;
        number += 1;
    }
    Ok(list)
}
