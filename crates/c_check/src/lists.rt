//! The tables of a program that are made of its lists.
ghost use Rattle.std.specs.Prelude.{◌≡◌, ◌≤◌, length, IfOk};
ghost use Rattle.c_program.specs.Functions.{functions_of};
ghost use Rattle.c_program.specs.Objects.{objects_of};
ghost use Rattle.c_lookup.specs.Meanings.{meanings_of, lookup_types};
ghost use Rattle.c_check.specs.Facts.{meanings_in, types_in};

use crate::facts::facts_of;
use c_lookup::CLookup;
use c_program::{CFunction, CObject};
use c_tree::CFile;
use dpi_ports::NoMemory;
use std::alloc::Global;

/// What names mean in files with these lists, and the types of expressions. NoMemory where no memory
/// was found.
pub(crate) fn lookup_of(
    alloc: Global,
    files: &[CFile],
    functions: &[CFunction],
    objects: &[CObject],
) -> Result<CLookup, NoMemory>
    requires few { length files.now ≤ 1000 }
    requires functions { functions.now ≡ functions_of files.now }
    requires objects { objects.now ≡ objects_of files.now }
    ensures meanings { IfOk result (λ l. meanings_of l ≡ meanings_in files.now) }
    ensures types { IfOk result (λ l. lookup_types l ≡ types_in files.now) }
{
    let facts = facts_of(alloc, files)?;
    let lookup = CLookup::of(alloc, files, &facts, functions, objects)?;
    Ok(lookup)
}
