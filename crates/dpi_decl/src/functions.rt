//! The C functions that imports call (IEEE 1800-2017, 35.4; ISO C 6.2.2).
ghost use Rattle.std.specs.Prelude.{◌≡◌, ◌≤◌, length, map, option_map, IfOk};
ghost use Rattle.dpi_table.specs.Files.{in_file};
ghost use Rattle.c_functions.specs.Declarations.{told, known_of};
ghost use Rattle.dpi_links.specs.Functions.{bodies_of};
ghost use Rattle.dpi_decl.specs.Functions as spec;

use c_functions::{Declaration, declarations_of};
use c_program::CFunction;
use c_tree::CFile;
use dpi_links::{Bodies, shared_bodies};
use dpi_numbered::next;
use dpi_ports::NoMemory;
use dpi_table::Tables;
use std::alloc::Global;
use sv_design::Import;

/// The numbers of functions by file and token: of several at one token the first counts.
fn numbers_of(alloc: Global, functions: &[CFunction]) -> Result<Tables<u32>, NoMemory>
    ensures { IfOk result (λ numbers. in_file numbers ≡ spec.numbers_in functions.now) }
{
    let mut numbers = Tables::new(alloc);
    let mut number = 0;
    for function in functions {
        numbers.put(alloc, function.file, function.token, number)?;
        number = next(number)?;
    }
    Ok(numbers)
}

/// The number of the function that has this body, if it is one.
fn body_number(numbers: &Tables<u32>, body: Option<Declaration<'_>>) -> Option<u32>
    ensures { result ≡ spec.body_number (in_file numbers.now) (option_map told body.entry) }
{
    match body {
        None => None,
        Some(body) => numbers.get(body.file, body.function.name.token),
    }
}

/// The numbers of the functions that imports call, by the bodies of each name in C.
fn functions_by(
    alloc: Global,
    numbers: &Tables<u32>,
    bodies: &Bodies<'_>,
    imports: &[Import],
) -> Result<Vec<Option<u32>>, NoMemory>
    ensures { IfOk result (λ list. list.items ≡ map (spec.import_function (in_file numbers.now) (bodies_of bodies.now)) imports.now) }
{
    let mut list = Vec::new(alloc);
    for import in imports {
        list.push(body_number(numbers, bodies.get(import.c_name.as_slice())))?;
    }
    Ok(list)
}

/// For each import the position in the list of the function that it calls: the one that isn't `static`
/// and has the import's name in C, at its body. None where there is none. There are at most 1,000
/// files. NoMemory where no memory was found.
pub fn imported_functions(
    alloc: Global,
    files: &[CFile],
    functions: &[CFunction],
    imports: &[Import],
) -> Result<Vec<Option<u32>>, NoMemory>
    requires { length files.now ≤ 1000 }
    ensures { IfOk result (λ list. list.items ≡ map (spec.function_by (known_of files.now) functions.now) imports.now) }
{
    let table = declarations_of(alloc, files)?;
    let bodies = shared_bodies(alloc, table.as_slice())?;
    let numbers = numbers_of(alloc, functions)?;
    let list = functions_by(alloc, &numbers, &bodies, imports)?;
    Ok(list)
}
