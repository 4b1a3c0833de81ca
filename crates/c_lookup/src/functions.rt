//! The numbers of functions by the tokens that declare them (ISO C 6.2.2).

ghost use Rattle.std.specs.Prelude.{◌≡◌, true, false, IfOk, OnOk, map};
ghost use Rattle.dpi_table.specs.Files.{in_file};
ghost use Rattle.dpi_table.specs.Firsts.{first_with, or_values};
ghost use Rattle.c_functions.specs.Declarations.{told};
ghost use Rattle.c_lookup.specs.Names.{named, or_names};
ghost use Rattle.c_lookup.specs.Functions as spec;

use crate::names::Named;
use crate::numbers::put_number;
use c_functions::Declaration;
use dpi_ports::NoMemory;
use dpi_table::Tables;
use sqlite_items::Items;
use std::alloc::Global;

/// Adds the number of the entry that stands at a declaration, by its name, if it is static or not
/// as is said here.
fn add_number<'a>(
    names: &mut Named<'a>,
    positions: &Tables<u32>,
    is_static: bool,
    declaration: Declaration<'a>,
) -> Result<(), NoMemory>
    ensures { OnOk result (named names.new ≡ or_names (named names.old) (spec.entry_named (in_file positions.now) is_static (told declaration.entry))) }
{
    if declaration.is_static == is_static {
        let name = &declaration.function.name;
        let number = positions.get(declaration.file, name.token);
        names.add(name.bytes.as_slice(), number)?;
    }
    Ok(())
}

/// Adds those of several declarations.
fn add_numbers<'a>(
    names: &mut Named<'a>,
    positions: &Tables<u32>,
    is_static: bool,
    declarations: &[Declaration<'a>],
) -> Result<(), NoMemory>
    ensures { OnOk result (named names.new ≡ or_names (named names.old) (spec.entries_named (in_file positions.now) is_static (map told declarations.now))) }
{
    for declaration in declarations {
        add_number(names, positions, is_static, *declaration)?;
    }
    Ok(())
}

/// The numbers of a file's own functions.
fn own_numbers<'a>(
    alloc: Global,
    positions: &Tables<u32>,
    declarations: &[Declaration<'a>],
) -> Result<Named<'a>, NoMemory>
    ensures { IfOk result (λ names. named names ≡ spec.entries_named (in_file positions.now) true (map told declarations.now)) }
{
    let mut names = Named::new(alloc);
    add_numbers(&mut names, positions, true, declarations)?;
    Ok(names)
}

/// The numbers of the functions that all files share.
fn shared_numbers<'a>(
    alloc: Global,
    positions: &Tables<u32>,
    table: &[Items<Declaration<'a>>],
) -> Result<Named<'a>, NoMemory>
    ensures { IfOk result (λ names. named names ≡ spec.shared_named (in_file positions.now) (map (map told) table.now)) }
{
    let mut names = Named::new(alloc);
    for declarations in table {
        add_numbers(&mut names, positions, false, declarations.as_slice())?;
    }
    Ok(names)
}

/// The number of the function that is declared.
fn number_of(own: &Named<'_>, shared: &Named<'_>, declaration: Declaration<'_>) -> Option<u32>
    ensures { result ≡ spec.number_of (named own.now) (named shared.now) (told declaration.entry) }
{
    let name = declaration.function.name.bytes.as_slice();
    if declaration.is_static {
        own.get(name)
    } else {
        shared.get(name)
    }
}

/// Adds the numbers of a file's functions at its declarations.
fn add_declared(
    alloc: Global,
    numbers: &mut Tables<u32>,
    own: &Named<'_>,
    shared: &Named<'_>,
    declarations: &[Declaration<'_>],
) -> Result<(), NoMemory>
    ensures { OnOk result (in_file numbers.new ≡ or_values (in_file numbers.old) (first_with (spec.declared_at (named own.now) (named shared.now)) (map told declarations.now))) }
{
    for declaration in declarations {
        let number = number_of(own, shared, *declaration);
        let token = declaration.function.name.token;
        put_number(alloc, numbers, declaration.file, token, number)?;
    }
    Ok(())
}

/// Adds those of files.
fn add_files(
    alloc: Global,
    numbers: &mut Tables<u32>,
    positions: &Tables<u32>,
    shared: &Named<'_>,
    table: &[Items<Declaration<'_>>],
) -> Result<(), NoMemory>
    ensures { OnOk result (in_file numbers.new ≡ or_values (in_file numbers.old) (first_with (spec.file_at (in_file positions.now) (named shared.now)) (map (map told) table.now))) }
{
    for declarations in table {
        let declarations = declarations.as_slice();
        let own = own_numbers(alloc, positions, declarations)?;
        add_declared(alloc, numbers, &own, shared, declarations)?;
    }
    Ok(())
}

/// The numbers of functions at the names that declare them, by the positions of the functions'
/// entries. NoMemory where no memory was found.
pub(crate) fn function_numbers(
    alloc: Global,
    positions: &Tables<u32>,
    table: &[Items<Declaration<'_>>],
) -> Result<Tables<u32>, NoMemory>
    ensures { IfOk result (λ numbers. in_file numbers ≡ spec.functions_at (in_file positions.now) (map (map told) table.now)) }
{
    let shared = shared_numbers(alloc, positions, table)?;
    let mut numbers = Tables::new(alloc);
    add_files(alloc, &mut numbers, positions, &shared, table)?;
    Ok(numbers)
}
