//! The numbers of objects by the tokens that declare them (ISO C 6.2.2).

ghost use Rattle.std.specs.Prelude.{◌≡◌, IfOk, OnOk, map};
ghost use Rattle.dpi_table.specs.Files.{in_file};
ghost use Rattle.dpi_table.specs.Firsts.{first_with, or_values};
ghost use Rattle.c_functions.specs.Objects.{told};
ghost use Rattle.c_lookup.specs.Names.{named, or_names};
ghost use Rattle.c_lookup.specs.Objects as spec;

use crate::names::Named;
use crate::numbers::put_number;
use c_functions::Object;
use dpi_ports::NoMemory;
use dpi_table::Tables;
use std::alloc::Global;

/// Adds the number of the object that is defined here for all files, by its name, unless this is an
/// `extern` declaration.
fn add_defined<'a>(
    names: &mut Named<'a>,
    positions: &Tables<u32>,
    object: Object<'a>,
) -> Result<(), NoMemory>
    ensures { OnOk result (named names.new ≡ or_names (named names.old) (spec.object_named (in_file positions.now) (told object.entry))) }
{
    if !object.is_extern {
        let number = positions.get(object.file, object.name.token);
        names.add(object.name.bytes.as_slice(), number)?;
    }
    Ok(())
}

/// The numbers of the objects that files define for all files, by name.
fn defined_numbers<'a>(
    alloc: Global,
    positions: &Tables<u32>,
    objects: &[Object<'a>],
) -> Result<Named<'a>, NoMemory>
    ensures { IfOk result (λ names. named names ≡ spec.objects_named (in_file positions.now) (map told objects.now)) }
{
    let mut names = Named::new(alloc);
    for object in objects {
        add_defined(&mut names, positions, *object)?;
    }
    Ok(names)
}

/// Adds the number of what an `extern` declaration means.
fn add_extern(
    alloc: Global,
    numbers: &mut Tables<u32>,
    names: &Named<'_>,
    object: Object<'_>,
) -> Result<(), NoMemory>
    ensures { OnOk result (in_file numbers.new ≡ or_values (in_file numbers.old) (spec.extern_at (named names.now) (told object.entry))) }
{
    if object.is_extern {
        let number = names.get(object.name.bytes.as_slice());
        put_number(alloc, numbers, object.file, object.name.token, number)?;
    }
    Ok(())
}

/// Adds those of several declarations.
fn add_externs(
    alloc: Global,
    numbers: &mut Tables<u32>,
    names: &Named<'_>,
    objects: &[Object<'_>],
) -> Result<(), NoMemory>
    ensures { OnOk result (in_file numbers.new ≡ or_values (in_file numbers.old) (first_with (spec.extern_at (named names.now)) (map told objects.now))) }
{
    for object in objects {
        add_extern(alloc, numbers, names, *object)?;
    }
    Ok(())
}

/// The numbers of objects at the names that declare them: their positions at those that define
/// them, and at `extern` declarations the position of the object that is defined under the name.
/// NoMemory where no memory was found.
pub(crate) fn object_numbers(
    alloc: Global,
    mut positions: Tables<u32>,
    objects: &[Object<'_>],
) -> Result<Tables<u32>, NoMemory>
    ensures { IfOk result (λ numbers. in_file numbers ≡ spec.objects_at (in_file positions) (map told objects.now)) }
{
    let names = defined_numbers(alloc, &positions, objects)?;
    add_externs(alloc, &mut positions, &names, objects)?;
    Ok(positions)
}
