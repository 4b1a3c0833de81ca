//! The objects that files share: definitions at file scope without `static`, and `extern` declarations
//! anywhere (ISO C 6.2.2 and 6.9.2).
ghost use Rattle.std.specs.Prelude.{◌≡◌, ◌≤◌, ◌++◌, length, map, flat_map, true, IfOk, OnOk};
ghost use Rattle.c_functions.specs.Inner.{seen};
ghost use Rattle.c_functions.specs.Objects as spec;

use crate::defines::Defines;
use crate::inner::externs_in;
use crate::sizes::{ObjectType, object_type};
use c_tree::{Body, CFile, CType as TypeTree, Declarator, External, Name, StoreKind, Variables};
use dpi_ports::NoMemory;
use sqlite_items::Items;
use std::alloc::Global;

/// A definition of an object that files share, or an `extern` declaration of one.
#[derive(Clone, Copy)]
pub struct Object<'a> {
    /// The number of the file, from 0.
    pub file: u32,
    /// Its name.
    pub name: &'a Name,
    /// Its type and size; None where a part of them is refused.
    pub of: Option<ObjectType>,
    /// Whether this is an `extern` declaration, else it is a definition.
    pub is_extern: bool,
}

fn add_declarators<'a>(
    list: &mut Items<Object<'a>>,
    file: u32,
    defines: &Defines<'a>,
    is_extern: bool,
    kind: &TypeTree,
    declarators: &'a [Declarator],
) -> Result<(), NoMemory>
    ensures { OnOk result (map spec.told list.new ≡ map spec.told list.old ++ map (spec.declared_object file (spec.names_of defines.now) is_extern kind.now) declarators.now) }
{
    for declarator in declarators {
        list.push(Object {
            file,
            name: &declarator.name,
            of: object_type(defines, kind, declarator),
            is_extern,
        })?;
    }
    Ok(())
}

fn add_variables<'a>(
    list: &mut Items<Object<'a>>,
    file: u32,
    defines: &Defines<'a>,
    is_extern: bool,
    variables: &'a Variables,
) -> Result<(), NoMemory>
    ensures { OnOk result (map spec.told list.new ≡ map spec.told list.old ++ spec.variables_objects file (spec.names_of defines.now) is_extern variables.now) }
{
    let declarators = variables.declarators.as_slice();
    add_declarators(list, file, defines, is_extern, &variables.kind, declarators)
}

fn add_outer<'a>(
    list: &mut Items<Object<'a>>,
    file: u32,
    defines: &Defines<'a>,
    variables: &'a Variables,
) -> Result<(), NoMemory>
    ensures { OnOk result (map spec.told list.new ≡ map spec.told list.old ++ spec.outer_objects file (spec.names_of defines.now) variables.now variables.now.store) }
{
    match &variables.store {
        None => add_variables(list, file, defines, false, variables),
        Some(store) => match store.kind {
            StoreKind::Static => Ok(()),
            StoreKind::Extern => add_variables(list, file, defines, true, variables),
        },
    }
}

fn add_externs<'a>(
    list: &mut Items<Object<'a>>,
    file: u32,
    defines: &Defines<'a>,
    externs: &[&'a Variables],
) -> Result<(), NoMemory>
    ensures { OnOk result (map spec.told list.new ≡ map spec.told list.old ++ flat_map (spec.variables_objects file (spec.names_of defines.now) true) (seen externs.now)) }
{
    for variables in externs {
        add_variables(list, file, defines, true, variables)?;
    }
    Ok(())
}

fn add_inner<'a>(
    alloc: Global,
    list: &mut Items<Object<'a>>,
    file: u32,
    defines: &Defines<'a>,
    body: &'a Body,
) -> Result<(), NoMemory>
    ensures { OnOk result (map spec.told list.new ≡ map spec.told list.old ++ spec.body_objects file (spec.names_of defines.now) body.now) }
{
    if let Body::Block(block) = body {
        let externs = externs_in(alloc, block)?;
        add_externs(list, file, defines, externs.as_slice())?;
    }
    Ok(())
}

fn add_external<'a>(
    alloc: Global,
    list: &mut Items<Object<'a>>,
    file: u32,
    defines: &Defines<'a>,
    external: &'a External,
) -> Result<(), NoMemory>
    ensures { OnOk result (map spec.told list.new ≡ map spec.told list.old ++ spec.external_objects file (spec.names_of defines.now) external.now) }
{
    match external {
        External::Define(_) => Ok(()),
        External::Function(function) => add_inner(alloc, list, file, defines, &function.body),
        External::Variables(variables) => add_outer(list, file, defines, variables),
    }
}

fn add_externals<'a>(
    alloc: Global,
    list: &mut Items<Object<'a>>,
    file: u32,
    externals: &'a [External],
) -> Result<(), NoMemory>
    ensures { OnOk result (map spec.told list.new ≡ map spec.told list.old ++ spec.objects_behind file spec.no_names externals.now) }
{
    let mut defines = Defines::new(alloc);
    for external in externals {
        add_external(alloc, list, file, &defines, external)?;
        defines.add_of(external)?;
    }
    Ok(())
}

/// The objects that the files define for all files, and their `extern` declarations, in text order.
/// There are at most 1,000 files. NoMemory where no memory was found.
pub fn objects_of<'a>(alloc: Global, files: &'a [CFile]) -> Result<Items<Object<'a>>, NoMemory>
    requires { length files.now ≤ 1000 }
    ensures { IfOk result (λ list. map spec.told list ≡ spec.objects_of files.now) }
{
    let mut list = Items::new(alloc);
    let mut number = 0;
    for file in files {
        add_externals(alloc, &mut list, number, file.externals.as_slice())?;
        number += 1;
    }
    Ok(list)
}
