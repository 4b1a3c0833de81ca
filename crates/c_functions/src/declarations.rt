//! The declarations of functions in files (ISO C 6.2.2 and 6.9.1).
ghost use Rattle.std.specs.Prelude.{◌≡◌, ◌≤◌, ◌++◌, length, map, flat_map, IfOk, OnOk};
ghost use Rattle.c_functions.specs.Declarations as spec;

use crate::same::is_known;
use crate::statics::{Statics, statics_of};
use c_tree::{Body, CFile, External, Function};
use dpi_ports::NoMemory;
use sqlite_items::Items;
use std::alloc::Global;

/// A declaration of a function: a prototype, or its body.
#[derive(Clone, Copy)]
pub struct Declaration<'a> {
    /// The number of the file, from 0.
    pub file: u32,
    /// The declaration.
    pub function: &'a Function,
    /// Whether the function is static in this file: one of its declarations there is.
    pub is_static: bool,
    /// Whether no part of the type is refused.
    pub is_known: bool,
}

/// Whether this is a body.
pub(crate) fn has_body(body: &Body) -> bool
    ensures { result ≡ spec.has_body body.now }
{
    matches!(body, Body::Block(_))
}

fn add_declaration<'a>(
    list: &mut Items<Declaration<'a>>,
    file: u32,
    statics: &Statics<'a>,
    external: &'a External,
) -> Result<(), NoMemory>
    ensures { OnOk result (map spec.told list.new ≡ map spec.told list.old ++ spec.external_known file (spec.has statics.now) external.now) }
{
    if let External::Function(function) = external {
        list.push(Declaration {
            file,
            function,
            is_static: statics.has(function.name.bytes.as_slice()),
            is_known: is_known(function),
        })?;
    }
    Ok(())
}

fn listed<'a>(
    alloc: Global,
    file: u32,
    statics: &Statics<'a>,
    externals: &'a [External],
) -> Result<Items<Declaration<'a>>, NoMemory>
    ensures { IfOk result (λ list. map spec.told list ≡ flat_map (spec.external_known file (spec.has statics.now)) externals.now) }
{
    let mut list = Items::new(alloc);
    for external in externals {
        add_declaration(&mut list, file, statics, external)?;
    }
    Ok(list)
}

/// The declarations of functions in the file of this number, in text order. NoMemory where no memory
/// was found.
fn declarations_in<'a>(
    alloc: Global,
    file: u32,
    tree: &'a CFile,
) -> Result<Items<Declaration<'a>>, NoMemory>
    ensures { IfOk result (λ list. map spec.told list ≡ spec.known_in file tree.now) }
{
    let externals = tree.externals.as_slice();
    let statics = statics_of(alloc, externals)?;
    listed(alloc, file, &statics, externals)
}

/// The declarations of functions in each file, in text order: prototypes and bodies. There are at
/// most 1,000 files. NoMemory where no memory was found.
pub fn declarations_of<'a>(
    alloc: Global,
    files: &'a [CFile],
) -> Result<Items<Items<Declaration<'a>>>, NoMemory>
    requires { length files.now ≤ 1000 }
    ensures { IfOk result (λ table. map (map spec.told) table ≡ spec.known_of files.now) }
{
    let mut table = Items::new(alloc);
    let mut number = 0;
    for file in files {
        table.push(declarations_in(alloc, number, file)?)?;
        number += 1;
    }
    Ok(table)
}
