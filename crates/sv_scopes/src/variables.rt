//! The variables of scopes (IEEE 1800-2017, 23.2.2).
ghost use Rattle.std.specs.Prelude.{◌≡◌, ◌≤◌, ◌++◌, map, length, IfOk, OnOk};
ghost use Rattle.sv_instances.specs.Modules.{modules_in};
ghost use Rattle.sv_scopes.specs.Variables as spec;

use crate::names::{Known, Named, all_names, numbers_of};
use crate::scopes::Scope;
use dpi_numbered::next;
use dpi_ports::NoMemory;
use sqlite_items::Items;
use std::alloc::Global;
use sv_design::Declaration;
use sv_instances::modules_of;
use sv_shapes::VarKind;
use sv_tree::SvFile;

/// A variable of a scope, which its module declares.
#[derive(Drop)]
pub struct Variable {
    /// The number of the scope.
    pub scope: u32,
    /// The number of its declaration.
    pub declaration: u32,
    /// Its name, without the scope's.
    pub name: Items<u8>,
    /// What it holds.
    pub kind: VarKind,
}

/// Adds variables to a scope.
fn add_variables(
    alloc: Global,
    scope: u32,
    names: &[Named],
    list: &mut Vec<Variable>,
) -> Result<(), NoMemory>
    ensures { OnOk result (list.new.items ≡ list.old.items ++ map (spec.variable scope) names.now) }
{
    for named in names {
        list.push(Variable {
            scope,
            declaration: named.declaration,
            name: Items::from_slice(alloc, named.name.as_slice())?,
            kind: named.kind,
        })?;
    }
    Ok(())
}

/// The variables of the module of this number.
fn names_of(table: &[Items<Named>], number: usize) -> &[Named]
    ensures { result.now ≡ spec.names_of table.now number }
{
    match table.get(number) {
        Some(list) => list.as_slice(),
        None => &[],
    }
}

/// The variables of scopes, by the variables of each module.
fn variables_by(
    alloc: Global,
    table: &[Items<Named>],
    scopes: &[Scope],
) -> Result<Vec<Variable>, NoMemory>
    ensures { IfOk result (λ list. list.items ≡ spec.variables_from table.now 0 scopes.now) }
{
    let mut list = Vec::new(alloc);
    let mut number = 0;
    for scope in scopes {
        add_variables(
            alloc,
            number,
            names_of(table, scope.module_number),
            &mut list,
        )?;
        number = next(number)?;
    }
    Ok(list)
}

/// The variables of these scopes, by scope, then in text order: those that its module declares, each
/// with the position of its declaration in the list. There are at most 1,000 files. NoMemory where no
/// memory was found.
pub fn variables_of(
    alloc: Global,
    files: &[SvFile],
    declarations: &[Declaration],
    scopes: &[Scope],
) -> Result<Vec<Variable>, NoMemory>
    requires { length files.now ≤ 1000 }
    ensures { IfOk result (λ list. list.items ≡ spec.variables_of (modules_in files.now) declarations.now scopes.now) }
{
    let modules = modules_of(alloc, files)?;
    let numbers = numbers_of(alloc, declarations)?;
    let known = Known {
        declarations,
        numbers: &numbers,
    };
    let table = all_names(alloc, known, &modules)?;
    variables_by(alloc, table.as_slice(), scopes)
}
