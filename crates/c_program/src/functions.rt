//! The functions of a program (ISO C 6.2.2 and 6.9.1).
ghost use Rattle.std.specs.Prelude.{◌≡◌, ◌≤◌, ◌++◌, ◌||◌, length, map, IfOk, OnOk, ℕ, List};
ghost use Rattle.std.specs.List.{list_any};
ghost use Rattle.c_functions.specs.Declarations.{told};
ghost use Rattle.c_functions.specs.Declarations as known;
ghost use Rattle.c_program.specs.Functions as spec;

use crate::names::{FunctionNames, NameSet};
use c_base::CType;
use c_functions::{Declaration, FunctionType, declarations_of, function_type};
use c_tree::{Body, CFile};
use dpi_ports::NoMemory;
use sqlite_items::Items;
use std::alloc::Global;

/// A function of a program.
#[derive(Drop)]
pub struct CFunction {
    /// The number of the file in which it stands, from 0.
    pub file: u32,
    /// The token of its name before its body, without a body at its first prototype; from 0.
    pub token: u32,
    /// Its name.
    pub name: Items<u8>,
    /// The type of its result, without const of the result itself.
    pub result: CType,
    /// The types of its parameters in order, without const of their own; an array is a pointer.
    pub params: Items<CType>,
    /// Whether it has a body in one of the files.
    pub has_body: bool,
}

fn has_body(body: &Body) -> bool
    ensures { result ≡ known.has_body body.now }
{
    matches!(body, Body::Block(_))
}

fn add_known(list: &mut Items<CType>, of: Option<CType>) -> Result<(), NoMemory>
    ensures { OnOk result (list.new ≡ list.old ++ spec.listed of) }
{
    if let Some(of) = of {
        list.push(of)?;
    }
    Ok(())
}

fn known_types(alloc: Global, types: &[Option<CType>]) -> Result<Items<CType>, NoMemory>
    ensures { IfOk result (λ list. list ≡ spec.known_types types.now) }
{
    let mut list = Items::new(alloc);
    for of in types {
        add_known(&mut list, *of)?;
    }
    Ok(list)
}

fn add_typed(
    alloc: Global,
    list: &mut Vec<CFunction>,
    declaration: Declaration<'_>,
    of: &FunctionType,
) -> Result<(), NoMemory>
    ensures { OnOk result (list.new.items ≡ list.old.items ++ spec.typed_function (told declaration.entry) of.now of.now.result) }
{
    if let Some(result) = of.result {
        let function = declaration.function;
        list.push(CFunction {
            file: declaration.file,
            token: function.name.token,
            name: Items::from_slice(alloc, function.name.bytes.as_slice())?,
            result,
            params: known_types(alloc, of.params.as_slice())?,
            has_body: has_body(&function.body),
        })?;
    }
    Ok(())
}

fn add_function(
    alloc: Global,
    list: &mut Vec<CFunction>,
    declaration: Declaration<'_>,
) -> Result<(), NoMemory>
    ensures { OnOk result (list.new.items ≡ list.old.items ++ spec.function_of (told declaration.entry)) }
{
    if declaration.is_known {
        let of = function_type(alloc, declaration.function)?;
        add_typed(alloc, list, declaration, &of)?;
    }
    Ok(())
}

/// Whether a function stands at this declaration of it.
fn stands(
    bodies: &FunctionNames<'_>,
    before: &FunctionNames<'_>,
    declaration: Declaration<'_>,
) -> bool
    ensures { result ≡ spec.stands (spec.named bodies.now) (spec.named before.now) (told declaration.entry) }
{
    has_body(&declaration.function.body) || !(bodies.has(declaration) || before.has(declaration))
}

fn add_standing(
    alloc: Global,
    list: &mut Vec<CFunction>,
    bodies: &FunctionNames<'_>,
    before: &FunctionNames<'_>,
    declaration: Declaration<'_>,
) -> Result<(), NoMemory>
    ensures { OnOk result (list.new.items ≡ list.old.items ++ spec.functions_at (spec.named bodies.now) (spec.named before.now) (told declaration.entry)) }
{
    if stands(bodies, before, declaration) {
        add_function(alloc, list, declaration)?;
    }
    Ok(())
}

fn add_declared<'a>(
    alloc: Global,
    list: &mut Vec<CFunction>,
    bodies: &FunctionNames<'_>,
    before: &mut FunctionNames<'a>,
    declarations: &[Declaration<'a>],
) -> Result<(), NoMemory>
    ensures list { OnOk result (list.new.items ≡ list.old.items ++ spec.functions_behind (spec.named bodies.now) (spec.named before.old) (map told declarations.now)) }
    ensures before { OnOk result (spec.named before.new ≡ spec.named_behind (spec.named before.old) (map told declarations.now)) }
{
    for declaration in declarations {
        add_standing(alloc, list, bodies, before, *declaration)?;
        before.add(*declaration)?;
    }
    Ok(())
}

fn add_body<'a>(
    names: &mut NameSet<'a>,
    is_static: bool,
    declaration: Declaration<'a>,
) -> Result<(), NoMemory>
    ensures { OnOk result ((q : List ℕ) → spec.has names.new q ≡ (spec.has names.old q || spec.is_body is_static q (told declaration.entry))) }
{
    if has_body(&declaration.function.body) && declaration.is_static == is_static {
        names.add(declaration.function.name.bytes.as_slice())?;
    }
    Ok(())
}

fn add_bodies<'a>(
    names: &mut NameSet<'a>,
    is_static: bool,
    declarations: &[Declaration<'a>],
) -> Result<(), NoMemory>
    ensures { OnOk result ((q : List ℕ) → spec.has names.new q ≡ (spec.has names.old q || list_any (spec.is_body is_static q) (map told declarations.now))) }
{
    for declaration in declarations {
        add_body(names, is_static, *declaration)?;
    }
    Ok(())
}

/// The names of a file's own functions that have a body.
fn own_bodies<'a>(alloc: Global, declarations: &[Declaration<'a>]) -> Result<NameSet<'a>, NoMemory>
    ensures { IfOk result (λ names. (q : List ℕ) → spec.has names q ≡ spec.own_bodies (map told declarations.now) q) }
{
    let mut names = NameSet::new(alloc);
    add_bodies(&mut names, true, declarations)?;
    Ok(names)
}

/// The names of the functions with a body that all files share.
fn shared_bodies<'a>(
    alloc: Global,
    table: &[Items<Declaration<'a>>],
) -> Result<NameSet<'a>, NoMemory>
    ensures { IfOk result (λ names. (q : List ℕ) → spec.has names q ≡ spec.shared_bodies (map (map told) table.now) q) }
{
    let mut names = NameSet::new(alloc);
    for declarations in table {
        add_bodies(&mut names, false, declarations.as_slice())?;
    }
    Ok(names)
}

fn add_file<'a>(
    alloc: Global,
    list: &mut Vec<CFunction>,
    bodies: &mut FunctionNames<'a>,
    before: &mut FunctionNames<'a>,
    declarations: &[Declaration<'a>],
) -> Result<(), NoMemory>
    ensures list { OnOk result (list.new.items ≡ list.old.items ++ spec.functions_in (spec.named bodies.old).shared (spec.named before.old).shared (map told declarations.now)) }
    ensures bodies { OnOk result ((spec.named bodies.new).shared ≡ (spec.named bodies.old).shared) }
    ensures before { OnOk result ((spec.named before.new).shared ≡ spec.shared_behind (spec.named before.old).shared (map told declarations.now)) }
{
    bodies.set_own(own_bodies(alloc, declarations)?);
    before.set_own(NameSet::new(alloc));
    add_declared(alloc, list, bodies, before, declarations)?;
    Ok(())
}

fn add_files<'a>(
    alloc: Global,
    list: &mut Vec<CFunction>,
    bodies: &mut FunctionNames<'a>,
    before: &mut FunctionNames<'a>,
    table: &[Items<Declaration<'a>>],
) -> Result<(), NoMemory>
    ensures { OnOk result (list.new.items ≡ list.old.items ++ spec.functions_from (spec.named bodies.old).shared (spec.named before.old).shared (map (map told) table.now)) }
{
    for declarations in table {
        add_file(alloc, list, bodies, before, declarations.as_slice())?;
    }
    Ok(())
}

fn functions_among(
    alloc: Global,
    table: &[Items<Declaration<'_>>],
) -> Result<Vec<CFunction>, NoMemory>
    ensures { IfOk result (λ r. r.items ≡ spec.functions_among (map (map told) table.now)) }
{
    let mut list = Vec::new(alloc);
    let mut bodies = FunctionNames::new(alloc, shared_bodies(alloc, table)?);
    let mut before = FunctionNames::new(alloc, NameSet::new(alloc));
    add_files(alloc, &mut list, &mut bodies, &mut before, table)?;
    Ok(list)
}

/// The functions of a program that breaks no rule, in text order, file by file: each once, at its
/// name before its body, without a body at its first prototype. A function of which one declaration
/// in a file is `static` is that file's own, all others are shared by all files (ISO C 6.2.2).
/// There are at most 1,000 files. NoMemory where no memory was found.
pub fn functions_of(alloc: Global, files: &[CFile]) -> Result<Vec<CFunction>, NoMemory>
    requires { length files.now ≤ 1000 }
    ensures { IfOk result (λ r. r.items ≡ spec.functions_of files.now) }
{
    let table = declarations_of(alloc, files)?;
    functions_among(alloc, table.as_slice())
}
