//! The objects of a program (ISO C 6.2.4, 6.7 and 6.9.2).
ghost use Rattle.std.specs.Prelude.{◌≡◌, ◌≤◌, ◌++◌, length, flat_map, IfOk, OnOk};
ghost use Rattle.c_functions.specs.Inner.{seen};
ghost use Rattle.c_functions.specs.Objects.{names_of, no_names};
ghost use Rattle.c_functions.specs.Params.{adjusted_by, written};
ghost use Rattle.c_program.specs.Inside.{in_block};
ghost use Rattle.c_program.specs.Objects as spec;

use crate::inside::variables_in;
use crate::sizes::array_cells;
use c_base::CType;
use c_functions::Defines;
use c_tree::{
    Block, Body, CFile, CType as TypeTree, Declarator, External, Function, Name, Param, Params,
    Store, StoreKind, Variables,
};
use c_typing::{Declared, adjusted, declared_of};
use dpi_ports::NoMemory;
use std::alloc::Global;

/// Where an object is declared, and so how long it lives (ISO C 6.2.4).
#[derive(Clone, Copy, Debug, PartialEq, Eq)]
pub enum Life {
    /// At file scope, `static` or not: it lives for the whole run.
    File,
    /// In a function, with `static`: it lives for the whole run.
    Static,
    /// In a function, without `static`: it lives as long as its block.
    Local,
    /// It is a parameter: it lives as long as the call.
    Parameter,
}

/// An object of a program.
#[derive(Clone, Copy, Debug, PartialEq, Eq)]
pub struct CObject {
    /// The number of the file that defines it, from 0.
    pub file: u32,
    /// The token of its name there, from 0.
    pub token: u32,
    /// Its type, or that of a cell of an array.
    pub kind: CType,
    /// How many cells it has: one where it is no array.
    pub cells: u32,
    /// Whether it isn't const itself.
    pub writable: bool,
    /// Where it is declared.
    pub life: Life,
}

fn outer_life(store: &Option<Store>) -> Option<Life>
    ensures { result ≡ spec.outer_life store.now }
{
    match store {
        None => Some(Life::File),
        Some(store) => match store.kind {
            StoreKind::Static => Some(Life::File),
            StoreKind::Extern => None,
        },
    }
}

fn inner_life(store: &Option<Store>) -> Option<Life>
    ensures { result ≡ spec.inner_life store.now }
{
    match store {
        None => Some(Life::Local),
        Some(store) => match store.kind {
            StoreKind::Static => Some(Life::Static),
            StoreKind::Extern => None,
        },
    }
}

fn object(file: u32, name: &Name, life: Life, declared: Declared, cells: u32) -> CObject
    ensures { result ≡ spec.object file name.now life declared cells }
{
    CObject {
        file,
        token: name.token,
        kind: declared.of,
        cells,
        writable: !declared.constant,
        life,
    }
}

fn add_sized(
    list: &mut Vec<CObject>,
    file: u32,
    name: &Name,
    life: Life,
    declared: Declared,
    cells: Option<u32>,
) -> Result<(), NoMemory>
    ensures { OnOk result (list.new.items ≡ list.old.items ++ spec.sized_object file name.now life declared cells) }
{
    if let Some(cells) = cells {
        list.push(object(file, name, life, declared, cells))?;
    }
    Ok(())
}

fn add_typed(
    list: &mut Vec<CObject>,
    file: u32,
    name: &Name,
    life: Life,
    declared: Option<Declared>,
    cells: Option<u32>,
) -> Result<(), NoMemory>
    ensures { OnOk result (list.new.items ≡ list.old.items ++ spec.typed_object file name.now life declared cells) }
{
    match declared {
        None => Ok(()),
        Some(declared) => add_sized(list, file, name, life, declared, cells),
    }
}

fn add_declarator(
    list: &mut Vec<CObject>,
    file: u32,
    defines: &Defines<'_>,
    life: Life,
    kind: &TypeTree,
    declarator: &Declarator,
) -> Result<(), NoMemory>
    ensures { OnOk result (list.new.items ≡ list.old.items ++ spec.declarator_objects file (names_of defines.now) life kind.now declarator.now) }
{
    let declared = declared_of(kind, declarator.stars.as_slice());
    let cells = array_cells(defines, &declarator.array);
    add_typed(list, file, &declarator.name, life, declared, cells)
}

fn add_declarators(
    list: &mut Vec<CObject>,
    file: u32,
    defines: &Defines<'_>,
    life: Life,
    kind: &TypeTree,
    declarators: &[Declarator],
) -> Result<(), NoMemory>
    ensures { OnOk result (list.new.items ≡ list.old.items ++ flat_map (spec.declarator_objects file (names_of defines.now) life kind.now) declarators.now) }
{
    for declarator in declarators {
        add_declarator(list, file, defines, life, kind, declarator)?;
    }
    Ok(())
}

fn add_living(
    list: &mut Vec<CObject>,
    file: u32,
    defines: &Defines<'_>,
    variables: &Variables,
    life: Option<Life>,
) -> Result<(), NoMemory>
    ensures { OnOk result (list.new.items ≡ list.old.items ++ spec.living_objects file (names_of defines.now) variables.now life) }
{
    match life {
        None => Ok(()),
        Some(life) => {
            let declarators = variables.declarators.as_slice();
            add_declarators(list, file, defines, life, &variables.kind, declarators)
        }
    }
}

fn add_all_inner(
    list: &mut Vec<CObject>,
    file: u32,
    defines: &Defines<'_>,
    all: &[&Variables],
) -> Result<(), NoMemory>
    ensures { OnOk result (list.new.items ≡ list.old.items ++ flat_map (spec.inner_objects file (names_of defines.now)) (seen all.now)) }
{
    for variables in all {
        add_living(list, file, defines, variables, inner_life(&variables.store))?;
    }
    Ok(())
}

fn adjusted_by(is_array: bool, declared: Option<Declared>) -> Option<Declared>
    ensures { result ≡ adjusted_by is_array declared }
{
    match declared {
        None => None,
        Some(declared) => adjusted(is_array, declared),
    }
}

/// What a parameter is, an array being a pointer to its cells.
fn written(param: &Param) -> Option<Declared>
    ensures { result ≡ written param.now }
{
    let declared = declared_of(&param.kind, param.stars.as_slice());
    adjusted_by(param.array.is_some(), declared)
}

fn add_named_param(
    list: &mut Vec<CObject>,
    file: u32,
    declared: Option<Declared>,
    name: &Option<Name>,
) -> Result<(), NoMemory>
    ensures { OnOk result (list.new.items ≡ list.old.items ++ spec.named_param file declared name.now) }
{
    match name {
        None => Ok(()),
        Some(name) => add_typed(list, file, name, Life::Parameter, declared, Some(1)),
    }
}

fn add_param(list: &mut Vec<CObject>, file: u32, param: &Param) -> Result<(), NoMemory>
    ensures { OnOk result (list.new.items ≡ list.old.items ++ spec.param_objects file param.now) }
{
    add_named_param(list, file, written(param), &param.name)
}

fn add_listed(list: &mut Vec<CObject>, file: u32, params: &[Param]) -> Result<(), NoMemory>
    ensures { OnOk result (list.new.items ≡ list.old.items ++ flat_map (spec.param_objects file) params.now) }
{
    for param in params {
        add_param(list, file, param)?;
    }
    Ok(())
}

fn add_params(list: &mut Vec<CObject>, file: u32, params: &Params) -> Result<(), NoMemory>
    ensures { OnOk result (list.new.items ≡ list.old.items ++ spec.params_objects file params.now) }
{
    match params {
        Params::Void(_) => Ok(()),
        Params::List(params) => add_listed(list, file, params.as_slice()),
    }
}

fn add_inside(
    alloc: Global,
    list: &mut Vec<CObject>,
    file: u32,
    defines: &Defines<'_>,
    block: &Block,
) -> Result<(), NoMemory>
    ensures { OnOk result (list.new.items ≡ list.old.items ++ flat_map (spec.inner_objects file (names_of defines.now)) (in_block block.now)) }
{
    let all = variables_in(alloc, block)?;
    add_all_inner(list, file, defines, all.as_slice())
}

fn add_function(
    alloc: Global,
    list: &mut Vec<CObject>,
    file: u32,
    defines: &Defines<'_>,
    function: &Function,
) -> Result<(), NoMemory>
    ensures { OnOk result (list.new.items ≡ list.old.items ++ spec.function_objects file (names_of defines.now) function.now.params function.now.body) }
{
    match &function.body {
        Body::Prototype(_) => Ok(()),
        Body::Block(block) => {
            add_params(list, file, &function.params)?;
            add_inside(alloc, list, file, defines, block)
        }
    }
}

fn add_external(
    alloc: Global,
    list: &mut Vec<CObject>,
    file: u32,
    defines: &Defines<'_>,
    external: &External,
) -> Result<(), NoMemory>
    ensures { OnOk result (list.new.items ≡ list.old.items ++ spec.external_objects file (names_of defines.now) external.now) }
{
    match external {
        External::Define(_) => Ok(()),
        External::Function(function) => add_function(alloc, list, file, defines, function),
        External::Variables(variables) => {
            add_living(list, file, defines, variables, outer_life(&variables.store))
        }
    }
}

fn add_externals(
    alloc: Global,
    list: &mut Vec<CObject>,
    file: u32,
    externals: &[External],
) -> Result<(), NoMemory>
    ensures { OnOk result (list.new.items ≡ list.old.items ++ spec.objects_behind file no_names externals.now) }
{
    let mut defines = Defines::new(alloc);
    for external in externals {
        add_external(alloc, list, file, &defines, external)?;
        defines.add_of(external)?;
    }
    Ok(())
}

fn add_files(alloc: Global, list: &mut Vec<CObject>, files: &[CFile]) -> Result<(), NoMemory>
    requires { length files.now ≤ 1000 }
    ensures { OnOk result (list.new.items ≡ list.old.items ++ spec.objects_of files.now) }
{
    let mut number = 0;
    for file in files {
        add_externals(alloc, list, number, file.externals.as_slice())?;
        number += 1;
    }
    Ok(())
}

/// The objects of a program that breaks no rule, in text order, file by file: what declarators
/// define at file scope, in blocks and in heads of `for`, unless they are `extern`, and the named
/// parameters of functions with a body (ISO C 6.7 and 6.9). A parameter that is written as an array
/// is a pointer. A size that is a name is that of a define before it in its file, or of a constant
/// of `svdpi.h`. There are at most 1,000 files. NoMemory where no memory was found.
pub fn objects_of(alloc: Global, files: &[CFile]) -> Result<Vec<CObject>, NoMemory>
    requires { length files.now ≤ 1000 }
    ensures { IfOk result (λ r. r.items ≡ spec.objects_of files.now) }
{
    let mut list = Vec::new(alloc);
    add_files(alloc, &mut list, files)?;
    Ok(list)
}
