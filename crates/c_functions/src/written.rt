//! The types of functions, as their declarations write them (ISO C 6.7.6.3).
ghost use Rattle.std.specs.Prelude.{◌≡◌, ◌++◌, map, flat_map, IfOk, OnOk};
ghost use Rattle.dpi_rules.specs.Least.{noted};
ghost use Rattle.c_functions.specs.Params.{param_type, param_violations};
ghost use Rattle.c_functions.specs.Types as spec;

use crate::params::{note_param, param_type};
use crate::types::FunctionType;
use c_base::CType;
use c_library::note_reserved;
use c_tree::{CFile, External, Function, Param, Params};
use c_typing::{Place, bare, declared_of, note_stars};
use dpi_ports::NoMemory;
use dpi_rules::Violation;
use sqlite_items::Items;
use std::alloc::Global;

/// The type of a function's result, without const of its own; None where it is refused.
pub(crate) fn result_type(function: &Function) -> Option<CType>
    ensures { result ≡ spec.result_type function.now }
{
    match declared_of(&function.kind, function.stars.as_slice()) {
        None => None,
        Some(declared) => Some(bare(declared.of)),
    }
}

fn listed_types(alloc: Global, params: &[Param]) -> Result<Items<Option<CType>>, NoMemory>
    ensures { IfOk result (λ r. r ≡ map param_type params.now) }
{
    let mut types = Items::new(alloc);
    for param in params {
        types.push(param_type(param))?;
    }
    Ok(types)
}

fn param_types(alloc: Global, params: &Params) -> Result<Items<Option<CType>>, NoMemory>
    ensures { IfOk result (λ r. r ≡ spec.param_types params.now) }
{
    match params {
        Params::Void(_) => Ok(Items::new(alloc)),
        Params::List(params) => listed_types(alloc, params.as_slice()),
    }
}

/// The type that a declaration gives its function. Const of the result itself and of a parameter
/// itself isn't counted, and a parameter that is written as an array is a pointer (ISO C 6.7.6.3).
/// NoMemory where no memory was found.
pub fn function_type(alloc: Global, function: &Function) -> Result<FunctionType, NoMemory>
    ensures { IfOk result (λ r. r ≡ spec.function_type function.now) }
{
    Ok(FunctionType {
        result: result_type(function),
        params: param_types(alloc, &function.params)?,
    })
}

fn note_listed(file: u32, params: &[Param], found: &mut Option<Violation>)
    ensures { found.new ≡ noted found.old (flat_map (param_violations file) params.now) }
{
    for param in params {
        note_param(file, param, found);
    }
}

fn note_params(file: u32, params: &Params, found: &mut Option<Violation>)
    ensures { found.new ≡ noted found.old (spec.params_violations file params.now) }
{
    match params {
        Params::Void(_) => {}
        Params::List(params) => note_listed(file, params.as_slice(), found),
    }
}

/// Notes what the types in a declaration of a function violate: rule 22 on the stars of its result,
/// at its name, and on those of a parameter, at its name or without one at its type; rule 5 at a
/// parameter's name that is void; rules 3 and 4 at the size of a parameter's array, where it is a
/// number or stands before a `(`; and rule 21 at the names. A size that is a name isn't looked at
/// here: what it means depends on the scope.
pub fn note_function_type(file: u32, function: &Function, found: &mut Option<Violation>)
    ensures { found.new ≡ noted found.old (spec.type_violations file function.now) }
{
    let token = function.name.token;
    note_stars(
        Place { file, token },
        function.stars.as_slice(),
        false,
        found,
    );
    note_reserved(file, token, function.name.bytes.as_slice(), found);
    note_params(file, &function.params, found);
}

fn add_type(
    alloc: Global,
    types: &mut Vec<FunctionType>,
    external: &External,
) -> Result<(), NoMemory>
    ensures { OnOk result (types.new.items ≡ types.old.items ++ spec.external_types external.now) }
{
    if let External::Function(function) = external {
        types.push(function_type(alloc, function)?)?;
    }
    Ok(())
}

/// The types of a file's functions in text order, those of prototypes too: the n-th function item
/// has number n, from 0. NoMemory where no memory was found.
pub fn function_types(alloc: Global, file: &CFile) -> Result<Vec<FunctionType>, NoMemory>
    ensures { IfOk result (λ r. r.items ≡ spec.function_types file.now) }
{
    let mut types = Vec::new(alloc);
    for external in file.externals.as_slice() {
        add_type(alloc, &mut types, external)?;
    }
    Ok(types)
}
