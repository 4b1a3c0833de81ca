//! External declarations, and files (ISO C 6.9).
ghost use Rattle.std.specs.Prelude.{◌≡◌, ◌++◌, IfOk, OnOk};
ghost use Rattle.c_names.specs.Names.{names_of};
ghost use Rattle.c_names.specs.Scopes.{scopes_of};
ghost use Rattle.c_walk.specs.Around.{around_of};
ghost use Rattle.c_meanings.specs.Sight.{Adds, Ends};
ghost use Rattle.c_meanings.specs.File as spec;

use crate::declarations::add_variables;
use crate::parameters::params_scope;
use crate::statements::add_parts;
use c_facts::{CFact, CMeant};
use c_functions::function_types;
use c_names::{Entry, Scope, Scopes};
use c_tree::{Body, CFile, External, Function, Name};
use c_walk::{Outside, declare_function, defines_of, functions_with, walk_define};
use dpi_ports::NoMemory;
use std::alloc::Global;

/// The token of the name that declares a function first: an earlier one of its scope, or its own.
fn first_token(token: u32, earlier: Option<Entry>) -> u32
    ensures { result ≡ spec.first_token token earlier }
{
    match earlier {
        None => token,
        Some(earlier) => earlier.token,
    }
}

/// Adds what the name of a function means, by its earlier declaration.
fn add_function_name(
    name: &Name,
    earlier: Option<Entry>,
    list: &mut Vec<CFact>,
) -> Result<(), NoMemory>
    ensures { OnOk result (list.new.items ≡ list.old.items ++ spec.function_name_facts name.now earlier) }
{
    let first = first_token(name.token, earlier);
    list.push(CFact::Name(name.token, CMeant::Function(first)))?;
    Ok(())
}

fn has_body(body: &Body) -> bool
    ensures { result ≡ spec.has_body body.now }
{
    match body {
        Body::Prototype(_) => false,
        Body::Block(_) => true,
    }
}

/// Adds what the body of a function tells, in the scope of its parameters.
fn add_body<'n>(
    alloc: Global,
    outside: &Outside<'_>,
    scopes: &mut Scopes<'n>,
    scope: Scope<'n>,
    body: &'n Body,
    list: &mut Vec<CFact>,
) -> Result<(), NoMemory>
    ensures { Ends (spec.body_facts (around_of outside.now) body.now) (scopes_of scopes.old) (names_of scope.entry) list.old.items result (scopes_of scopes.new) list.new.items }
{
    match body {
        Body::Prototype(_) => Ok(()),
        Body::Block(block) => {
            scopes.enter(scope)?;
            add_parts(alloc, outside, scopes, block.parts.as_slice(), list)?;
            scopes.leave();
            Ok(())
        }
    }
}

/// Adds what a function tells: its name, its parameters, and its body.
fn add_function<'n>(
    alloc: Global,
    outside: &Outside<'_>,
    scopes: &mut Scopes<'n>,
    number: u32,
    function: &'n Function,
    list: &mut Vec<CFact>,
) -> Result<(), NoMemory>
    ensures { Adds (spec.function_tells (around_of outside.now) number function.now) (scopes_of scopes.old) list.old.items result (scopes_of scopes.new) list.new.items }
{
    let name = &function.name;
    add_function_name(name, scopes.here(name.bytes.as_slice()), list)?;
    let has_body = has_body(&function.body);
    let scope = params_scope(alloc, outside, scopes, has_body, &function.params, list)?;
    declare_function(outside, scopes, number, name, &mut None)?;
    add_body(alloc, outside, scopes, scope, &function.body, list)
}

/// Adds what a file has at its outside tells, behind so many functions.
fn add_external<'n>(
    alloc: Global,
    outside: &Outside<'_>,
    scopes: &mut Scopes<'n>,
    number: u32,
    external: &'n External,
    list: &mut Vec<CFact>,
) -> Result<(), NoMemory>
    ensures { Adds (spec.external_tells (around_of outside.now) number external.now) (scopes_of scopes.old) list.old.items result (scopes_of scopes.new) list.new.items }
{
    match external {
        External::Define(define) => walk_define(outside, scopes, define, &mut None),
        External::Function(function) => {
            add_function(alloc, outside, scopes, number, function, list)
        }
        External::Variables(variables) => {
            add_variables(alloc, outside, scopes, true, variables, list)
        }
    }
}

/// Adds what external declarations tell in turn.
fn add_externals<'n>(
    alloc: Global,
    outside: &Outside<'_>,
    scopes: &mut Scopes<'n>,
    externals: &'n [External],
    list: &mut Vec<CFact>,
) -> Result<(), NoMemory>
    ensures { Adds (spec.externals_tell (around_of outside.now) 0 externals.now) (scopes_of scopes.old) list.old.items result (scopes_of scopes.new) list.new.items }
{
    let mut number = 0;
    for external in externals {
        add_external(alloc, outside, scopes, number, external, list)?;
        number = functions_with(number, external)?;
    }
    Ok(())
}

/// All facts of the file of this number, in text order: what each name means, and the type of each
/// expression by itself, its own before those of its parts. NoMemory where no memory was found, and
/// past 2^32 functions (ISO C 6.9).
pub fn facts_of(alloc: Global, number: u32, file: &CFile) -> Result<Vec<CFact>, NoMemory>
    ensures { IfOk result (λ v. v.items ≡ spec.file_facts number file.now) }
{
    let externals = file.externals.as_slice();
    let functions = function_types(alloc, file)?;
    let defines = defines_of(alloc, externals)?;
    let outside = Outside {
        file: number,
        functions: &functions,
        defines: &defines,
        result: None,
    };
    let mut scopes = Scopes::new(alloc);
    scopes.enter(Scope::new(alloc))?;
    let mut list = Vec::new(alloc);
    add_externals(alloc, &outside, &mut scopes, externals, &mut list)?;
    Ok(list)
}
