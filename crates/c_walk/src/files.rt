//! External declarations, and files (ISO C 6.9).
ghost use Rattle.std.specs.Prelude.{◌≡◌, IfOk};
ghost use Rattle.dpi_rules.specs.Least.{noted};
ghost use Rattle.c_names.specs.Names.{names_of};
ghost use Rattle.c_names.specs.Scopes.{scopes_of};
ghost use Rattle.c_walk.specs.Sight.{Follows, Ends};
ghost use Rattle.c_walk.specs.Around.{around_of};
ghost use Rattle.c_walk.specs.File as spec;

use crate::declarations::{note_new_name, walk_variables};
use crate::defines::defines_of;
use crate::outside::{Outside, at};
use crate::parameters::params_scope;
use crate::statements::walk_parts;
use c_base::CType;
use c_functions::FunctionType;
use c_names::{Entry, Scope, Scopes, Thing, note_second};
use c_tree::{Body, CFile, Define, External, Function, Name};
use dpi_literal::{c_define_name, c_define_value};
use dpi_ports::NoMemory;
use dpi_rules::Violation;
use std::alloc::Global;

/// Declares a define. Rules 1 and 21 are noted at its token. NoMemory where no memory was found.
pub fn walk_define<'n>(
    outside: &Outside<'_>,
    scopes: &mut Scopes<'n>,
    define: &'n Define,
    found: &mut Option<Violation>,
) -> Result<(), NoMemory>
    ensures { Follows (spec.define_walk (around_of outside.now) define.now) (scopes_of scopes.old) found.old result (scopes_of scopes.new) found.new }
{
    let token = define.token;
    let bytes = define.bytes.as_slice();
    let name = c_define_name(bytes);
    note_new_name(at(outside, token), name, scopes.here(name), found);
    let thing = Thing::Number(c_define_value(bytes).of);
    scopes.declare(name, Entry { token, thing })
}

/// Declares a function by its number. Rule 1 is noted at its name, where the scope has it as another
/// kind. NoMemory where no memory was found.
pub fn declare_function<'n>(
    outside: &Outside<'_>,
    scopes: &mut Scopes<'n>,
    number: u32,
    name: &'n Name,
    found: &mut Option<Violation>,
) -> Result<(), NoMemory>
    ensures { Follows (spec.function_name_walk (around_of outside.now) number name.now) (scopes_of scopes.old) found.old result (scopes_of scopes.new) found.new }
{
    let token = name.token;
    let bytes = name.bytes.as_slice();
    note_second(at(outside, token), scopes.here(bytes), true, found);
    let thing = Thing::Function(number);
    scopes.declare(bytes, Entry { token, thing })
}

fn result_type(functions: &[FunctionType], number: u32) -> Option<CType>
    ensures { result ≡ spec.result_of functions.now number }
{
    functions.get(number as usize)?.result
}

/// Inside the function of this number.
fn returning<'s>(outside: &Outside<'s>, number: u32) -> Outside<'s>
    ensures { around_of result ≡ spec.returning (around_of outside.now) number }
{
    Outside {
        result: result_type(outside.functions, number),
        ..*outside
    }
}

/// The body of a function, in the scope of its parameters.
fn walk_body<'n>(
    alloc: Global,
    outside: &Outside<'_>,
    scopes: &mut Scopes<'n>,
    scope: Scope<'n>,
    body: &'n Body,
    found: &mut Option<Violation>,
) -> Result<(), NoMemory>
    ensures { Ends (spec.body_violations (around_of outside.now) body.now) (scopes_of scopes.old) (names_of scope.entry) found.old result (scopes_of scopes.new) found.new }
{
    match body {
        Body::Prototype(_) => Ok(()),
        Body::Block(block) => {
            scopes.enter(scope)?;
            walk_parts(alloc, outside, scopes, block.parts.as_slice(), found)?;
            scopes.leave();
            Ok(())
        }
    }
}

/// A function: its parameters, its name, and its body.
fn walk_function<'n>(
    alloc: Global,
    outside: &Outside<'_>,
    scopes: &mut Scopes<'n>,
    number: u32,
    function: &'n Function,
    found: &mut Option<Violation>,
) -> Result<(), NoMemory>
    ensures { Follows (spec.function_walk (around_of outside.now) number function.now) (scopes_of scopes.old) found.old result (scopes_of scopes.new) found.new }
{
    let scope = params_scope(alloc, outside, scopes, &function.params, found)?;
    declare_function(outside, scopes, number, &function.name, found)?;
    let inside = returning(outside, number);
    walk_body(alloc, &inside, scopes, scope, &function.body, found)
}

fn walk_external<'n>(
    alloc: Global,
    outside: &Outside<'_>,
    scopes: &mut Scopes<'n>,
    number: u32,
    external: &'n External,
    found: &mut Option<Violation>,
) -> Result<(), NoMemory>
    ensures { Follows (spec.external_walk (around_of outside.now) number external.now) (scopes_of scopes.old) found.old result (scopes_of scopes.new) found.new }
{
    match external {
        External::Define(define) => walk_define(outside, scopes, define, found),
        External::Function(function) => {
            walk_function(alloc, outside, scopes, number, function, found)
        }
        External::Variables(variables) => {
            walk_variables(alloc, outside, scopes, true, variables, found)
        }
    }
}

/// The functions up to behind this one. NoMemory past 2^32 of them.
pub fn functions_with(number: u32, external: &External) -> Result<u32, NoMemory>
    ensures { IfOk result (λ n. n ≡ spec.functions_with number external.now) }
{
    match external {
        External::Function(_) => match number.checked_add(1) {
            None => Err(NoMemory),
            Some(next) => Ok(next),
        },
        External::Define(_) | External::Variables(_) => Ok(number),
    }
}

fn walk_externals<'n>(
    alloc: Global,
    outside: &Outside<'_>,
    scopes: &mut Scopes<'n>,
    externals: &'n [External],
    found: &mut Option<Violation>,
) -> Result<(), NoMemory>
    ensures { Follows (spec.externals_walk (around_of outside.now) 0 externals.now) (scopes_of scopes.old) found.old result (scopes_of scopes.new) found.new }
{
    let mut number = 0;
    for external in externals {
        walk_external(alloc, outside, scopes, number, external, found)?;
        number = functions_with(number, external)?;
    }
    Ok(())
}

/// Notes what the file of this number violates by names, types and initialisers. `functions` are
/// the types of its functions, prototypes too, in text order. NoMemory where no memory was found
/// (ISO C 6.9).
pub fn walk_file(
    alloc: Global,
    file: u32,
    tree: &CFile,
    functions: &[FunctionType],
    found: &mut Option<Violation>,
) -> Result<(), NoMemory>
    ensures { IfOk result (λ _. found.new ≡ noted found.old (spec.file_violations file functions.now tree.now)) }
{
    let externals = tree.externals.as_slice();
    let defines = defines_of(alloc, externals)?;
    let outside = Outside {
        file,
        functions,
        defines: &defines,
        result: None,
    };
    let mut scopes = Scopes::new(alloc);
    scopes.enter(Scope::new(alloc))?;
    walk_externals(alloc, &outside, &mut scopes, externals, found)
}
