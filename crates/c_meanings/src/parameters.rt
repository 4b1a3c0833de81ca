//! Parameters (ISO C 6.7.6.3 and 6.2.1).
ghost use Rattle.std.specs.Prelude.{◌≡◌, [], ◌∷◌, ◌++◌, OnOk, map};
ghost use Rattle.c_names.specs.Names.{names_of};
ghost use Rattle.c_names.specs.Scopes.{scopes_of};
ghost use Rattle.c_walk.specs.Around.{around_of};
ghost use Rattle.c_meanings.specs.Places.{size_at};
ghost use Rattle.c_meanings.specs.Sight.{Fills, Opens, in_turn};
ghost use Rattle.c_meanings.specs.Declarations as spec;

use crate::declarations::add_declared;
use c_facts::{CFact, add_name, size_words, value_meant};
use c_names::{Scope, Scopes};
use c_tree::{Name, Param, ParamArray, Params, Size};
use c_walk::{Outside, entry_in, walk_param};
use dpi_ports::NoMemory;
use std::alloc::Global;

/// Adds that the name of a parameter declares an object, where the function has a body.
fn add_param_name(
    has_body: bool,
    name: &Option<Name>,
    list: &mut Vec<CFact>,
) -> Result<(), NoMemory>
    ensures { OnOk result (list.new.items ≡ list.old.items ++ spec.param_name_facts has_body name.now) }
{
    match name {
        None => Ok(()),
        Some(name) => {
            if has_body {
                add_declared(name, list)
            } else {
                Ok(())
            }
        }
    }
}

/// Adds what a size tells inside the scope of parameters, which stands inside the others.
fn add_size(
    outside: &Outside<'_>,
    scopes: &Scopes<'_>,
    scope: &Scope<'_>,
    size: &Size,
    list: &mut Vec<CFact>,
) -> Result<(), NoMemory>
    ensures { OnOk result (list.new.items ≡ list.old.items ++ size_at (around_of outside.now) (scopes_of scopes.now ++ names_of scope.now ∷ []) size.now) }
{
    match size {
        Size::Number(_) => Ok(()),
        Size::Name(name) => {
            let bytes = name.bytes.as_slice();
            let entry = entry_in(scopes, scope, bytes);
            add_name(name.token, value_meant(outside.defines, bytes, entry), list)
        }
        Size::Call(name, _, width) => {
            let words = size_words(name.bytes.as_slice(), width.bytes.as_slice());
            add_name(name.token, words, list)
        }
    }
}

/// Adds what the size of a parameter tells, if there is one.
fn add_maybe_size(
    outside: &Outside<'_>,
    scopes: &Scopes<'_>,
    scope: &Scope<'_>,
    size: &Option<Size>,
    list: &mut Vec<CFact>,
) -> Result<(), NoMemory>
    ensures { OnOk result (list.new.items ≡ list.old.items ++ spec.maybe_size (around_of outside.now) (scopes_of scopes.now ++ names_of scope.now ∷ []) size.now) }
{
    match size {
        None => Ok(()),
        Some(size) => add_size(outside, scopes, scope, size, list),
    }
}

/// Adds what the array tells that a parameter is written as.
fn add_array(
    outside: &Outside<'_>,
    scopes: &Scopes<'_>,
    scope: &Scope<'_>,
    array: &Option<ParamArray>,
    list: &mut Vec<CFact>,
) -> Result<(), NoMemory>
    ensures { OnOk result (list.new.items ≡ list.old.items ++ spec.param_array_facts (around_of outside.now) (scopes_of scopes.now ++ names_of scope.now ∷ []) array.now) }
{
    match array {
        None => Ok(()),
        Some(array) => add_maybe_size(outside, scopes, scope, &array.size, list),
    }
}

/// Adds what a parameter tells by itself: its name, if it is told, and its size.
fn add_parts(
    outside: &Outside<'_>,
    scopes: &Scopes<'_>,
    scope: &Scope<'_>,
    has_body: bool,
    param: &Param,
    list: &mut Vec<CFact>,
) -> Result<(), NoMemory>
    ensures { OnOk result (list.new.items ≡ list.old.items ++ spec.param_facts (around_of outside.now) has_body (scopes_of scopes.now ++ names_of scope.now ∷ []) param.now) }
{
    add_param_name(has_body, &param.name, list)?;
    add_array(outside, scopes, scope, &param.array, list)
}

/// Adds what a parameter tells, whose name is in sight behind it.
fn add_param<'n>(
    outside: &Outside<'_>,
    scopes: &Scopes<'_>,
    scope: &mut Scope<'n>,
    has_body: bool,
    param: &'n Param,
    list: &mut Vec<CFact>,
) -> Result<(), NoMemory>
    ensures { Fills (spec.param_tells (around_of outside.now) has_body param.now) (scopes_of scopes.now) (names_of scope.old) list.old.items result (names_of scope.new) list.new.items }
{
    add_parts(outside, scopes, scope, has_body, param, list)?;
    walk_param(outside, scopes, scope, param, &mut None)
}

/// Adds what parameters tell in turn.
fn add_listed<'n>(
    outside: &Outside<'_>,
    scopes: &Scopes<'_>,
    scope: &mut Scope<'n>,
    has_body: bool,
    params: &'n [Param],
    list: &mut Vec<CFact>,
) -> Result<(), NoMemory>
    ensures { Fills (in_turn (map (spec.param_tells (around_of outside.now) has_body) params.now)) (scopes_of scopes.now) (names_of scope.old) list.old.items result (names_of scope.new) list.new.items }
{
    for param in params {
        add_param(outside, scopes, scope, has_body, param, list)?;
    }
    Ok(())
}

/// Adds what the parameters of a function tell.
fn add_params<'n>(
    outside: &Outside<'_>,
    scopes: &Scopes<'_>,
    scope: &mut Scope<'n>,
    has_body: bool,
    params: &'n Params,
    list: &mut Vec<CFact>,
) -> Result<(), NoMemory>
    ensures { Fills (spec.params_tell (around_of outside.now) has_body params.now) (scopes_of scopes.now) (names_of scope.old) list.old.items result (names_of scope.new) list.new.items }
{
    match params {
        Params::Void(_) => Ok(()),
        Params::List(params) => {
            add_listed(outside, scopes, scope, has_body, params.as_slice(), list)
        }
    }
}

/// The scope of a function's parameters inside these scopes, with what they tell added.
pub(crate) fn params_scope<'n>(
    alloc: Global,
    outside: &Outside<'_>,
    scopes: &Scopes<'_>,
    has_body: bool,
    params: &'n Params,
    list: &mut Vec<CFact>,
) -> Result<Scope<'n>, NoMemory>
    ensures { Opens (spec.params_tell (around_of outside.now) has_body params.now) (scopes_of scopes.now) list.old.items result list.new.items }
{
    let mut scope = Scope::new(alloc);
    add_params(outside, scopes, &mut scope, has_body, params, list)?;
    Ok(scope)
}
