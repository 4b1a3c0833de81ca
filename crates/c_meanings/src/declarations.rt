//! Declarations of variables (ISO C 6.7).
ghost use Rattle.std.specs.Prelude.{◌≡◌, ◌++◌, OnOk, map};
ghost use Rattle.c_names.specs.Scopes.{scopes_of};
ghost use Rattle.c_walk.specs.Around.{around_of};
ghost use Rattle.c_meanings.specs.Sight.{Adds, in_turn};
ghost use Rattle.c_meanings.specs.Declarations as spec;

use crate::places::{add_size, add_value, add_values};
use c_facts::{CFact, CMeant};
use c_names::Scopes;
use c_tree::{Array, CType as TypeTree, Declarator, Init, Initializer, Name, Variables};
use c_walk::{Outside, lasts, see_variable};
use dpi_ports::NoMemory;
use std::alloc::Global;

/// Adds that this name declares an object.
pub(crate) fn add_declared(name: &Name, list: &mut Vec<CFact>) -> Result<(), NoMemory>
    ensures { OnOk result (list.new.items ≡ list.old.items ++ spec.declares name.now) }
{
    list.push(CFact::Name(name.token, CMeant::Object(name.token)))?;
    Ok(())
}

/// Adds what the size of an array tells, if there is one.
fn add_array(
    outside: &Outside<'_>,
    scopes: &Scopes<'_>,
    array: &Option<Array>,
    list: &mut Vec<CFact>,
) -> Result<(), NoMemory>
    ensures { OnOk result (list.new.items ≡ list.old.items ++ spec.array_facts (around_of outside.now) (scopes_of scopes.now) array.now) }
{
    match array {
        None => Ok(()),
        Some(array) => add_size(outside, scopes, &array.size, list),
    }
}

/// Adds what a variable begins with tells: a value, or several.
fn add_init(
    alloc: Global,
    outside: &Outside<'_>,
    scopes: &Scopes<'_>,
    init: &Init,
    list: &mut Vec<CFact>,
) -> Result<(), NoMemory>
    ensures { OnOk result (list.new.items ≡ list.old.items ++ spec.init_facts (around_of outside.now) (scopes_of scopes.now) init.now) }
{
    match init {
        Init::Value(e) => add_value(alloc, outside, scopes, e, list),
        Init::List(_, es) => add_values(alloc, outside, scopes, es.as_slice(), list),
    }
}

/// Adds what a variable begins with tells, if it begins with anything.
fn add_initializer(
    alloc: Global,
    outside: &Outside<'_>,
    scopes: &Scopes<'_>,
    initializer: &Option<Initializer>,
    list: &mut Vec<CFact>,
) -> Result<(), NoMemory>
    ensures { OnOk result (list.new.items ≡ list.old.items ++ spec.initializer_facts (around_of outside.now) (scopes_of scopes.now) initializer.now) }
{
    match initializer {
        None => Ok(()),
        Some(initializer) => add_init(alloc, outside, scopes, &initializer.value, list),
    }
}

/// Adds what a variable tells up to the end of its declarator: its name, and its size.
fn add_name_and_size(
    outside: &Outside<'_>,
    scopes: &Scopes<'_>,
    declarator: &Declarator,
    list: &mut Vec<CFact>,
) -> Result<(), NoMemory>
    ensures { OnOk result (list.new.items ≡ list.old.items ++ spec.declarator_facts (around_of outside.now) (scopes_of scopes.now) declarator.now) }
{
    add_declared(&declarator.name, list)?;
    add_array(outside, scopes, &declarator.array, list)
}

/// Adds what a variable tells, whose name is in sight behind its declarator.
fn add_declarator<'n>(
    alloc: Global,
    outside: &Outside<'_>,
    scopes: &mut Scopes<'n>,
    lasts: bool,
    tree: &TypeTree,
    declarator: &'n Declarator,
    list: &mut Vec<CFact>,
) -> Result<(), NoMemory>
    ensures { Adds (spec.declarator_tells (around_of outside.now) lasts tree.now declarator.now) (scopes_of scopes.old) list.old.items result (scopes_of scopes.new) list.new.items }
{
    add_name_and_size(outside, scopes, declarator, list)?;
    see_variable(outside, scopes, lasts, tree, declarator)?;
    add_initializer(alloc, outside, scopes, &declarator.initializer, list)
}

/// Adds what variables of one type tell.
fn add_declarators<'n>(
    alloc: Global,
    outside: &Outside<'_>,
    scopes: &mut Scopes<'n>,
    lasts: bool,
    tree: &TypeTree,
    declarators: &'n [Declarator],
    list: &mut Vec<CFact>,
) -> Result<(), NoMemory>
    ensures { Adds (in_turn (map (spec.declarator_tells (around_of outside.now) lasts tree.now) declarators.now)) (scopes_of scopes.old) list.old.items result (scopes_of scopes.new) list.new.items }
{
    for declarator in declarators {
        add_declarator(alloc, outside, scopes, lasts, tree, declarator, list)?;
    }
    Ok(())
}

/// Adds what variables of one type tell, at file scope or elsewhere: each is in sight from its own
/// name on.
pub(crate) fn add_variables<'n>(
    alloc: Global,
    outside: &Outside<'_>,
    scopes: &mut Scopes<'n>,
    at_file: bool,
    variables: &'n Variables,
    list: &mut Vec<CFact>,
) -> Result<(), NoMemory>
    ensures { Adds (spec.variables_tell (around_of outside.now) at_file variables.now) (scopes_of scopes.old) list.old.items result (scopes_of scopes.new) list.new.items }
{
    let lasts = lasts(at_file, &variables.store);
    let declarators = variables.declarators.as_slice();
    add_declarators(
        alloc,
        outside,
        scopes,
        lasts,
        &variables.kind,
        declarators,
        list,
    )
}
