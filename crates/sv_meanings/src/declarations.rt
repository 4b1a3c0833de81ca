//! Declared names, and what variables begin with (IEEE 1800-2017, 6.8 and 10.9).
ghost use Rattle.std.specs.Prelude.{◌≡◌, ◌++◌, OnOk, flat_map};
ghost use Rattle.sv_meanings.specs.Places.{at};
ghost use Rattle.sv_meanings.specs.Declarations as spec;

use crate::places::add_value;
use dpi_ports::NoMemory;
use std::alloc::Global;
use sv_facts::{Fact, Meant};
use sv_names::Scopes;
use sv_tree::{Declarator, Init, Initializer, Name, Variables};
use sv_walk::Around;

/// Adds that this name means this.
pub(crate) fn add_meant(name: &Name, meant: Meant, list: &mut Vec<Fact>) -> Result<(), NoMemory>
    ensures { OnOk result (list.new.items ≡ list.old.items ++ spec.means name.now meant) }
{
    list.push(Fact::Name(name.token, meant))?;
    Ok(())
}

/// Adds that this name declares a variable or a formal.
pub(crate) fn add_declared(name: &Name, list: &mut Vec<Fact>) -> Result<(), NoMemory>
    ensures { OnOk result (list.new.items ≡ list.old.items ++ spec.declares name.now) }
{
    add_meant(name, Meant::Declaration(name.token), list)
}

/// Adds what an initialiser tells: a value, or the parts of a pattern.
#[cycle(initials)]
pub(crate) fn add_init(
    alloc: Global,
    around: &Around<'_>,
    scopes: &Scopes<'_>,
    init: &Init,
    list: &mut Vec<Fact>,
) -> Result<(), NoMemory>
    ensures { OnOk result (list.new.items ≡ list.old.items ++ spec.init_facts (at around.now scopes.now) init.now) }
{
    match init {
        Init::Value(e) => add_value(alloc, around, scopes, e, list),
        Init::Pattern(_, parts) => add_parts(alloc, around, scopes, parts.as_slice(), list),
    }
}

/// Adds what the parts of a pattern tell.
#[cycle(initials)]
fn add_parts(
    alloc: Global,
    around: &Around<'_>,
    scopes: &Scopes<'_>,
    parts: &[Init],
    list: &mut Vec<Fact>,
) -> Result<(), NoMemory>
    ensures { OnOk result (list.new.items ≡ list.old.items ++ flat_map (spec.init_facts (at around.now scopes.now)) parts.now) }
{
    for part in parts {
        add_init(alloc, around, scopes, part, list)?;
    }
    Ok(())
}

/// Adds what a variable begins with tells, if it begins with anything.
fn add_initial(
    alloc: Global,
    around: &Around<'_>,
    scopes: &Scopes<'_>,
    initializer: &Option<Initializer>,
    list: &mut Vec<Fact>,
) -> Result<(), NoMemory>
    ensures { OnOk result (list.new.items ≡ list.old.items ++ spec.initial_facts (at around.now scopes.now) initializer.now) }
{
    match initializer {
        None => Ok(()),
        Some(initializer) => add_init(alloc, around, scopes, &initializer.value, list),
    }
}

/// Adds what a variable tells: its name, and what it begins with.
fn add_declarator(
    alloc: Global,
    around: &Around<'_>,
    scopes: &Scopes<'_>,
    declarator: &Declarator,
    list: &mut Vec<Fact>,
) -> Result<(), NoMemory>
    ensures { OnOk result (list.new.items ≡ list.old.items ++ spec.declarator_facts (at around.now scopes.now) declarator.now) }
{
    add_declared(&declarator.name, list)?;
    add_initial(alloc, around, scopes, &declarator.initializer, list)
}

/// Adds what variables of one type tell.
fn add_declarators(
    alloc: Global,
    around: &Around<'_>,
    scopes: &Scopes<'_>,
    declarators: &[Declarator],
    list: &mut Vec<Fact>,
) -> Result<(), NoMemory>
    ensures { OnOk result (list.new.items ≡ list.old.items ++ flat_map (spec.declarator_facts (at around.now scopes.now)) declarators.now) }
{
    for declarator in declarators {
        add_declarator(alloc, around, scopes, declarator, list)?;
    }
    Ok(())
}

/// Adds what a declaration of variables tells, in the scopes that hold them.
pub(crate) fn add_variables(
    alloc: Global,
    around: &Around<'_>,
    scopes: &Scopes<'_>,
    variables: &Variables,
    list: &mut Vec<Fact>,
) -> Result<(), NoMemory>
    ensures { OnOk result (list.new.items ≡ list.old.items ++ spec.variables_facts (at around.now scopes.now) variables.now) }
{
    add_declarators(
        alloc,
        around,
        scopes,
        variables.declarators.as_slice(),
        list,
    )
}

/// Adds what several declarations of variables tell.
pub(crate) fn add_all_variables(
    alloc: Global,
    around: &Around<'_>,
    scopes: &Scopes<'_>,
    declarations: &[Variables],
    list: &mut Vec<Fact>,
) -> Result<(), NoMemory>
    ensures { OnOk result (list.new.items ≡ list.old.items ++ flat_map (spec.variables_facts (at around.now scopes.now)) declarations.now) }
{
    for variables in declarations {
        add_variables(alloc, around, scopes, variables, list)?;
    }
    Ok(())
}
