//! Initialisers (ISO C 6.7.9).
ghost use Rattle.std.specs.Prelude.{◌≡◌, IfOk, flat_map};
ghost use Rattle.dpi_rules.specs.Least.{noted};
ghost use Rattle.c_names.specs.Scopes.{scopes_of, find};
ghost use Rattle.c_walk.specs.Around.{around_of};
ghost use Rattle.c_walk.specs.Objects as spec;

use crate::objects::Object;
use crate::outside::{Outside, at};
use crate::plain::{note_constant, note_value};
use c_initial::note_values;
use c_names::Scopes;
use c_tree::{CExpr, Init, Initializer};
use c_typing::Place;
use dpi_ports::NoMemory;
use dpi_rules::Violation;
use std::alloc::Global;

fn note_lasting(
    outside: &Outside<'_>,
    scopes: &Scopes<'_>,
    place: Place,
    lasts: bool,
    e: &CExpr,
    found: &mut Option<Violation>,
)
    ensures { found.new ≡ noted found.old (spec.lasting_violations (find (scopes_of scopes.now)) place lasts e.now) }
{
    if lasts {
        note_constant(outside, scopes, place, e, found);
    }
}

fn begin_value(
    alloc: Global,
    outside: &Outside<'_>,
    scopes: &Scopes<'_>,
    place: Place,
    object: Object,
    e: &CExpr,
    found: &mut Option<Violation>,
) -> Result<(), NoMemory>
    ensures { IfOk result (λ _. found.new ≡ noted found.old (spec.begin_violations (around_of outside.now) (scopes_of scopes.now) place object e.now)) }
{
    note_lasting(outside, scopes, place, object.lasts, e, found);
    note_value(alloc, outside, scopes, e, object.cell_type(), found)?;
    Ok(())
}

fn begin_values(
    alloc: Global,
    outside: &Outside<'_>,
    scopes: &Scopes<'_>,
    place: Place,
    object: Object,
    es: &[CExpr],
    found: &mut Option<Violation>,
) -> Result<(), NoMemory>
    ensures { IfOk result (λ _. found.new ≡ noted found.old (flat_map (spec.begin_violations (around_of outside.now) (scopes_of scopes.now) place object) es.now)) }
{
    for e in es {
        begin_value(alloc, outside, scopes, place, object, e, found)?;
    }
    Ok(())
}

fn begin_with(
    alloc: Global,
    outside: &Outside<'_>,
    scopes: &Scopes<'_>,
    place: Place,
    object: Object,
    init: &Init,
    found: &mut Option<Violation>,
) -> Result<(), NoMemory>
    ensures { IfOk result (λ _. found.new ≡ noted found.old (spec.init_violations (around_of outside.now) (scopes_of scopes.now) place object init.now)) }
{
    match init {
        Init::Value(e) => begin_value(alloc, outside, scopes, place, object, e, found),
        Init::List(_, es) => {
            begin_values(alloc, outside, scopes, place, object, es.as_slice(), found)
        }
    }
}

fn begin_by(
    alloc: Global,
    outside: &Outside<'_>,
    scopes: &Scopes<'_>,
    object: Object,
    initializer: &Initializer,
    found: &mut Option<Violation>,
) -> Result<(), NoMemory>
    ensures { IfOk result (λ _. found.new ≡ noted found.old (spec.begun_violations (around_of outside.now) (scopes_of scopes.now) object initializer.now)) }
{
    let place = at(outside, initializer.token);
    let init = &initializer.value;
    note_values(place, object.is_array, object.cells, init, found);
    begin_with(alloc, outside, scopes, place, object, init, found)
}

/// Notes what the initialiser of an object violates, if there is one.
pub(crate) fn begin(
    alloc: Global,
    outside: &Outside<'_>,
    scopes: &Scopes<'_>,
    object: Object,
    initializer: &Option<Initializer>,
    found: &mut Option<Violation>,
) -> Result<(), NoMemory>
    ensures { IfOk result (λ _. found.new ≡ noted found.old (spec.initializer_violations (around_of outside.now) (scopes_of scopes.now) object initializer.now)) }
{
    match initializer {
        None => Ok(()),
        Some(initializer) => begin_by(alloc, outside, scopes, object, initializer, found),
    }
}
