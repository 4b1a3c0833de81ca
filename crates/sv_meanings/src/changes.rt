//! Changes of variables, and what a `for` begins with (IEEE 1800-2017, 10.4, 11.4.1, 11.4.2 and
//! 12.7.1).
ghost use Rattle.std.specs.Prelude.{◌≡◌, ◌++◌, OnOk};
ghost use Rattle.sv_meanings.specs.Places.{at};
ghost use Rattle.sv_meanings.specs.Changes as spec;

use crate::declarations::{add_declared, add_init};
use crate::places::{add_changed, add_value};
use dpi_ports::NoMemory;
use std::alloc::Global;
use sv_facts::Fact;
use sv_names::Scopes;
use sv_tree::{Change, Expr, Start};
use sv_walk::Around;

/// Adds what a change tells: what is changed, then what it is changed by.
pub(crate) fn add_change(
    alloc: Global,
    around: &Around<'_>,
    scopes: &Scopes<'_>,
    change: &Change,
    list: &mut Vec<Fact>,
) -> Result<(), NoMemory>
    ensures { OnOk result (list.new.items ≡ list.old.items ++ spec.change_facts (at around.now scopes.now) change.now) }
{
    match change {
        Change::Assign(lvalue, _, init) => {
            add_changed(alloc, around, scopes, lvalue, list)?;
            add_init(alloc, around, scopes, init, list)
        }
        Change::Compute(lvalue, _, _, e) => {
            add_changed(alloc, around, scopes, lvalue, list)?;
            add_value(alloc, around, scopes, e, list)
        }
        Change::Step(lvalue, _, _) => add_changed(alloc, around, scopes, lvalue, list),
    }
}

/// Adds what a `for` begins with tells.
fn add_start(
    alloc: Global,
    around: &Around<'_>,
    scopes: &Scopes<'_>,
    start: &Start,
    list: &mut Vec<Fact>,
) -> Result<(), NoMemory>
    ensures { OnOk result (list.new.items ≡ list.old.items ++ spec.start_facts (at around.now scopes.now) start.now) }
{
    match start {
        Start::Declare(_, name, _, e) => {
            add_declared(name, list)?;
            add_value(alloc, around, scopes, e, list)
        }
        Start::Assign(lvalue, _, e) => {
            add_changed(alloc, around, scopes, lvalue, list)?;
            add_value(alloc, around, scopes, e, list)
        }
    }
}

/// Adds what the head of a `for` tells: what it begins with, its condition and its change.
pub(crate) fn add_head(
    alloc: Global,
    around: &Around<'_>,
    scopes: &Scopes<'_>,
    start: &Start,
    condition: &Expr,
    change: &Change,
    list: &mut Vec<Fact>,
) -> Result<(), NoMemory>
    ensures { OnOk result (list.new.items ≡ list.old.items ++ spec.head_facts (at around.now scopes.now) start.now condition.now change.now) }
{
    add_start(alloc, around, scopes, start, list)?;
    add_value(alloc, around, scopes, condition, list)?;
    add_change(alloc, around, scopes, change, list)
}
