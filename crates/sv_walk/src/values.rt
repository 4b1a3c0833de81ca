//! Values and patterns that are assigned (IEEE 1800-2017, 10.4 and 10.9).
ghost use Rattle.std.specs.Prelude.{◌≡◌, IfOk, flat_map};
ghost use Rattle.dpi_rules.specs.Least.{noted};
ghost use Rattle.sv_judge.specs.Calls.{env_of, target_of as target_by};
ghost use Rattle.sv_walk.specs.Values as spec;

use dpi_ports::NoMemory;
use dpi_rules::Violation;
use std::alloc::Global;
use sv_contexts::{note_assigned, note_pattern, part_target};
use sv_judge::{Place, judge_expr};
use sv_shapes::VarKind;
use sv_tree::{Expr, Init};
use sv_typing::{ExprType, Operand, kind_type};

/// The type of an expression that has one.
pub(crate) fn type_of(operand: Option<Operand>) -> Option<ExprType>
    ensures { result ≡ spec.type_of operand }
{
    match operand {
        Some(operand) => Some(operand.of),
        None => None,
    }
}

/// The type of a variable of this kind.
pub(crate) fn target_of(kind: Option<VarKind>) -> Option<ExprType>
    ensures { result ≡ target_by kind }
{
    match kind {
        Some(kind) => Some(kind_type(&kind)),
        None => None,
    }
}

/// Notes what a value violates that is assigned to what has this type.
#[tactic(auto, using(crate::proofs::Notes::appended))]
pub(crate) fn note_value(
    alloc: Global,
    place: &Place<'_, '_>,
    target: Option<ExprType>,
    e: &Expr,
    found: &mut Option<Violation>,
) -> Result<(), NoMemory>
    ensures { IfOk result (λ _. found.new ≡ noted found.old (spec.value_violations (env_of place.now) target e.now)) }
{
    let whole = judge_expr(alloc, place, e, found)?;
    note_assigned(place.file, e.token, target, whole.value, found);
    Ok(())
}

/// Notes what an initialiser violates that is assigned to what has this type: a value, or a pattern,
/// whose parts are assigned in turn.
#[cycle(initials)]
pub(crate) fn note_init(
    alloc: Global,
    place: &Place<'_, '_>,
    target: Option<ExprType>,
    init: &Init,
    found: &mut Option<Violation>,
) -> Result<(), NoMemory>
    ensures { IfOk result (λ _. found.new ≡ noted found.old (spec.init_violations (env_of place.now) init.now target)) }
{
    match init {
        Init::Value(e) => note_value(alloc, place, target, e, found),
        Init::Pattern(token, parts) => {
            note_pattern(place.file, *token, target, parts.len(), found);
            note_parts(alloc, place, part_target(target), parts.as_slice(), found)
        }
    }
}

/// Notes what the parts of a pattern violate, each assigned to what has this type.
#[cycle(initials)]
fn note_parts(
    alloc: Global,
    place: &Place<'_, '_>,
    target: Option<ExprType>,
    parts: &[Init],
    found: &mut Option<Violation>,
) -> Result<(), NoMemory>
    ensures { IfOk result (λ _. found.new ≡ noted found.old (flat_map (λ x. spec.init_violations (env_of place.now) x target) parts.now)) }
{
    for part in parts {
        note_init(alloc, place, target, part, found)?;
    }
    Ok(())
}
