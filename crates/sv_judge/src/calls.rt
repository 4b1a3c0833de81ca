//! Calls: what is called, and its actuals (IEEE 1800-2017, 13.5 and 35.5.6).
ghost use Rattle.std.specs.Prelude.{◌≡◌, List, None, if◌then◌else◌};
ghost use Rattle.dpi_rules.specs.declared.violation.Violation.{Violation};
ghost use Rattle.dpi_rules.specs.Least.{noted, is_clean};
ghost use Rattle.sv_judge.specs.Calls as spec;

use crate::forms::{Form, Whole, plain_leaf};
use crate::place::Place;
use dpi_rules::{Violation, note};
use sv_names::Callee;
use sv_shapes::{FormalKind, VarKind};
use sv_signatures::Returns;
use sv_tree::Direction;
use sv_typing::{ExprType, Operand, kind_type};

/// The rule on the number of actuals.
const COUNT_RULE: u8 = 12;
/// The rule on actuals that are assigned to.
const PLACE_RULE: u8 = 13;
/// The rule on calls of tasks and void functions.
const CALL_RULE: u8 = 22;

/// What an actual is passed to.
#[derive(Clone, Copy, Debug, PartialEq, Eq)]
pub struct Passing {
    /// The direction of the formal.
    pub direction: Direction,
    /// What the formal takes. None where it is refused.
    pub formal: Option<FormalKind>,
}

/// What a formal of a subroutine takes, of which nothing is open.
fn sized(kind: Option<VarKind>) -> Option<FormalKind>
    ensures { result ≡ spec.sized kind }
{
    match kind {
        Some(kind) => Some(FormalKind::Sized(kind)),
        None => None,
    }
}

/// What the actual of this number, from 0, is passed to. None where there is no such formal.
pub fn passing_at(place: &Place<'_, '_>, callee: Option<Callee>, number: usize) -> Option<Passing>
    ensures { result ≡ spec.passing_at (spec.env_of place.now) callee number }
{
    match callee? {
        Callee::Subroutine(n) => {
            let formal = place.subroutines.get(n)?.formals.get(number)?;
            Some(Passing {
                direction: formal.direction,
                formal: sized(formal.kind),
            })
        }
        Callee::Import(n) => {
            let formal = place.imports.get(n)?.formals.get(number)?;
            Some(Passing {
                direction: formal.direction,
                formal: formal.kind,
            })
        }
    }
}

/// How many formals there are.
fn formal_count(place: &Place<'_, '_>, callee: Callee) -> Option<usize>
    ensures { result ≡ spec.formal_count (spec.env_of place.now) callee }
{
    match callee {
        Callee::Subroutine(n) => Some(place.subroutines.get(n)?.formals.len()),
        Callee::Import(n) => Some(place.imports.get(n)?.formals.len()),
    }
}

/// What the call gives.
pub fn result_of(place: &Place<'_, '_>, callee: Option<Callee>) -> Option<Returns>
    ensures { result ≡ spec.result_of (spec.env_of place.now) callee }
{
    match callee? {
        Callee::Subroutine(n) => Some(place.subroutines.get(n)?.result),
        Callee::Import(n) => Some(place.imports.get(n)?.result),
    }
}

/// Whether a task is called.
fn is_task(place: &Place<'_, '_>, callee: Callee) -> bool
    ensures { result ≡ spec.is_task (spec.env_of place.now) callee }
{
    match callee {
        Callee::Subroutine(n) => match place.subroutines.get(n) {
            Some(signature) => signature.is_task,
            None => false,
        },
        Callee::Import(n) => match place.imports.get(n) {
            Some(signature) => signature.is_task,
            None => false,
        },
    }
}

/// Notes the rule at the token, where it is broken.
fn note_if(file: u32, token: u32, rule: u8, broken: bool, found: &mut Option<Violation>)
    ensures { found.new ≡ noted found.old (spec.only_if broken file token rule) }
{
    if broken {
        note(found, Violation { file, token, rule });
    }
}

/// Whether there are more or fewer actuals than formals.
fn is_miscounted(count: Option<usize>, actuals: usize) -> bool
    ensures { result ≡ spec.is_miscounted count actuals }
{
    match count {
        Some(count) => count != actuals,
        None => false,
    }
}

/// Whether nothing is given.
fn is_void(given: Option<Returns>) -> bool
    ensures { result ≡ spec.is_void given }
{
    matches!(given, Some(Returns::Void))
}

/// Whether the callee can't be called so: in an expression one that gives nothing, as a statement in a
/// function a task.
fn is_misused(place: &Place<'_, '_>, callee: Callee, statement: bool) -> bool
    ensures { result ≡ spec.is_misused (spec.env_of place.now) callee statement }
{
    if statement {
        place.in_function && is_task(place, callee)
    } else {
        is_void(result_of(place, Some(callee)))
    }
}

/// Notes rules 12 and 22 at the called name.
pub fn note_callee(
    place: &Place<'_, '_>,
    token: u32,
    callee: Option<Callee>,
    actuals: usize,
    statement: bool,
    found: &mut Option<Violation>,
)
    ensures { found.new ≡ noted found.old (spec.callee_violations (spec.env_of place.now) token callee actuals statement) }
{
    if let Some(callee) = callee {
        let miscounted = is_miscounted(formal_count(place, callee), actuals);
        note_if(place.file, token, COUNT_RULE, miscounted, found);
        let misused = is_misused(place, callee, statement);
        note_if(place.file, token, CALL_RULE, misused, found);
    }
}

/// Whether an actual that the callee assigns to can't be assigned to.
fn is_misplaced(direction: Direction, form: Form) -> bool
    ensures { result ≡ spec.is_misplaced direction form }
{
    match direction {
        Direction::Input => false,
        Direction::Output | Direction::Inout => !matches!(form, Form::Place(_)),
    }
}

/// Notes what an actual violates where it is passed to a formal.
fn note_passed_to(
    file: u32,
    token: u32,
    passing: Passing,
    actual: Whole,
    found: &mut Option<Violation>,
)
    ensures { found.new ≡ noted found.old (spec.passed_to file token passing actual) }
{
    if passing.formal.is_some() {
        let misplaced = is_misplaced(passing.direction, actual.form);
        note_if(file, token, PLACE_RULE, misplaced, found);
        let plain = plain_leaf(actual.form);
        sv_contexts::note_passed(file, token, passing.formal, plain, actual.value, found);
    }
}

/// Notes what an actual violates, by its first token, where there is a formal for it: rule 13 where
/// the formal is an output or inout and the actual can't be assigned to, and what an assignment to the
/// formal violates, or for an open array of an import what doesn't fit it (35.5.6.1). Nothing is noted
/// for a formal that is refused.
pub fn note_passed(
    file: u32,
    token: u32,
    passing: Option<Passing>,
    actual: Whole,
    found: &mut Option<Violation>,
)
    ensures { found.new ≡ noted found.old (spec.passed file token passing actual) }
{
    if let Some(passing) = passing {
        note_passed_to(file, token, passing, actual, found);
    }
}

/// The type of a variable of this kind, if there is one.
fn target_of(kind: Option<VarKind>) -> Option<ExprType>
    ensures { result ≡ spec.target_of kind }
{
    match kind {
        Some(kind) => Some(kind_type(&kind)),
        None => None,
    }
}

/// An expression of this type, if there is one.
fn typed(of: Option<ExprType>) -> Option<Operand>
    ensures { result ≡ spec.typed of }
{
    match of {
        Some(of) => Some(Operand { of, reach: None }),
        None => None,
    }
}

/// The expression that a call is, where nothing in it is violated.
pub fn call_value(given: Option<Returns>) -> Option<Operand>
    ensures { result ≡ spec.call_value given }
{
    let given = given?;
    match given {
        Returns::Void => typed(Some(ExprType::Void)),
        Returns::Value(kind) => typed(target_of(kind)),
    }
}

/// The value, where nothing was found.
pub fn unless_found(found: Option<Violation>, value: Option<Operand>) -> Option<Operand>
    ensures { (vs : List Violation) → found ≡ noted None vs → result ≡ spec.if_clean vs value }
{
    match found {
        None => value,
        Some(_) => None,
    }
}
