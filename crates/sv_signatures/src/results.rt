//! What a call gives (IEEE 1800-2017, 13.4.1).
ghost use Rattle.std.specs.Prelude.{◌≡◌};
ghost use Rattle.dpi_rules.specs.Least.{noted};
ghost use Rattle.sv_signatures.specs.Signatures as spec;

use dpi_rules::Violation;
use sv_shapes::{VarKind, variable_kind};
use sv_tree::{ImportKind, Outcome};

/// What a call gives.
#[derive(Clone, Copy, Debug, PartialEq, Eq)]
pub enum Returns {
    /// Nothing: the call of a task or of a void function.
    Void,
    /// A value of this kind; None where the type of the function is refused.
    Value(Option<VarKind>),
}

/// What a function gives, with what its type violates noted; `name` is the token of its name.
pub(crate) fn outcome_returns(
    file: u32,
    name: u32,
    outcome: &Outcome,
    found: &mut Option<Violation>,
) -> Returns
    ensures returns { result ≡ spec.returns outcome.now }
    ensures violations { found.new ≡ noted found.old (spec.outcome_violations file name outcome.now) }
{
    match outcome {
        Outcome::Data(kind) => Returns::Value(variable_kind(file, name, kind, &[], found)),
        Outcome::Void(_) => Returns::Void,
    }
}

/// What an import gives, with what its type violates noted; `name` is the token of its name.
pub(crate) fn import_returns(
    file: u32,
    name: u32,
    kind: &ImportKind,
    found: &mut Option<Violation>,
) -> Returns
    ensures returns { result ≡ spec.import_returns kind.now }
    ensures violations { found.new ≡ noted found.old (spec.import_outcome_violations file name kind.now) }
{
    match kind {
        ImportKind::Function(_, outcome) => outcome_returns(file, name, outcome, found),
        ImportKind::Task(_) => Returns::Void,
    }
}

/// Whether a task is imported.
pub(crate) fn is_task(kind: &ImportKind) -> bool
    ensures { result ≡ spec.is_task kind.now }
{
    matches!(kind, ImportKind::Task(_))
}
