//! Equal signatures (IEEE 1800-2017, 35.5.4 and 35.5.5).
ghost use Rattle.std.specs.Prelude.{◌≡◌};
ghost use Rattle.dpi_boundary.specs.Signatures as spec;

use crate::fits::agree;
use crate::kinds::{same_formal_kind, same_kind};
use sv_shapes::VarKind;
use sv_signatures::{Formal, ImportFormal, ImportSignature, Returns, Signature};

/// Whether two kinds are equal; a refused one equals every other.
fn same_known_kind(a: Option<VarKind>, b: Option<VarKind>) -> bool
    ensures { result ≡ spec.same_known_kind a b }
{
    match (a, b) {
        (Some(a), Some(b)) => same_kind(a, b),
        _ => true,
    }
}

fn same_returns(a: Returns, b: Returns) -> bool
    ensures { result ≡ spec.same_returns a b }
{
    match (a, b) {
        (Returns::Void, Returns::Void) => true,
        (Returns::Value(a), Returns::Value(b)) => same_known_kind(a, b),
        _ => false,
    }
}

fn same_import_formal(a: ImportFormal, b: ImportFormal) -> bool
    ensures { result ≡ spec.same_import_formal a b }
{
    let kinds = match (a.kind, b.kind) {
        (Some(a), Some(b)) => same_formal_kind(a, b),
        _ => true,
    };
    a.direction == b.direction && kinds
}

fn same_formal(a: Formal, b: Formal) -> bool
    ensures { result ≡ spec.same_formal a b }
{
    a.direction == b.direction && same_known_kind(a.kind, b.kind)
}

/// Whether there are as many formals, each equal to the other in its place.
fn same_import_formals(a: &[ImportFormal], b: &[ImportFormal]) -> bool
    ensures { result ≡ spec.same_import_formals a.now b.now }
{
    match a {
        [] => match b {
            [] => true,
            [_, ..] => false,
        },
        [f, more @ ..] => match b {
            [] => false,
            [g, others @ ..] => same_import_formal(*f, *g) && same_import_formals(more, others),
        },
    }
}

/// Whether there are as many formals, each equal to the other in its place.
fn same_formals(a: &[Formal], b: &[Formal]) -> bool
    ensures { result ≡ spec.same_formals a.now b.now }
{
    match a {
        [] => match b {
            [] => true,
            [_, ..] => false,
        },
        [f, more @ ..] => match b {
            [] => false,
            [g, others @ ..] => same_formal(*f, *g) && same_formals(more, others),
        },
    }
}

/// Whether two imports have equal signatures: both a task or both a function, equal results, and as
/// many formals, each of the other's direction and kind. Names, `context` and `pure` don't count
/// (IEEE 1800-2017, 35.5.4). A part that is refused equals every other.
pub fn same_import(a: &ImportSignature, b: &ImportSignature) -> bool
    ensures { result ≡ spec.same_import a.now b.now }
{
    let heads = agree(a.is_task, b.is_task) && same_returns(a.result, b.result);
    heads && same_import_formals(a.formals.as_slice(), b.formals.as_slice())
}

/// Whether two exported subroutines have equal signatures: both a task or both a function, equal
/// results, and as many formals, each of the other's direction and kind (IEEE 1800-2017, 35.5.5). A
/// part that is refused equals every other.
pub fn same_export(a: &Signature, b: &Signature) -> bool
    ensures { result ≡ spec.same_export a.now b.now }
{
    let heads = agree(a.is_task, b.is_task) && same_returns(a.result, b.result);
    heads && same_formals(a.formals.as_slice(), b.formals.as_slice())
}
