//! Which C functions can stand for an import or an export (IEEE 1800-2017, 35.5.4 and 35.5.5).
ghost use Rattle.std.specs.Prelude.{◌≡◌};
ghost use Rattle.dpi_boundary.specs.Functions as spec;

use crate::fits::{fits_formal, fits_result, fits_variable};
use c_base::CType;
use c_functions::FunctionType;
use sv_signatures::{Formal, ImportFormal, ImportSignature, Returns, Signature};

/// Whether the result fits; a refused one does.
fn fits_known_result(returns: Returns, is_task: bool, of: Option<CType>) -> bool
    ensures { result ≡ spec.fits_known_result returns is_task of }
{
    match of {
        Some(of) => fits_result(returns, is_task, of),
        None => true,
    }
}

/// Whether a parameter can stand for a formal of an import; a refused one can.
fn fits_import_formal(formal: ImportFormal, of: Option<CType>) -> bool
    ensures { result ≡ spec.fits_import_formal formal of }
{
    match (formal.kind, of) {
        (Some(kind), Some(of)) => fits_formal(formal.direction, kind, of),
        _ => true,
    }
}

/// Whether a parameter can stand for a formal of an exported subroutine; a refused one can.
fn fits_export_formal(formal: Formal, of: Option<CType>) -> bool
    ensures { result ≡ spec.fits_export_formal formal of }
{
    match (formal.kind, of) {
        (Some(kind), Some(of)) => fits_variable(formal.direction, kind, of),
        _ => true,
    }
}

/// Whether there are as many parameters as formals, each of which fits.
fn fit_import_formals(formals: &[ImportFormal], params: &[Option<CType>]) -> bool
    ensures { result ≡ spec.fit_import_formals formals.now params.now }
{
    match formals {
        [] => match params {
            [] => true,
            [_, ..] => false,
        },
        [formal, more @ ..] => match params {
            [] => false,
            [param, others @ ..] => fits_import_formal(*formal, *param)
                && fit_import_formals(more, others),
        },
    }
}

/// Whether there are as many parameters as formals, each of which fits.
fn fit_export_formals(formals: &[Formal], params: &[Option<CType>]) -> bool
    ensures { result ≡ spec.fit_export_formals formals.now params.now }
{
    match formals {
        [] => match params {
            [] => true,
            [_, ..] => false,
        },
        [formal, more @ ..] => match params {
            [] => false,
            [param, others @ ..] => fits_export_formal(*formal, *param)
                && fit_export_formals(more, others),
        },
    }
}

/// Whether a C function of this type can be the body of the import: it has as many parameters as
/// there are formals, and each of them and the result fit. A refused part on either side fits
/// (IEEE 1800-2017, 35.5.4).
pub fn fits_import(signature: &ImportSignature, of: &FunctionType) -> bool
    ensures { result ≡ spec.fits_import signature.now of.now }
{
    fits_known_result(signature.result, signature.is_task, of.result)
        && fit_import_formals(signature.formals.as_slice(), of.params.as_slice())
}

/// Whether a C function of this type can be the one through which C calls the exported subroutine:
/// it has as many parameters as there are formals, and each of them and the result fit. A refused
/// part on either side fits (IEEE 1800-2017, 35.5.5).
pub fn fits_export(signature: &Signature, of: &FunctionType) -> bool
    ensures { result ≡ spec.fits_export signature.now of.now }
{
    fits_known_result(signature.result, signature.is_task, of.result)
        && fit_export_formals(signature.formals.as_slice(), of.params.as_slice())
}
