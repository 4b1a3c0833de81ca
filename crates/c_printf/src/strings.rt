//! Calls of `printf`, by their first argument.
ghost use Rattle.std.specs.Prelude.{◌≡◌, IfOk};
ghost use Rattle.dpi_rules.specs.Least.{noted};
ghost use Rattle.c_printf.specs.Strings as spec;

use crate::arguments::text_fits;
use c_tree::{CExpr, Chain, Cond, Operand as OperandTree, Primary};
use c_typing::{Operand, Place};
use dpi_ports::NoMemory;
use dpi_rules::{Violation, note};
use std::alloc::Global;

fn primary_fits(
    alloc: Global,
    primary: &Primary,
    arguments: &[Option<Operand>],
) -> Result<bool, NoMemory>
    ensures { IfOk result (λ r. r ≡ spec.fits (spec.primary_string primary.now) arguments.now) }
{
    match primary {
        Primary::Text(text) => text_fits(alloc, text.bytes.as_slice(), arguments),
        _ => Ok(false),
    }
}

fn operand_fits(
    alloc: Global,
    operand: &OperandTree,
    arguments: &[Option<Operand>],
) -> Result<bool, NoMemory>
    ensures { IfOk result (λ r. r ≡ spec.fits (spec.operand_string operand.now) arguments.now) }
{
    if !operand.prefixes.is_empty() {
        return Ok(false);
    }
    if !operand.suffixes.is_empty() {
        return Ok(false);
    }
    primary_fits(alloc, &operand.primary, arguments)
}

fn chain_fits(alloc: Global, chain: &Chain, arguments: &[Option<Operand>]) -> Result<bool, NoMemory>
    ensures { IfOk result (λ r. r ≡ spec.fits (spec.chain_string chain.now) arguments.now) }
{
    if !chain.rest.is_empty() {
        return Ok(false);
    }
    operand_fits(alloc, &chain.first, arguments)
}

fn cond_fits(alloc: Global, cond: &Cond, arguments: &[Option<Operand>]) -> Result<bool, NoMemory>
    ensures { IfOk result (λ r. r ≡ spec.fits (spec.cond_string cond.now) arguments.now) }
{
    if cond.choice.is_some() {
        return Ok(false);
    }
    chain_fits(alloc, &cond.chain, arguments)
}

/// Whether an expression is one string token, and the arguments fit it as a format.
fn string_fits(alloc: Global, expr: &CExpr, arguments: &[Option<Operand>]) -> Result<bool, NoMemory>
    ensures { IfOk result (λ r. r ≡ spec.fits (spec.string_of expr.now) arguments.now) }
{
    if !expr.rest.is_empty() {
        return Ok(false);
    }
    cond_fits(alloc, &expr.first, arguments)
}

/// Whether the first argument of a call of `printf` is one string token, which isn't in parentheses,
/// and those behind it, by what they are, fit it as a format. One without a type fits each letter.
pub fn arguments_fit(
    alloc: Global,
    exprs: &[CExpr],
    arguments: &[Option<Operand>],
) -> Result<bool, NoMemory>
    ensures { IfOk result (λ r. r ≡ spec.arguments_fit exprs.now arguments.now) }
{
    match exprs {
        [] => Ok(false),
        [first, ..] => string_fits(alloc, first, arguments),
    }
}

/// Notes rule 17 at the called name, unless the arguments fit.
pub fn note_printf(place: Place, fits: bool, found: &mut Option<Violation>)
    ensures { found.new ≡ noted found.old (spec.printf_violations place fits) }
{
    if !fits {
        let violation = Violation {
            file: place.file,
            token: place.token,
            rule: 17,
        };
        note(found, violation);
    }
}
