//! Calls of C functions that have no body (ISO C 6.5.2.2; IEEE 1800-2017, 35.5.5).
ghost use Rattle.std.specs.Prelude.{◌≡◌, ◌≤◌, Some, None, length, map, option_map, if◌then◌else◌, IfOk, OnOk, ℕ, List};
ghost use Rattle.std.specs.Option.{option_or};
ghost use Rattle.std.specs.Str.{bytes_eq};
ghost use Rattle.dpi_rules.specs.Least.{noted};
ghost use Rattle.c_functions.specs.Declarations as functions;
ghost use Rattle.c_calls.specs.Refusals.{rules_of};
ghost use Rattle.c_calls.specs.Files.{in_file};
ghost use Rattle.dpi_links.specs.Functions.{bodies_of};
ghost use Rattle.dpi_links.specs.Exports as exports;
ghost use Rattle.dpi_links.specs.Exporters.{exports_of};
ghost use Rattle.dpi_links.specs.Calls as spec;

use crate::exporters::Exporters;
use crate::functions::{Bodies, static_bodies};
use c_calls::{Refusals, note_calls};
use c_functions::{Declaration, function_type};
use c_tree::CFile;
use dpi_agree::LinkedExport;
use dpi_boundary::fits_export;
use dpi_ports::NoMemory;
use dpi_rules::Violation;
use sqlite_items::Items;
use std::alloc::Global;
use sv_signatures::Signature;

/// The rule on calls of functions that nobody has.
const BODY_RULE: u8 = 12;

/// The rule on calls of exports by another type.
const TYPE_RULE: u8 = 13;

fn signed_rule(
    alloc: Global,
    signature: &Signature,
    declaration: Declaration<'_>,
) -> Result<Option<u8>, NoMemory>
    ensures { IfOk result (λ r. r ≡ spec.type_rule (Some signature.now) (functions.told declaration.entry).of) }
{
    if !declaration.is_known {
        return Ok(None);
    }
    let of = function_type(alloc, declaration.function)?;
    if fits_export(signature, &of) {
        Ok(None)
    } else {
        Ok(Some(TYPE_RULE))
    }
}

fn type_rule(
    alloc: Global,
    signature: Option<&Signature>,
    declaration: Declaration<'_>,
) -> Result<Option<u8>, NoMemory>
    ensures { IfOk result (λ r. r ≡ spec.type_rule (option_map exports.value_of signature.entry) (functions.told declaration.entry).of) }
{
    match signature {
        None => Ok(None),
        Some(signature) => signed_rule(alloc, signature, declaration),
    }
}

/// The rule that calls of a function without body break, by the export of its name.
fn export_rule(
    alloc: Global,
    export: Option<LinkedExport<'_>>,
    declaration: Declaration<'_>,
) -> Result<Option<u8>, NoMemory>
    ensures { IfOk result (λ r. r ≡ spec.export_rule (option_map exports.named_told export.entry) (functions.told declaration.entry).of) }
{
    match export {
        None => Ok(Some(BODY_RULE)),
        Some(export) => type_rule(alloc, export.signature, declaration),
    }
}

/// The rule that calls of a function break that all files share.
fn shared_rule(
    alloc: Global,
    body: Option<Declaration<'_>>,
    export: Option<LinkedExport<'_>>,
    declaration: Declaration<'_>,
) -> Result<Option<u8>, NoMemory>
    ensures { IfOk result (λ r. r ≡ spec.shared_rule (option_map functions.told body.entry) (option_map exports.named_told export.entry) (functions.told declaration.entry).of) }
{
    match body {
        Some(_) => Ok(None),
        None => export_rule(alloc, export, declaration),
    }
}

/// The rule that calls of a static function break.
fn static_rule(body: Option<Declaration<'_>>) -> Option<u8>
    ensures { result ≡ spec.static_rule (option_map functions.told body.entry) }
{
    match body {
        None => Some(BODY_RULE),
        Some(_) => None,
    }
}

/// The rule that calls of a declared function break, where its file has these static bodies.
fn rule_of(
    alloc: Global,
    bodies: &Bodies<'_>,
    exporters: &Exporters<'_>,
    statics: &Bodies<'_>,
    declaration: Declaration<'_>,
) -> Result<Option<u8>, NoMemory>
    ensures { IfOk result (λ r. r ≡ spec.rule_of (bodies_of bodies.now) (exports_of exporters.now) (bodies_of statics.now) (functions.told declaration.entry)) }
{
    let name = declaration.function.name.bytes.as_slice();
    if declaration.is_static {
        Ok(static_rule(statics.get(name)))
    } else {
        shared_rule(alloc, bodies.get(name), exporters.get(name), declaration)
    }
}

fn refuse<'a>(refusals: &mut Refusals<'a>, name: &'a [u8], rule: Option<u8>) -> Result<(), NoMemory>
    ensures { OnOk result ((q : List ℕ) → rules_of refusals.new q ≡ option_or (rules_of refusals.old q) (if bytes_eq name.now q then rule else None)) }
{
    if let Some(rule) = rule {
        refusals.refuse(name, rule)?;
    }
    Ok(())
}

fn add_rule<'a>(
    alloc: Global,
    refusals: &mut Refusals<'a>,
    bodies: &Bodies<'_>,
    exporters: &Exporters<'_>,
    statics: &Bodies<'_>,
    declaration: Declaration<'a>,
) -> Result<(), NoMemory>
    ensures { OnOk result ((q : List ℕ) → rules_of refusals.new q ≡ option_or (rules_of refusals.old q) (spec.rule_given (bodies_of bodies.now) (exports_of exporters.now) (bodies_of statics.now) (functions.told declaration.entry) q)) }
{
    let rule = rule_of(alloc, bodies, exporters, statics, declaration)?;
    refuse(refusals, declaration.function.name.bytes.as_slice(), rule)
}

fn add_rules<'a>(
    alloc: Global,
    refusals: &mut Refusals<'a>,
    bodies: &Bodies<'_>,
    exporters: &Exporters<'_>,
    statics: &Bodies<'_>,
    declarations: &[Declaration<'a>],
) -> Result<(), NoMemory>
    ensures { OnOk result ((q : List ℕ) → rules_of refusals.new q ≡ option_or (rules_of refusals.old q) (spec.rules_given (bodies_of bodies.now) (exports_of exporters.now) (bodies_of statics.now) (map functions.told declarations.now) q)) }
{
    for declaration in declarations {
        add_rule(alloc, refusals, bodies, exporters, statics, *declaration)?;
    }
    Ok(())
}

/// The rules that calls break in a file with these declarations of functions.
fn refusals_of<'a>(
    alloc: Global,
    bodies: &Bodies<'_>,
    exporters: &Exporters<'_>,
    declarations: &[Declaration<'a>],
) -> Result<Refusals<'a>, NoMemory>
    ensures { IfOk result (λ r. rules_of r ≡ spec.rules_in (bodies_of bodies.now) (exports_of exporters.now) (map functions.told declarations.now)) }
{
    let statics = static_bodies(alloc, declarations)?;
    let mut refusals = Refusals::new(alloc);
    add_rules(
        alloc,
        &mut refusals,
        bodies,
        exporters,
        &statics,
        declarations,
    )?;
    Ok(refusals)
}

/// Notes what the calls of a file break that has these declarations of functions.
fn note_file(
    alloc: Global,
    bodies: &Bodies<'_>,
    exporters: &Exporters<'_>,
    declarations: &[Declaration<'_>],
    number: u32,
    file: &CFile,
    found: &mut Option<Violation>,
) -> Result<(), NoMemory>
    ensures { OnOk result (found.new ≡ noted found.old (in_file number (spec.rules_in (bodies_of bodies.now) (exports_of exporters.now) (map functions.told declarations.now)) file.now)) }
{
    let refusals = refusals_of(alloc, bodies, exporters, declarations)?;
    note_calls(number, &refusals, file, found);
    Ok(())
}

/// The same, where the declarations may be missing.
fn note_row(
    alloc: Global,
    bodies: &Bodies<'_>,
    exporters: &Exporters<'_>,
    row: Option<&Items<Declaration<'_>>>,
    number: u32,
    file: &CFile,
    found: &mut Option<Violation>,
) -> Result<(), NoMemory>
    ensures { OnOk result (found.new ≡ noted found.old (spec.file_violations (bodies_of bodies.now) (exports_of exporters.now) (option_map spec.row_told row.entry) number file.now)) }
{
    match row {
        None => note_file(alloc, bodies, exporters, &[], number, file, found),
        Some(row) => {
            let declarations = row.as_slice();
            note_file(alloc, bodies, exporters, declarations, number, file, found)
        }
    }
}

/// Notes the calls in these files of functions that have no body, each at the called name: rule 12
/// where there is no export of that name in C, or the function is static; rule 13 where its type
/// isn't that of what the first such export exports. The table has the declarations of functions of
/// each file, and there are at most 1,000 files. NoMemory where no memory was found.
pub(crate) fn note_files(
    alloc: Global,
    bodies: &Bodies<'_>,
    exporters: &Exporters<'_>,
    table: &[Items<Declaration<'_>>],
    files: &[CFile],
    found: &mut Option<Violation>,
) -> Result<(), NoMemory>
    requires { length files.now ≤ 1000 }
    ensures { OnOk result (found.new ≡ noted found.old (spec.calls_violations (bodies_of bodies.now) (exports_of exporters.now) (map (map functions.told) table.now) files.now)) }
{
    let mut number = 0;
    for file in files {
        let row = table.get(number as usize);
        note_row(alloc, bodies, exporters, row, number, file, found)?;
        number += 1;
    }
    Ok(())
}
