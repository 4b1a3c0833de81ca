//! All rules of linking (IEEE 1800-2017, 35.4 to 35.9).
ghost use Rattle.std.specs.Prelude.{◌≡◌, ◌≤◌, length, None, map, IfOk, OnOk};
ghost use Rattle.dpi_rules.specs.Least.{noted};
ghost use Rattle.sv_instances.specs.Modules as placed_modules;
ghost use Rattle.c_functions.specs.Declarations as functions;
ghost use Rattle.dpi_links.specs.Functions.{bodies_of};
ghost use Rattle.dpi_links.specs.Imports.{imports_in, imports_violations};
ghost use Rattle.dpi_links.specs.Exports.{told, exports_in, exports_violations};
ghost use Rattle.dpi_links.specs.Link as spec;

use crate::calls::note_files;
use crate::exported::note_exports;
use crate::exporters::exporters_of;
use crate::exports::{PlacedExport, all_named, exports_of};
use crate::functions::{Bodies, shared_bodies};
use crate::imports::{imports_of, note_imports};
use c_functions::declarations_of;
use c_tree::CFile;
use dpi_ports::NoMemory;
use dpi_rules::Violation;
use sqlite_items::Items;
use std::alloc::Global;
use sv_instances::{Placed, modules_of};
use sv_tree::SvFile;

/// Notes what the imports of these modules violate.
fn note_module_imports(
    alloc: Global,
    bodies: &Bodies<'_>,
    modules: &[Placed<'_>],
    found: &mut Option<Violation>,
) -> Result<(), NoMemory>
    ensures { OnOk result (found.new ≡ noted found.old (imports_violations (bodies_of bodies.now) (imports_in (map placed_modules.told modules.now)))) }
{
    let imports = imports_of(alloc, modules)?;
    note_imports(alloc, bodies, imports.as_slice(), found)?;
    Ok(())
}

/// Notes what the exports of these modules violate.
fn note_module_exports(
    alloc: Global,
    bodies: &Bodies<'_>,
    modules: &[Placed<'_>],
    found: &mut Option<Violation>,
) -> Result<(), NoMemory>
    ensures { OnOk result (found.new ≡ noted found.old (exports_violations (bodies_of bodies.now) (exports_in (map placed_modules.told modules.now)))) }
{
    let table = exports_of(alloc, modules)?;
    note_exports(alloc, bodies, table.as_slice(), found)?;
    Ok(())
}

/// Notes what the SystemVerilog files violate, where C names have these bodies.
fn note_modules(
    alloc: Global,
    bodies: &Bodies<'_>,
    modules: &[Placed<'_>],
    found: &mut Option<Violation>,
) -> Result<(), NoMemory>
    ensures { OnOk result (found.new ≡ noted found.old (spec.modules_violations (bodies_of bodies.now) (map placed_modules.told modules.now))) }
{
    note_module_imports(alloc, bodies, modules, found)?;
    note_module_exports(alloc, bodies, modules, found)?;
    Ok(())
}

/// The least violation of the rules of linking in the SystemVerilog files: rules 1 to 11 and 14, at
/// imports, exports and what is exported (IEEE 1800-2017, 35.4 to 35.6). None where there is none.
/// Neither language's own rules are looked at; a type that they refuse is passed over. NoMemory
/// where no memory was found.
pub fn check_sv(alloc: Global, svs: &[SvFile], cs: &[CFile]) -> Result<Option<Violation>, NoMemory>
    requires modules { length svs.now ≤ 1000 }
    requires functions { length cs.now ≤ 1000 }
    ensures { IfOk result (λ v. v ≡ noted None (spec.sv_violations svs.now cs.now)) }
{
    let modules = modules_of(alloc, svs)?;
    let table = declarations_of(alloc, cs)?;
    let bodies = shared_bodies(alloc, table.as_slice())?;
    let mut found = None;
    note_modules(alloc, &bodies, &modules, &mut found)?;
    Ok(found)
}

/// Notes what the calls of the C files break, where the modules export this.
fn note_c(
    alloc: Global,
    exports: &[Items<PlacedExport<'_>>],
    cs: &[CFile],
    found: &mut Option<Violation>,
) -> Result<(), NoMemory>
    requires { length cs.now ≤ 1000 }
    ensures { OnOk result (found.new ≡ noted found.old (spec.calls_in (map (map told) exports.now) cs.now)) }
{
    let names = all_named(alloc, exports)?;
    let exporters = exporters_of(alloc, names.as_slice())?;
    let table = declarations_of(alloc, cs)?;
    let bodies = shared_bodies(alloc, table.as_slice())?;
    note_files(alloc, &bodies, &exporters, table.as_slice(), cs, found)
}

/// The least violation of the rules of linking in the C files, at calls of functions that have no
/// body: rule 12 where the function is no export or is `static`, rule 13 where its type isn't that
/// of the export (ISO C 6.9, paragraph 5; IEEE 1800-2017, 35.5.5). None where there is none.
/// Neither language's own rules are looked at; a type that they refuse is passed over. NoMemory
/// where no memory was found.
pub fn check_c(alloc: Global, svs: &[SvFile], cs: &[CFile]) -> Result<Option<Violation>, NoMemory>
    requires modules { length svs.now ≤ 1000 }
    requires functions { length cs.now ≤ 1000 }
    ensures { IfOk result (λ v. v ≡ noted None (spec.c_violations svs.now cs.now)) }
{
    let modules = modules_of(alloc, svs)?;
    let exports = exports_of(alloc, &modules)?;
    let mut found = None;
    note_c(alloc, exports.as_slice(), cs, &mut found)?;
    Ok(found)
}
