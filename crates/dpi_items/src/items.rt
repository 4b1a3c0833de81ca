//! Imports, exports and exported subroutines (IEEE 1800-2017, 35.4 and 35.5).
ghost use Rattle.std.specs.Prelude.{◌≡◌};
ghost use Rattle.dpi_rules.specs.Least.{noted};
ghost use Rattle.dpi_items.specs.Items as spec;
ghost use Rattle.dpi_items.specs.Integers.{formals_violations};

use crate::integers::{note_integer_formals, note_integer_import_formals};
use crate::names::note_taken;
use dpi_boundary::is_small;
use dpi_rules::{Violation, note};
use sv_signatures::{ImportFormal, ImportSignature, Returns, Signature};
use sv_tree::{Direction, Export, Function, Import, Property, Task, Text, Trait};

/// The rule on the string behind `import` and `export`.
const STRING_RULE: u8 = 1;

/// The rule on `pure`.
const PURE_RULE: u8 = 2;

/// The rule on the results of imports.
const IMPORT_RESULT_RULE: u8 = 3;

/// The rule on the results of exports.
const EXPORT_RESULT_RULE: u8 = 11;

fn is_dpi_c(text: &Text) -> bool
    ensures { result ≡ spec.is_dpi_c text.now }
{
    text.bytes.as_slice() == b"\"DPI-C\"".as_slice()
}

/// Notes rule 1 at a string other than `"DPI-C"`.
fn note_string(file: u32, text: &Text, found: &mut Option<Violation>)
    ensures { found.new ≡ noted found.old (spec.string_violations file text.now) }
{
    if !is_dpi_c(text) {
        let violation = Violation {
            file,
            token: text.token,
            rule: STRING_RULE,
        };
        note(found, violation);
    }
}

fn is_pure(property: &Option<Trait>) -> bool
    ensures { result ≡ spec.is_pure property.now }
{
    match property {
        Some(property) => matches!(property.property, Property::Pure),
        None => false,
    }
}

fn gives_value(returns: Returns) -> bool
    ensures { result ≡ spec.gives_value returns }
{
    match returns {
        Returns::Void => false,
        Returns::Value(_) => true,
    }
}

fn is_input(formal: ImportFormal) -> bool
    ensures { result ≡ spec.is_input formal }
{
    matches!(formal.direction, Direction::Input)
}

fn are_inputs(formals: &[ImportFormal]) -> bool
    ensures { result ≡ spec.are_inputs formals.now }
{
    for formal in formals {
        if !is_input(*formal) {
            return false;
        }
    }
    true
}

/// Whether an import may be pure: a function with a result whose formals are all inputs.
fn may_be_pure(signature: &ImportSignature) -> bool
    ensures { result ≡ spec.may_be_pure signature.now }
{
    let function = !signature.is_task && gives_value(signature.result);
    function && are_inputs(signature.formals.as_slice())
}

/// Notes rule 2 at the name of an import that is written `pure` and may not be.
fn note_pure(file: u32, import: &Import, signature: &ImportSignature, found: &mut Option<Violation>)
    ensures { found.new ≡ noted found.old (spec.pure_violations file import.now signature.now) }
{
    if is_pure(&import.property) && !may_be_pure(signature) {
        let violation = Violation {
            file,
            token: import.name.token,
            rule: PURE_RULE,
        };
        note(found, violation);
    }
}

/// Notes the rule at a name whose result isn't small.
fn note_result(file: u32, token: u32, rule: u8, returns: Returns, found: &mut Option<Violation>)
    ensures { found.new ≡ noted found.old (spec.result_violations file token rule returns) }
{
    if !is_small(returns) {
        let violation = Violation { file, token, rule };
        note(found, violation);
    }
}

/// Notes what an import with this signature violates by itself: rule 1 at a string other than
/// `"DPI-C"`, rule 2 at the name where `pure` stands on a task, on a void function or on one with an
/// output or inout, rule 3 at the name where the result isn't small, and rule 4 at the name of each
/// formal of type `integer` (IEEE 1800-2017, 35.5.2 and 35.5.4 to 35.5.6).
pub fn note_import(
    file: u32,
    import: &Import,
    signature: &ImportSignature,
    found: &mut Option<Violation>,
)
    ensures { found.new ≡ noted found.old (spec.import_violations file import.now signature.now) }
{
    note_string(file, &import.text, found);
    note_pure(file, import, signature, found);
    note_result(
        file,
        import.name.token,
        IMPORT_RESULT_RULE,
        signature.result,
        found,
    );
    note_integer_import_formals(file, &import.formals, found);
}

/// Notes what an export violates by itself: rule 1 at a string other than `"DPI-C"`, and rule 14 at
/// the name where the name in C is taken; see `is_taken` (IEEE 1800-2017, 35.4 and 35.5.4).
pub fn note_export(file: u32, export: &Export, found: &mut Option<Violation>)
    ensures { found.new ≡ noted found.old (spec.export_violations file export.now) }
{
    note_string(file, &export.text, found);
    note_taken(file, export, found);
}

/// Notes what a function with this signature violates where an export names it at this token: rule 4
/// at the name of each formal of type `integer`, and rule 11 at the export's name where the result
/// isn't small (IEEE 1800-2017, 35.5.5 and 35.5.6).
pub fn note_exported_function(
    file: u32,
    name: u32,
    function: &Function,
    signature: &Signature,
    found: &mut Option<Violation>,
)
    ensures { found.new ≡ noted found.old (spec.function_violations file name function.now signature.now) }
{
    note_integer_formals(file, &function.formals, found);
    note_result(file, name, EXPORT_RESULT_RULE, signature.result, found);
}

/// Notes what a task violates where an export names it: rule 4 at the name of each formal of type
/// `integer` (IEEE 1800-2017, 35.5.6).
pub fn note_exported_task(file: u32, task: &Task, found: &mut Option<Violation>)
    ensures { found.new ≡ noted found.old (formals_violations file task.now.formals) }
{
    note_integer_formals(file, &task.formals, found);
}
