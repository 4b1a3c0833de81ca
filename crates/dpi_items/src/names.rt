//! Names in C of imports and exports (IEEE 1800-2017, 35.4).
ghost use Rattle.std.specs.Prelude.{◌≡◌};
ghost use Rattle.dpi_rules.specs.Least.{noted};
ghost use Rattle.dpi_items.specs.Names as spec;

use c_library::is_reserved;
use c_tree::{Class, class_of};
use dpi_lex::Kind;
use dpi_rules::{Violation, note};
use sv_tree::{Export, Import, Name};

/// The rule on the names in C that an export may have.
const NAME_RULE: u8 = 14;

/// The name before the `=`, else the name of the item.
fn c_name<'t>(written: &'t Option<Name>, name: &'t Name) -> &'t [u8]
    ensures { result.now ≡ spec.c_name written.now name.now }
{
    match written {
        Some(written) => written.bytes.as_slice(),
        None => name.bytes.as_slice(),
    }
}

/// The name of an import in C: the one before the `=`, else its own (IEEE 1800-2017, 35.4).
pub fn import_c_name(import: &Import) -> &[u8]
    ensures { result.now ≡ spec.import_c_name import.now }
{
    c_name(&import.c_name, &import.name)
}

/// The name of an export in C: the one before the `=`, else its own (IEEE 1800-2017, 35.4).
pub fn export_c_name(export: &Export) -> &[u8]
    ensures { result.now ≡ spec.export_c_name export.now }
{
    c_name(&export.c_name, &export.name)
}

/// Whether no function of C can have this name: a keyword or a type name, `NULL`, `printf`, or a
/// name of `svdpi.h` (ISO C 6.4.1; IEEE 1800-2017, Annex I).
pub fn is_taken(name: &[u8]) -> bool
    ensures { result ≡ spec.is_taken name.now }
{
    class_of(Kind::Word, name) != Class::Name || is_reserved(name)
}

/// Notes rule 14 at a name where the name in C is taken.
fn note_name(file: u32, token: u32, name: &[u8], found: &mut Option<Violation>)
    ensures { found.new ≡ noted found.old (spec.name_violations file token name.now) }
{
    if is_taken(name) {
        let violation = Violation {
            file,
            token,
            rule: NAME_RULE,
        };
        note(found, violation);
    }
}

/// Notes rule 14 at the name of an export whose name in C is taken.
pub(crate) fn note_taken(file: u32, export: &Export, found: &mut Option<Violation>)
    ensures { found.new ≡ noted found.old (spec.taken_violations file export.now) }
{
    note_name(file, export.name.token, export_c_name(export), found);
}
