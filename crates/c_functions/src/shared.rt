//! Rule 24, on the objects that files share (ISO C 6.2.7, paragraph 2, and 6.9, paragraph 5).
ghost use Rattle.std.specs.Prelude.{◌≡◌, ◌≤◌, length, map, flat_map, OnOk};
ghost use Rattle.dpi_rules.specs.Least.{noted};
ghost use Rattle.c_functions.specs.Objects.{told};
ghost use Rattle.c_functions.specs.Shared as spec;

use crate::definitions::{Definitions, definitions_of};
use crate::objects::{Object, objects_of};
use c_tree::CFile;
use dpi_ports::NoMemory;
use dpi_rules::{Violation, note};
use std::alloc::Global;

/// The rule on objects that files share.
const SHARED_RULE: u8 = 24;

fn note_object(definitions: &Definitions<'_>, object: Object<'_>, found: &mut Option<Violation>)
    ensures { found.new ≡ noted found.old (spec.name_violations (spec.breaks_by (spec.kept_of definitions.now (told object.entry).name) (told object.entry)) (told object.entry)) }
{
    if definitions.breaks(object) {
        note(
            found,
            Violation {
                file: object.file,
                token: object.name.token,
                rule: SHARED_RULE,
            },
        );
    }
}

fn note_all(definitions: &Definitions<'_>, objects: &[Object<'_>], found: &mut Option<Violation>)
    ensures { found.new ≡ noted found.old (flat_map (spec.violations_by (spec.kept_of definitions.now)) (map told objects.now)) }
{
    for object in objects {
        note_object(definitions, *object, found);
    }
}

/// Notes rule 24 at names of objects that files share: at an `extern` declaration, at file scope, in a
/// block or in the head of a `for`, of an object that no file defines at file scope without `static`,
/// or that one so defines with another type or size; and at such a definition where an earlier file
/// has one. A type with a refused part isn't compared. A size that is a name is that of a define
/// before it in its file. There are at most 1,000 files. NoMemory where no memory was found.
pub fn note_objects(
    alloc: Global,
    files: &[CFile],
    found: &mut Option<Violation>,
) -> Result<(), NoMemory>
    requires { length files.now ≤ 1000 }
    ensures { OnOk result (found.new ≡ noted found.old (spec.shared_violations files.now)) }
{
    let objects = objects_of(alloc, files)?;
    let definitions = definitions_of(alloc, objects.as_slice())?;
    note_all(&definitions, objects.as_slice(), found);
    Ok(())
}
