//! Declarations of one name in a scope.

ghost use Rattle.std.specs.Prelude.{[], ◌∷◌};
ghost use Rattle.sv_names.specs.Names.{names_of};
ghost use Rattle.sv_names.specs.Blocks.{label_declares};
ghost use Rattle.sv_names.specs.Declaring.{Declares, declared};

use crate::entry::{Entry, Thing};
use crate::scope::Scope;
use dpi_ports::NoMemory;
use dpi_rules::{Violation, note};
use sv_tree::{Label, Name};

/// The rule on second declarations.
const SECOND_RULE: u8 = 4;

/// Declares the name in the scope, unless this has it already; then rule 4 is noted at the name.
pub fn declare<'a>(
    scope: &mut Scope<'a>,
    file: u32,
    name: &'a Name,
    thing: Thing,
    found: &mut Option<Violation>,
) -> Result<(), NoMemory>
    ensures { Declares file (declared name.now thing ∷ []) (names_of scope.old) found.old result (names_of scope.new) found.new }
{
    let bytes = name.bytes.as_slice();
    if scope.get(bytes).is_some() {
        note(
            found,
            Violation {
                file,
                token: name.token,
                rule: SECOND_RULE,
            },
        );
    }
    scope.add(
        bytes,
        Entry {
            token: name.token,
            thing,
        },
    )
}

/// Declares a named block in the scope, by its label, if it has one.
pub fn declare_label<'a>(
    scope: &mut Scope<'a>,
    file: u32,
    label: &'a Option<Label>,
    found: &mut Option<Violation>,
) -> Result<(), NoMemory>
    ensures { Declares file (label_declares label.now) (names_of scope.old) found.old result (names_of scope.new) found.new }
{
    match label {
        None => Ok(()),
        Some(label) => declare(scope, file, &label.name, Thing::Block, found),
    }
}
