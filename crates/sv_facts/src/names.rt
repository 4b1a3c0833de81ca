//! What names mean.
ghost use Rattle.std.specs.Prelude.{◌≡◌, ◌++◌, OnOk};
ghost use Rattle.sv_judge.specs.Calls.{env_of};
ghost use Rattle.sv_facts.specs.Facts as spec;

use crate::facts::{Fact, Meant};
use dpi_ports::NoMemory;
use sv_judge::Place;
use sv_names::{Entry, Thing};
use sv_tree::Name;

/// What a name means that declares this at this token.
fn thing_meant(token: u32, thing: Thing) -> Option<Meant>
    ensures { result ≡ spec.thing_meant token thing }
{
    match thing {
        Thing::Variable(_) | Thing::Result(_) => Some(Meant::Declaration(token)),
        Thing::Function(_) | Thing::Task(_) => Some(Meant::Subroutine(token)),
        Thing::Import(_) => Some(Meant::Import(token)),
        Thing::Block => Some(Meant::Block(token)),
        Thing::Instance => None,
    }
}

/// What a name means by its declaration. None where there is none, or where it declares an
/// instance.
pub fn meant(entry: Option<Entry>) -> Option<Meant>
    ensures { result ≡ spec.meant entry }
{
    match entry {
        Some(entry) => thing_meant(entry.token, entry.thing),
        None => None,
    }
}

/// Adds what the name at this token means by its declaration, if it means anything. NoMemory where
/// no memory was found.
pub fn add_name(token: u32, entry: Option<Entry>, list: &mut Vec<Fact>) -> Result<(), NoMemory>
    ensures { OnOk result (list.new.items ≡ list.old.items ++ spec.name_facts token entry) }
{
    if let Some(meant) = meant(entry) {
        list.push(Fact::Name(token, meant))?;
    }
    Ok(())
}

/// Adds what a name means where a value stands: the innermost declaration.
pub(crate) fn add_value_name(
    place: &Place<'_, '_>,
    name: &Name,
    list: &mut Vec<Fact>,
) -> Result<(), NoMemory>
    ensures { OnOk result (list.new.items ≡ list.old.items ++ spec.value_facts (env_of place.now) name.now) }
{
    let entry = place.scopes.find(name.bytes.as_slice());
    add_name(name.token, entry, list)
}

/// Adds what a name means that is called or disabled: the innermost declaration that isn't the
/// result of a function. NoMemory where no memory was found.
pub fn add_called(place: &Place<'_, '_>, name: &Name, list: &mut Vec<Fact>) -> Result<(), NoMemory>
    ensures { OnOk result (list.new.items ≡ list.old.items ++ spec.called_facts (env_of place.now) name.now) }
{
    let entry = place.scopes.find_called(name.bytes.as_slice());
    add_name(name.token, entry, list)
}
