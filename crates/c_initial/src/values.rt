//! How many values an initialiser has (ISO C 6.7.9).
ghost use Rattle.std.specs.Prelude.{◌≡◌};
ghost use Rattle.dpi_rules.specs.Least.{noted};
ghost use Rattle.c_initial.specs.Values as spec;

use c_tree::Init;
use c_typing::Place;
use dpi_rules::{Violation, note};

fn has_room(cells: Option<u32>, values: usize) -> bool
    ensures { result ≡ spec.has_room cells values }
{
    match cells {
        None => true,
        Some(cells) => values <= cells as usize,
    }
}

fn fits(is_array: bool, cells: Option<u32>, init: &Init) -> bool
    ensures { result ≡ spec.fits is_array cells init.now }
{
    match init {
        Init::Value(_) => !is_array,
        Init::List(_, values) => has_room(cells, values.len()),
    }
}

/// Notes rule 19 at the `=` of an object of so many cells that begins with a list of more values, or
/// of an array that begins without a list. Where an array's size is refused, None, its values aren't
/// counted (ISO C 6.7.9, paragraph 2).
pub fn note_values(
    place: Place,
    is_array: bool,
    cells: Option<u32>,
    init: &Init,
    found: &mut Option<Violation>,
)
    ensures { found.new ≡ noted found.old (spec.value_violations place is_array cells init.now) }
{
    if !fits(is_array, cells, init) {
        let violation = Violation {
            file: place.file,
            token: place.token,
            rule: 19,
        };
        note(found, violation);
    }
}
