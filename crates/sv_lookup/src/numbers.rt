//! Numbers of what is declared.

ghost use Rattle.std.specs.Prelude.{◌≡◌, IfOk, map};
ghost use Rattle.sv_lookup.specs.Numbers as spec;

use crate::places::HasPlace;
use dpi_ports::NoMemory;
use dpi_table::Tables;
use std::alloc::Global;

/// The positions of a list's entries by their places. Contracts see it as a function from files and
/// tokens to positions, `numbers_of`.
#[derive(Drop)]
pub struct Numbers {
    tables: Tables<u32>,
}

/// A position in a list, as a number. NoMemory where it has more than 32 bits.
fn number(position: usize) -> Result<u32, NoMemory>
    ensures { IfOk result (λ r. r ≡ position) }
{
    if position > u32::MAX as usize {
        return Err(NoMemory);
    }
    Ok(position as u32)
}

impl Numbers {
    /// The numbers of a list's entries: the first one at a place counts. NoMemory where no memory
    /// was found, or a position has more than 32 bits.
    pub fn of<P: HasPlace>(alloc: Global, list: &[P]) -> Result<Numbers, NoMemory>
        ensures { IfOk result (λ numbers. spec.numbers_of numbers ≡ spec.number_in (map P.place_of list.now)) }
    {
        let mut tables = Tables::new(alloc);
        for (position, entry) in list.iter().enumerate() {
            let place = entry.place();
            tables.put(alloc, place.file, place.token, number(position)?)?;
        }
        Ok(Numbers { tables })
    }

    /// The position of the first entry at this token of the file; None where none stands there.
    pub fn number(&self, file: u32, token: u32) -> Option<u32>
        ensures { result ≡ spec.numbers_of self.now file token }
    {
        self.tables.get(file, token)
    }
}
