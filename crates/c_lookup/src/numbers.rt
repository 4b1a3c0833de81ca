//! Numbers by token.

ghost use Rattle.std.specs.Prelude.{◌≡◌, ℕ, IfOk, OnOk};
ghost use Rattle.dpi_table.specs.Files.{in_file};
ghost use Rattle.dpi_table.specs.Firsts.{number_from, only_at, or_values};

use c_program::{CFunction, CObject};
use dpi_ports::NoMemory;
use dpi_table::Tables;
use std::alloc::Global;

/// An entry of a list, which stands at a token of a file.
pub(crate) trait HasPlace {
    /// The number of the file.
    ghost file_of: { Self → ℕ };

    /// The token.
    ghost token_of: { Self → ℕ };

    /// The number of the file.
    fn file(&self) -> u32
        ensures { result ≡ file_of self.now };

    /// The token.
    fn token(&self) -> u32
        ensures { result ≡ token_of self.now };
}

impl HasPlace for CFunction {
    ghost file_of = { λ f. f.file };

    ghost token_of = { λ f. f.token };

    fn file(&self) -> u32 {
        self.file
    }

    fn token(&self) -> u32 {
        self.token
    }
}

impl HasPlace for CObject {
    ghost file_of = { λ o. o.file };

    ghost token_of = { λ o. o.token };

    fn file(&self) -> u32 {
        self.file
    }

    fn token(&self) -> u32 {
        self.token
    }
}

/// A position in a list, as a number. NoMemory where it has more than 32 bits.
fn number(position: usize) -> Result<u32, NoMemory>
    ensures { IfOk result (λ r. r ≡ position) }
{
    if position > u32::MAX as usize {
        return Err(NoMemory);
    }
    Ok(position as u32)
}

/// The positions of a list's entries: the first one at a token counts. NoMemory where no memory was
/// found, or a position has more than 32 bits.
pub(crate) fn positions_of<P: HasPlace>(alloc: Global, list: &[P]) -> Result<Tables<u32>, NoMemory>
    ensures { IfOk result (λ numbers. in_file numbers ≡ number_from P.file_of P.token_of 0 list.now) }
{
    let mut numbers = Tables::new(alloc);
    for (position, entry) in list.iter().enumerate() {
        numbers.put(alloc, entry.file(), entry.token(), number(position)?)?;
    }
    Ok(numbers)
}

/// Gives the token of the file this number, if it is one, unless it has one already.
pub(crate) fn put_number(
    alloc: Global,
    numbers: &mut Tables<u32>,
    file: u32,
    token: u32,
    number: Option<u32>,
) -> Result<(), NoMemory>
    ensures { OnOk result (in_file numbers.new ≡ or_values (in_file numbers.old) (only_at file token number)) }
{
    if let Some(number) = number {
        numbers.put(alloc, file, token, number)?;
    }
    Ok(())
}
