//! Numbers of what stands in a list.
ghost use Rattle.std.specs.Prelude.{◌≡◌, ◌+◌, IfOk};

use dpi_ports::NoMemory;

/// A count of what is kept, as a number. NoMemory where it has more than 32 bits.
pub(crate) fn number_of(count: usize) -> Result<u32, NoMemory>
    ensures { IfOk result (λ r. r ≡ count) }
{
    if count > u32::MAX as usize {
        return Err(NoMemory);
    }
    Ok(count as u32)
}

/// The next number. NoMemory where it has more than 32 bits.
pub(crate) fn next(number: u32) -> Result<u32, NoMemory>
    ensures { IfOk result (λ r. r ≡ number + 1) }
{
    if number == u32::MAX {
        return Err(NoMemory);
    }
    Ok(number + 1)
}
