//! Numbers in turn.
ghost use Rattle.std.specs.Prelude.{◌≡◌, ◌+◌, IfOk};

use dpi_ports::NoMemory;

/// The next number. NoMemory where it has more than 32 bits.
pub fn next(number: u32) -> Result<u32, NoMemory>
    ensures { IfOk result (λ r. r ≡ number + 1) }
{
    if number == u32::MAX {
        return Err(NoMemory);
    }
    Ok(number + 1)
}
