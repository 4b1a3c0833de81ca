//! The line that names a place in a file.

ghost use Rattle.std.specs.Prelude.{◌≡◌, ◌++◌, OnOk, OnErr};
ghost use Rattle.dpi_text.specs.FaultLine.{fault_line_of};

use dpi_ports::NoMemory;
use std::alloc::Global;

/// Appends the line `FILE:LINE:COLUMN: CODE` with its line feed. Line and column are printed in
/// decimal as they are given, and the bytes of the file's name and of the code unchanged.
/// `NoMemory` leaves `into` as it was.
pub fn fault_line(
    alloc: Global,
    file: &[u8],
    line: u32,
    column: u32,
    code: &[u8],
    into: &mut Vec<u8>,
) -> Result<(), NoMemory>
    ensures ok { OnOk result (into.new.items ≡ into.old.items ++ fault_line_of file.now line column code.now) }
    ensures err { OnErr result (into.new.items ≡ into.old.items) }
{
    let place = format!(in alloc; ":{line}:{column}: ")?;
    let mut text = Vec::from_slice(alloc, file)?;
    text.extend_from_slice(place.as_bytes())?;
    text.extend_from_slice(code)?;
    text.extend_from_slice(b"\n")?;
    into.extend_from_slice(&text)?;
    Ok(())
}
