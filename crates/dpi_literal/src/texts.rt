//! Strings of both languages (IEEE 1800-2017, 5.9; ISO C 6.4.5).

ghost use Rattle.std.specs.Prelude.{◌≡◌, IfOk};
ghost use Rattle.dpi_literal.specs.Texts as spec;

use dpi_ports::NoMemory;
use std::alloc::Global;

/// The byte that an escape stands for, by the byte behind its backslash (ISO C 6.4.4.4).
pub(crate) fn escaped(b: u8) -> u8
    ensures { result ≡ spec.escaped b }
{
    match b {
        b'n' => b'\n',
        b't' => b'\t',
        b'0' => 0,
        other => other,
    }
}

/// The bytes between the first one and the last.
fn inside(bytes: &[u8]) -> &[u8]
    ensures { result.now ≡ spec.inside bytes.now }
{
    if bytes.len() < 2 {
        &bytes[bytes.len()..]
    } else {
        &bytes[1..bytes.len() - 1]
    }
}

/// The bytes that a string of either language stands for: those between its quotes, where
/// `\n`, `\t` and `\0` are a line feed, a tab and the byte 0, and any other escape the byte behind
/// its backslash (IEEE 1800-2017, 5.9.1; ISO C 6.4.4.4).
pub fn text_of(alloc: Global, bytes: &[u8]) -> Result<Vec<u8>, NoMemory>
    ensures { IfOk result (λ text. text.items ≡ spec.text_of bytes.now) }
{
    let mut text = Vec::new(alloc);
    let mut behind = false;
    for byte in inside(bytes) {
        if behind {
            text.push(escaped(*byte))?;
            behind = false;
        } else if *byte == b'\\' {
            behind = true;
        } else {
            text.push(*byte)?;
        }
    }
    Ok(text)
}

/// The law that a text of any bytes can be written as a string that stands for it.
pub fn read_back()
    ensures { spec.ReadBack }
{}
