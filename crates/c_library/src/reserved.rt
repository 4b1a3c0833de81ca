//! Names that no declaration may have: those of `svdpi.h`, and `printf`.
ghost use Rattle.std.specs.Prelude.{◌≡◌};
ghost use Rattle.dpi_rules.specs.Least.{noted};
ghost use Rattle.c_library.specs.Reserved as spec;

use crate::call::call_named;
use dpi_literal::{CConstant, c_number};
use dpi_rules::{Violation, note};

/// Whether the name is that of `printf` (ISO C 7.21.6.3).
pub fn is_printf(name: &[u8]) -> bool
    ensures { result ≡ spec.is_printf name.now }
{
    name == b"printf".as_slice()
}

/// The value of `sv_0`, `sv_1`, `sv_z` or `sv_x`, an `int`; None for another name
/// (IEEE 1800-2017, Annex I).
pub fn scalar_named(name: &[u8]) -> Option<u8>
    ensures { result ≡ spec.scalar_named name.now }
{
    if name == b"sv_0".as_slice() {
        Some(0)
    } else if name == b"sv_1".as_slice() {
        Some(1)
    } else if name == b"sv_z".as_slice() {
        Some(2)
    } else if name == b"sv_x".as_slice() {
        Some(3)
    } else {
        None
    }
}

/// Whether the name is `SV_PACKED_DATA_NELEMS`, which gives the words of a vector.
pub fn is_word_count(name: &[u8]) -> bool
    ensures { result ≡ spec.is_word_count name.now }
{
    name == b"SV_PACKED_DATA_NELEMS".as_slice()
}

/// How many words of 32 bits a vector has, by the bytes of the number of its bits: a number of that
/// number's type, computed without wrapping (IEEE 1800-2017, Annex I).
pub fn word_count(bytes: &[u8]) -> CConstant
    ensures { result ≡ spec.word_count bytes.now }
{
    let width = c_number(bytes);
    CConstant {
        of: width.of,
        value: (width.value + 31) / 32,
    }
}

/// Whether the name is one of `svdpi.h`, or `printf`.
pub fn is_reserved(name: &[u8]) -> bool
    ensures { result ≡ spec.is_reserved name.now }
{
    let constant = is_word_count(name) || scalar_named(name).is_some();
    is_printf(name) || constant || call_named(name).is_some()
}

/// Notes rule 21 at a declared name that is one of `svdpi.h`, or `printf`.
pub fn note_reserved(file: u32, token: u32, name: &[u8], found: &mut Option<Violation>)
    ensures { found.new ≡ noted found.old (spec.name_violations file token name.now) }
{
    if is_reserved(name) {
        let violation = Violation {
            file,
            token,
            rule: 21,
        };
        note(found, violation);
    }
}
