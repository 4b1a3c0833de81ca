//! Characters of C (ISO C, 6.4.4.4).

ghost use Rattle.std.specs.Prelude.{◌≡◌, IsTrue, false, slice_index};
ghost use Rattle.dpi_lex.specs.Bytes.{is_apostrophe, is_backslash};
ghost use Rattle.dpi_lex.specs.C.{is_character_byte, character_forms};
ghost use Rattle.dpi_lex.specs.Stretches.{front_of, IsPlaced};

use crate::bytes::{byte_at, is_escape};
use crate::fault::LexFault;
use crate::form::{Form, Stretch};
use crate::language::Language;
use crate::token::Kind;

/// Whether the byte stands for itself in a character.
fn is_character_byte(b: u8) -> bool
    ensures { result ≡ is_character_byte b }
{
    b != b'\'' && b != b'\\' && b != b'\n'
}

/// What begins with a `'`: a character, or a bad byte.
pub(crate) fn character(rest: &[u8]) -> Stretch
    requires { IsTrue (is_apostrophe (slice_index rest.now 0)) }
    ensures stretch { result ≡ front_of character_forms false rest.now }
    ensures placed { IsPlaced result.form }
{
    if byte_at(rest, 1) == b'\\' {
        escape(rest)
    } else if is_character_byte(byte_at(rest, 1)) && byte_at(rest, 2) == b'\'' {
        Stretch {
            form: Form::Whole(Kind::Character),
            len: 3,
        }
    } else {
        Stretch::bad_byte()
    }
}

/// What begins with a `'` and a backslash: a character of an escape, or a bad byte.
fn escape(rest: &[u8]) -> Stretch
    requires quote { IsTrue (is_apostrophe (slice_index rest.now 0)) }
    requires slash { IsTrue (is_backslash (slice_index rest.now 1)) }
    ensures stretch { result ≡ front_of character_forms false rest.now }
    ensures placed { IsPlaced result.form }
{
    if !is_escape(Language::C, byte_at(rest, 2)) {
        return Stretch {
            form: Form::Faulty(LexFault::BadByte { place: 1 }),
            len: 2,
        };
    }
    if byte_at(rest, 3) != b'\'' {
        return Stretch::bad_byte();
    }
    Stretch {
        form: Form::Whole(Kind::Character),
        len: 4,
    }
}
