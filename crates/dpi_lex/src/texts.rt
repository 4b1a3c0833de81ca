//! Strings.

ghost use Rattle.std.specs.Prelude.{◌≡◌, ◌<◌, IsTrue, length, slice_index};
ghost use Rattle.dpi_lex.specs.Bytes.{is_quote, is_escape};
ghost use Rattle.dpi_lex.specs.Lexed.{IsText};
ghost use Rattle.dpi_lex.specs.Shapes.{text_form, IsLongestBody};
ghost use Rattle.dpi_lex.specs.Stretches.{longest_front, IsPlaced};

use crate::bytes::{bytes_from, is_escape};
use crate::fault::LexFault;
use crate::form::{Form, Stretch};
use crate::language::Language;
use crate::token::Kind;

/// How many of the bytes after a string's first quote come before the one that ends it.
fn body_len(language: Language, inner: &[u8]) -> usize
    ensures { IsLongestBody (is_escape language) inner.now result }
{
    let mut at = 0;
    while at < inner.len() {
        let byte = inner[at];
        if byte == b'"' || byte == b'\n' {
            return at;
        }
        if byte != b'\\' {
            at += 1;
        } else if at + 1 < inner.len() && is_escape(language, inner[at + 1]) {
            at += 2;
        } else {
            return at;
        }
    }
    at
}

/// The string at the front of the bytes, which begin with a quote.
pub(crate) fn text(language: Language, rest: &[u8]) -> Stretch
    requires text { IsText rest.now }
    requires some { 0 < length rest.now }
    requires starts { IsTrue (is_quote (slice_index rest.now 0)) }
    ensures stretch { result ≡ longest_front (text_form (is_escape language)) rest.now }
    ensures placed { IsPlaced result.form }
{
    let inner = bytes_from(rest, 1);
    let body = body_len(language, inner);
    if body == inner.len() || inner[body] == b'\n' {
        return Stretch {
            form: Form::Faulty(LexFault::Unclosed { place: 0 }),
            len: 1 + body,
        };
    }
    let form = if inner[body] == b'"' {
        Form::Whole(Kind::Text)
    } else {
        let place = (1 + body) as u32;
        Form::Faulty(LexFault::BadByte { place })
    };
    Stretch {
        form,
        len: 2 + body,
    }
}
