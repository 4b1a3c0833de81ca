//! Texts of a list.

ghost use Rattle.std.specs.Prelude.{◌≡◌, IsTrue, if◌then◌else◌, map, slice_index};
ghost use Rattle.dpi_lex.specs.declared.form.Form.TheVariants.{Whole};
ghost use Rattle.dpi_lex.specs.Bytes.{is_among};
ghost use Rattle.dpi_lex.specs.Listed.{listed, listed_stretch, falls};
ghost use Rattle.dpi_lex.specs.Shapes.{form_if, is_listed};
ghost use Rattle.dpi_lex.specs.Stretches.{longest_front, IsPlaced};

use crate::bytes::byte_at;
use crate::form::{Form, Stretch};
use crate::token::Kind;

/// The length of the first text of the list with which the bytes begin; 0 where there is none.
fn listed(list: &[&[u8]], rest: &[u8]) -> usize
    ensures { result ≡ listed (map (λ text. text.now) list.now) rest.now }
{
    for text in list {
        if rest.starts_with(text) {
            return text.len();
        }
    }
    0
}

/// Whether the bytes are a text of the list.
pub(crate) fn is_listed(list: &[&[u8]], bytes: &[u8]) -> bool
    ensures { result ≡ is_listed (map (λ text. text.now) list.now) bytes.now }
{
    for text in list {
        if bytes == *text {
            return true;
        }
    }
    false
}

/// The token of that many bytes; a bad byte for none.
fn token_of(kind: Kind, len: usize) -> Stretch
    ensures stretch { result ≡ listed_stretch kind len }
    ensures placed { IsPlaced result.form }
{
    if len == 0 {
        return Stretch::bad_byte();
    }
    Stretch {
        form: Form::Whole(kind),
        len,
    }
}

/// The text of the list at the front of the bytes, as a token of that kind. The longest texts come
/// first in the list.
pub(crate) fn listed_token(kind: Kind, list: &[&[u8]], rest: &[u8]) -> Stretch
    requires { IsTrue (falls (map (λ text. text.now) list.now)) }
    ensures stretch { result ≡ longest_front
        (λ front. form_if (is_listed (map (λ text. text.now) list.now) front) (Whole kind))
        rest.now }
    ensures placed { IsPlaced result.form }
{
    token_of(kind, listed(list, rest))
}

/// Whether the byte is among those.
pub(crate) fn is_among(bytes: &[u8], b: u8) -> bool
    ensures { result ≡ is_among bytes.now b }
{
    bytes.iter().any(|c| b == *c)
}

/// The first byte as a token of that kind, where it's among those; else a bad byte.
pub(crate) fn single_token(kind: Kind, bytes: &[u8], rest: &[u8]) -> Stretch
    ensures stretch { result ≡ listed_stretch
        kind
        (if is_among bytes.now (slice_index rest.now 0) then 1 else 0) }
    ensures placed { IsPlaced result.form }
{
    if is_among(bytes, byte_at(rest, 0)) {
        token_of(kind, 1)
    } else {
        token_of(kind, 0)
    }
}
