//! What is skipped up to the end of a line or a comment.

ghost use Rattle.std.specs.Prelude.{◌≡◌, ◌≤◌, ◌<◌, ◌-◌, IsTrue, true, false, MatchOption, length};
ghost use Rattle.std.specs.Prelude.{take, map, slice_index, codes, nat_eq, not};
ghost use Rattle.std.specs.List.{starts_with, list_all};
ghost use Rattle.dpi_lex.specs.declared.form.Form.TheVariants.{Skipped};
ghost use Rattle.dpi_lex.specs.Bytes.{is_among};
ghost use Rattle.dpi_lex.specs.Listed.{falls, no_comments};
ghost use Rattle.dpi_lex.specs.Place.{is_line_feed};
ghost use Rattle.dpi_lex.specs.Shapes.{form_if, is_line_of, holds_end, block_form, slash_form};
ghost use Rattle.dpi_lex.specs.Shapes.{EndsAt};
ghost use Rattle.dpi_lex.specs.Stretches.{longest_front, IsPlaced};

use crate::bytes::{byte_at, bytes_from, line_len};
use crate::fault::LexFault;
use crate::form::{Form, Stretch};
use crate::listed::listed_token;
use crate::token::Kind;

/// The rest of the line, which begins with the text and is skipped.
pub(crate) fn line(text: &[u8], rest: &[u8]) -> Stretch
    requires some { 0 < length text.now }
    requires one_line { IsTrue (list_all (λ b. not (is_line_feed b)) text.now) }
    requires starts { IsTrue (starts_with nat_eq rest.now text.now) }
    ensures stretch { result ≡ longest_front
        (λ front. form_if (is_line_of text.now front) Skipped)
        rest.now }
    ensures placed { IsPlaced result.form }
    ensures past { length text.now ≤ result.len }
{
    Stretch {
        form: Form::Skipped,
        len: line_len(rest),
    }
}

/// How many of the bytes behind `/*` its end takes; None where they have none.
fn end_of(inner: &[u8]) -> Option<usize>
    ensures { MatchOption result (holds_end inner.now ≡ false) (EndsAt inner.now) }
{
    for at in 1..inner.len() {
        if inner[at - 1] == b'*' && inner[at] == b'/' {
            return Some(at + 1);
        }
    }
    None
}

/// The block comment at the front of the bytes, or the fault that it has no end.
fn block_comment(rest: &[u8]) -> Stretch
    requires { IsTrue (starts_with nat_eq rest.now (codes "/*")) }
    ensures stretch { result ≡ longest_front block_form rest.now }
    ensures placed { IsPlaced result.form }
    ensures past { 1 < result.len }
{
    match end_of(bytes_from(rest, 2)) {
        Some(end) => Stretch {
            form: Form::Skipped,
            len: 2 + end,
        },
        None => Stretch {
            form: Form::Faulty(LexFault::Unclosed { place: 0 }),
            len: rest.len(),
        },
    }
}

/// What begins with a `/`: a comment, or one of the signs, of which the longest come first.
pub(crate) fn slash(signs: &[&[u8]], rest: &[u8]) -> Stretch
    requires falls { IsTrue (falls (map (λ sign. sign.now) signs.now)) }
    requires no_comments { IsTrue (no_comments (map (λ sign. sign.now) signs.now)) }
    requires starts { IsTrue (is_among (codes "/") (slice_index rest.now 0)) }
    ensures stretch { result ≡ longest_front
        (slash_form (map (λ sign. sign.now) signs.now))
        rest.now }
    ensures placed { IsPlaced result.form }
{
    if byte_at(rest, 1) == b'/' {
        line(b"//", rest)
    } else if byte_at(rest, 1) == b'*' {
        block_comment(rest)
    } else {
        listed_token(Kind::Sign, signs, rest)
    }
}
