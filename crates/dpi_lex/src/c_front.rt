//! The stretch at the front of some bytes of C.

ghost use Rattle.std.specs.Prelude.{◌≡◌, ◌<◌, IsTrue, length, slice_index, codes};
ghost use Rattle.dpi_lex.specs.declared.form.Form.TheVariants.{Whole};
ghost use Rattle.dpi_lex.specs.declared.token.Kind.TheVariants.{Sign};
ghost use Rattle.dpi_lex.specs.Bytes.{is_among};
ghost use Rattle.dpi_lex.specs.C.{c_forms, c_signs, hash_forms};
ghost use Rattle.dpi_lex.specs.Lexed.{IsText};
ghost use Rattle.dpi_lex.specs.Shapes.{form_if, is_listed, slash_form};
ghost use Rattle.dpi_lex.specs.Stretches.{front_of, longest_front, IsPlaced};

use crate::bytes::{byte_at, is_digit, is_name_start, is_space};
use crate::c_numbers::c_number;
use crate::characters::character;
use crate::comments::{line, slash};
use crate::define::define;
use crate::form::Stretch;
use crate::language::Language;
use crate::listed::{is_among, listed_token, single_token};
use crate::spaces::space;
use crate::texts::text;
use crate::token::Kind;
use crate::words::name;

/// The signs, the longest first.
const SIGNS: [&[u8]; 45] = [
    b"<<=", b">>=", b"++", b"--", b"+=", b"-=", b"*=", b"/=", b"%=", b"&=", b"|=", b"^=", b"<<",
    b">>", b"<=", b">=", b"==", b"!=", b"&&", b"||", b"->", b"(", b")", b"{", b"}", b"[", b"]",
    b";", b",", b"=", b"*", b"+", b"-", b"!", b"~", b"&", b"/", b"%", b"<", b">", b"^", b"|", b".",
    b"?", b":",
];

/// The signs of one byte.
const SHORT_SIGNS: &[u8] = b"(){}[];,=*+-!~&/%<>^|.?:";

/// What the second byte of a longer sign can be. Most signs are followed by another byte, so they
/// needn't be looked for in the whole list.
const SECOND_BYTES: &[u8] = b"<>=+-&|";

/// The sign at the front of the bytes.
fn sign(rest: &[u8]) -> Stretch
    ensures stretch { result ≡ longest_front
        (λ front. form_if (is_listed c_signs front) (Whole Sign))
        rest.now }
    ensures placed { IsPlaced result.form }
{
    if is_among(SECOND_BYTES, byte_at(rest, 1)) {
        listed_token(Kind::Sign, &SIGNS, rest)
    } else {
        single_token(Kind::Sign, SHORT_SIGNS, rest)
    }
}

/// What begins with a `/`: a comment or a sign.
fn c_slash(rest: &[u8]) -> Stretch
    requires { IsTrue (is_among (codes "/") (slice_index rest.now 0)) }
    ensures stretch { result ≡ longest_front (slash_form c_signs) rest.now }
    ensures placed { IsPlaced result.form }
{
    slash(&SIGNS, rest)
}

/// What begins with a `#`: a line that is skipped, a define, or a bad byte.
fn hash(begins: bool, rest: &[u8]) -> Stretch
    requires { IsText rest.now }
    ensures stretch { result ≡ front_of hash_forms begins rest.now }
    ensures placed { IsPlaced result.form }
{
    if !begins {
        return Stretch::bad_byte();
    }
    if rest.starts_with(b"#include") {
        return line(b"#include", rest);
    }
    define(rest)
}

/// The longest stretch at the front of the bytes, which begin a line or don't.
pub(crate) fn c_front(begins: bool, rest: &[u8]) -> Stretch
    requires text { IsText rest.now }
    requires some { 0 < length rest.now }
    ensures stretch { result ≡ front_of c_forms begins rest.now }
    ensures placed { IsPlaced result.form }
{
    let first = rest[0];
    if is_space(first) {
        space(rest)
    } else if is_name_start(first) {
        name(Language::C, rest)
    } else if is_digit(first) {
        c_number(rest)
    } else if first == b'/' {
        c_slash(rest)
    } else if first == b'#' {
        hash(begins, rest)
    } else if first == b'\'' {
        character(rest)
    } else if first == b'"' {
        text(Language::C, rest)
    } else {
        sign(rest)
    }
}
