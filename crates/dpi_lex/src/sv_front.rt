//! The stretch at the front of some bytes of SystemVerilog.

ghost use Rattle.std.specs.Prelude.{◌≡◌, ◌<◌, ◌&&◌, IsTrue, length, slice_index, codes};
ghost use Rattle.dpi_lex.specs.declared.form.Form.TheVariants.{Skipped, Whole};
ghost use Rattle.dpi_lex.specs.declared.token.Kind.TheVariants.{Word, Sign};
ghost use Rattle.dpi_lex.specs.Bytes.{is_among, is_apostrophe};
ghost use Rattle.dpi_lex.specs.Lexed.{IsText};
ghost use Rattle.dpi_lex.specs.Shapes.{form_if, is_line_of, is_listed, slash_form};
ghost use Rattle.dpi_lex.specs.Stretches.{front_of, longest_front, IsPlaced};
ghost use Rattle.dpi_lex.specs.SystemVerilog.{sv_forms, sv_signs, system_names, apostrophe_form};

use crate::bytes::{byte_at, is_digit, is_name_start, is_space};
use crate::comments::{line, slash};
use crate::form::{Form, Stretch};
use crate::language::Language;
use crate::listed::{is_among, listed_token, single_token};
use crate::spaces::space;
use crate::sv_numbers::{based, sv_number};
use crate::texts::text;
use crate::token::Kind;
use crate::words::name;

/// The signs, the longest first.
const SIGNS: [&[u8]; 58] = [
    b"<<<", b">>>", b"<<=", b">>=", b"===", b"!==", b"'{", b"+=", b"-=", b"*=", b"/=", b"%=",
    b"&=", b"|=", b"^=", b"++", b"--", b"+:", b"-:", b"~&", b"~|", b"~^", b"^~", b"<<", b">>",
    b"<=", b">=", b"==", b"!=", b"&&", b"||", b"(", b")", b"[", b"]", b"{", b"}", b"'", b";", b":",
    b",", b".", b"#", b"@", b"?", b"=", b"+", b"-", b"*", b"/", b"%", b"!", b"~", b"&", b"|", b"^",
    b"<", b">",
];

/// The signs of one byte.
const SHORT_SIGNS: &[u8] = b"()[]{}';:,.#@?=+-*/%!~&|^<>";

/// What the second byte of a longer sign can be. Most signs are followed by another byte, so they
/// needn't be looked for in the whole list.
const SECOND_BYTES: &[u8] = b"<>={+-:&|^~";

/// The system names, the longest first.
const SYSTEM_NAMES: [&[u8]; 5] = [b"$unsigned", b"$display", b"$finish", b"$signed", b"$write"];

/// Whether the byte fills a number behind a `'`.
fn is_fill_letter(b: u8) -> bool
    ensures { result ≡ is_among (codes "01xz") b }
{
    b == b'0' || b == b'1' || b == b'x' || b == b'z'
}

/// The sign at the front of the bytes.
fn sign(rest: &[u8]) -> Stretch
    ensures stretch { result ≡ longest_front
        (λ front. form_if (is_listed sv_signs front) (Whole Sign))
        rest.now }
    ensures placed { IsPlaced result.form }
{
    if is_among(SECOND_BYTES, byte_at(rest, 1)) {
        listed_token(Kind::Sign, &SIGNS, rest)
    } else {
        single_token(Kind::Sign, SHORT_SIGNS, rest)
    }
}

/// The system name at the front of the bytes.
fn system_name(rest: &[u8]) -> Stretch
    ensures stretch { result ≡ longest_front
        (λ front. form_if (is_listed system_names front) (Whole Word))
        rest.now }
    ensures placed { IsPlaced result.form }
{
    listed_token(Kind::Word, &SYSTEM_NAMES, rest)
}

/// What begins with a `/`: a comment or a sign.
fn sv_slash(rest: &[u8]) -> Stretch
    requires { IsTrue (is_among (codes "/") (slice_index rest.now 0)) }
    ensures stretch { result ≡ longest_front (slash_form sv_signs) rest.now }
    ensures placed { IsPlaced result.form }
{
    slash(&SIGNS, rest)
}

/// What begins with a `` ` ``: a line that is skipped, or a bad byte.
fn directive(begins: bool, rest: &[u8]) -> Stretch
    ensures stretch { result ≡ longest_front
        (λ front. form_if (begins && is_line_of (codes "`timescale") front) Skipped)
        rest.now }
    ensures placed { IsPlaced result.form }
{
    if !begins {
        return Stretch::bad_byte();
    }
    if !rest.starts_with(b"`timescale") {
        return Stretch::bad_byte();
    }
    line(b"`timescale", rest)
}

/// What begins with a `'`: a number or a sign.
fn apostrophe(rest: &[u8]) -> Stretch
    requires { IsTrue (is_apostrophe (slice_index rest.now 0)) }
    ensures stretch { result ≡ longest_front apostrophe_form rest.now }
    ensures placed { IsPlaced result.form }
{
    if let Some(stretch) = based(rest) {
        return stretch;
    }
    if is_fill_letter(byte_at(rest, 1)) {
        return Stretch {
            form: Form::Whole(Kind::Number),
            len: 2,
        };
    }
    sign(rest)
}

/// The longest stretch at the front of the bytes, which begin a line or don't.
pub(crate) fn sv_front(begins: bool, rest: &[u8]) -> Stretch
    requires text { IsText rest.now }
    requires some { 0 < length rest.now }
    ensures stretch { result ≡ front_of sv_forms begins rest.now }
    ensures placed { IsPlaced result.form }
{
    let first = rest[0];
    if is_space(first) {
        space(rest)
    } else if is_name_start(first) {
        name(Language::SystemVerilog, rest)
    } else if is_digit(first) {
        sv_number(rest)
    } else if first == b'/' {
        sv_slash(rest)
    } else if first == b'`' {
        directive(begins, rest)
    } else if first == b'$' {
        system_name(rest)
    } else if first == b'\'' {
        apostrophe(rest)
    } else if first == b'"' {
        text(Language::SystemVerilog, rest)
    } else {
        sign(rest)
    }
}
