//! Defines of C (ISO C, 6.10.3), each of which is one token.

ghost use Rattle.std.specs.Prelude.{◌≡◌, ◌≤◌, ◌<◌, false, length, drop};
ghost use Rattle.std.specs.List.{list_all};
ghost use Rattle.dpi_lex.specs.declared.language.Language.TheVariants.{C};
ghost use Rattle.dpi_lex.specs.Bytes.{is_blank, is_name_byte};
ghost use Rattle.dpi_lex.specs.C.{define_forms};
ghost use Rattle.dpi_lex.specs.Define as spec;
ghost use Rattle.dpi_lex.specs.Lexed.{IsText};
ghost use Rattle.dpi_lex.specs.Shapes.{behind, is_listed, is_name};
ghost use Rattle.dpi_lex.specs.Stretches.{front_of, IsPlaced};

use crate::bytes::{
    blanks_len, byte_at, bytes_from, is_blank, is_digit, is_name_byte, is_name_start, name_len,
};
use crate::c_numbers::{is_c_number, number_len};
use crate::fault::LexFault;
use crate::form::{Form, Stretch};
use crate::language::Language;
use crate::listed::is_listed;
use crate::token::Kind;

/// The words that can't be names.
const KEYWORDS: [&[u8]; 33] = [
    b"void",
    b"char",
    b"short",
    b"int",
    b"long",
    b"signed",
    b"unsigned",
    b"const",
    b"svBit",
    b"svLogic",
    b"svBitVecVal",
    b"svLogicVecVal",
    b"svOpenArrayHandle",
    b"svScope",
    b"int8_t",
    b"uint8_t",
    b"int16_t",
    b"uint16_t",
    b"int32_t",
    b"uint32_t",
    b"int64_t",
    b"uint64_t",
    b"static",
    b"extern",
    b"if",
    b"else",
    b"while",
    b"do",
    b"for",
    b"return",
    b"break",
    b"continue",
    b"NULL",
];

/// The bytes behind the blanks at the front.
fn behind_blanks(bytes: &[u8]) -> &[u8]
    ensures { result.now ≡ behind is_blank bytes.now }
{
    bytes_from(bytes, blanks_len(bytes))
}

/// A define from its name on.
fn from_name(bytes: &[u8]) -> &[u8]
    ensures { result.now ≡ spec.from_name bytes.now }
{
    behind_blanks(bytes_from(bytes, 7))
}

/// The name of a define.
fn define_name(bytes: &[u8]) -> &[u8]
    ensures { result.now ≡ spec.define_name bytes.now }
{
    let named = from_name(bytes);
    &named[..name_len(Language::C, named)]
}

/// What follows the name of a define.
fn behind_name(bytes: &[u8]) -> &[u8]
    ensures { result.now ≡ spec.behind_name bytes.now }
{
    let named = from_name(bytes);
    bytes_from(named, name_len(Language::C, named))
}

/// How many bytes a `-` at the front has.
fn minus_len(bytes: &[u8]) -> usize
    ensures { result ≡ spec.minus_len bytes.now }
{
    if byte_at(bytes, 0) == b'-' { 1 } else { 0 }
}

/// A define from its number on.
fn from_number(bytes: &[u8]) -> &[u8]
    ensures { result.now ≡ spec.from_number bytes.now }
{
    let value = behind_blanks(behind_name(bytes));
    bytes_from(value, minus_len(value))
}

/// Whether the bytes are a name of C.
fn is_name(bytes: &[u8]) -> bool
    ensures { result ≡ is_name (is_name_byte C) bytes.now }
{
    if !is_name_start(byte_at(bytes, 0)) {
        return false;
    }
    are_name_bytes(bytes)
}

fn are_name_bytes(bytes: &[u8]) -> bool
    ensures { result ≡ list_all (is_name_byte C) bytes.now }
{
    bytes.iter().all(|b| is_name_byte(Language::C, *b))
}

/// Whether the bytes are a keyword.
fn is_keyword(bytes: &[u8]) -> bool
    ensures { result ≡ is_listed spec.c_keywords bytes.now }
{
    is_listed(&KEYWORDS, bytes)
}

/// Whether the bytes are a name and no keyword.
fn is_free_name(bytes: &[u8]) -> bool
    ensures { result ≡ spec.is_free_name bytes.now }
{
    is_name(bytes) && !is_keyword(bytes)
}

/// Whether the bytes begin with a define, up to the first digit of its number.
fn begins_define(bytes: &[u8]) -> bool
    ensures { result ≡ spec.begins_define bytes.now }
{
    bytes.starts_with(b"#define")
        && is_blank(byte_at(bytes, 7))
        && is_free_name(define_name(bytes))
        && is_blank(byte_at(behind_name(bytes), 0))
        && is_digit(byte_at(from_number(bytes), 0))
}

/// The bytes of a define before its number; 0 where it's none.
fn number_place(bytes: &[u8]) -> usize
    ensures place { result ≡ spec.number_place bytes.now }
    ensures within { result ≤ length bytes.now }
{
    if !begins_define(bytes) {
        return 0;
    }
    let number = from_number(bytes);
    if number.len() < bytes.len() {
        bytes.len() - number.len()
    } else {
        0
    }
}

/// Whether the bytes may follow a define.
fn may_follow(after: &[u8]) -> bool
    ensures { result ≡ spec.may_follow after.now }
{
    let rest = behind_blanks(after);
    rest.is_empty()
        || byte_at(rest, 0) == b'\n'
        || rest.starts_with(b"//")
        || rest.starts_with(b"/*")
}

/// What a define with that number is.
fn define_of(place: usize, number: &[u8], after: &[u8]) -> Form
    requires { place ≤ 1048576 }
    ensures form { result ≡ spec.define_of place number.now after.now }
    ensures placed { IsPlaced result }
{
    if !is_c_number(number) {
        let place = place as u32;
        Form::Faulty(LexFault::BadNumber { place })
    } else if may_follow(after) {
        Form::Whole(Kind::Define)
    } else {
        Form::Faulty(LexFault::BadByte { place: 0 })
    }
}

/// The define at the front of the bytes; a bad byte where there is none.
pub(crate) fn define(rest: &[u8]) -> Stretch
    requires { IsText rest.now }
    ensures stretch { result ≡ front_of define_forms false rest.now }
    ensures placed { IsPlaced result.form }
{
    let place = number_place(rest);
    if place == 0 {
        return Stretch::bad_byte();
    }
    let number = bytes_from(rest, place);
    let len = number_len(number);
    Stretch {
        form: define_of(place, &number[..len], bytes_from(number, len)),
        len: place + len,
    }
}
