//! Classes of tokens and bases of types, as the grammar of C has them.

use crate::class::{SIGNS, WORDS};
use crate::{BaseRest, BaseWord, Class, class_of};
use dpi_lex::Kind;
use std::rt::HostRuntime;

/// Tokens, and what each is for the grammar: a word that the grammar doesn't quote is a name, a sign
/// that it doesn't quote is of no production.
const TOKENS: &[(Kind, &[u8], Class)] = &[
    (Kind::Word, b"int", Class::Int),
    (Kind::Word, b"uint64_t", Class::Uint64),
    (Kind::Word, b"svLogicVecVal", Class::SvLogicVecVal),
    (Kind::Word, b"NULL", Class::Null),
    (Kind::Word, b"Int", Class::Name),
    (Kind::Word, b"int_", Class::Name),
    (Kind::Word, b"in", Class::Name),
    (Kind::Word, b"null", Class::Name),
    (Kind::Word, b"switch", Class::Name),
    (Kind::Word, b"sizeof", Class::Name),
    (Kind::Word, b"double", Class::Name),
    (Kind::Sign, b"<<=", Class::ShiftLeftAssign),
    (Kind::Sign, b"->", Class::Arrow),
    (Kind::Sign, b"#", Class::Other),
    (Kind::Number, b"0x1F", Class::Number),
    (Kind::Character, b"'a'", Class::Character),
    (Kind::Text, b"\"int\"", Class::Text),
    (Kind::Define, b"#define N 1", Class::Define),
    (Kind::Word, b"_", Class::Name),
];

#[test]
fn a_token_has_the_class_of_its_production(rt: HostRuntime) {
    for (row, (kind, bytes, class)) in TOKENS.iter().enumerate() {
        assert_eq!(rt; class_of(*kind, bytes), *class, "{row}");
    }
}

#[test]
fn each_class_with_a_spelling_is_read_back(rt: HostRuntime) {
    for class in WORDS {
        assert_eq!(rt; class_of(Kind::Word, class.spelling()), class);
    }
    for class in SIGNS {
        assert_eq!(rt; class_of(Kind::Sign, class.spelling()), class);
    }
}

/// Words, and whether they are a base: a sign comes first, `int` comes last, each at most once, and
/// `long` comes twice.
const BASES: &[(&[Class], bool)] = &[
    (&[], false),
    (&[Class::Void], true),
    (&[Class::Char], true),
    (&[Class::Signed, Class::Char], true),
    (&[Class::Unsigned, Class::Char], true),
    (&[Class::Char, Class::Int], false),
    (&[Class::Short], true),
    (&[Class::Short, Class::Int], true),
    (&[Class::Unsigned, Class::Short, Class::Int], true),
    (&[Class::Short, Class::Signed], false),
    (&[Class::Int], true),
    (&[Class::Int, Class::Int], false),
    (&[Class::Signed], true),
    (&[Class::Signed, Class::Int], true),
    (&[Class::Signed, Class::Signed], false),
    (&[Class::Signed, Class::Unsigned], false),
    (&[Class::Long], false),
    (&[Class::Long, Class::Int], false),
    (&[Class::Long, Class::Long], true),
    (
        &[Class::Unsigned, Class::Long, Class::Long, Class::Int],
        true,
    ),
    (&[Class::Long, Class::Long, Class::Long], false),
    (&[Class::Unsigned, Class::Void], false),
    (&[Class::SvScope], true),
    (&[Class::SvScope, Class::Int], false),
];

fn is_base(words: &[Class]) -> bool {
    let mut rest = BaseRest::Whole;
    for class in words {
        let Some(word) = BaseWord::of(Some(*class)) else {
            return false;
        };
        let Some(next) = rest.behind(word) else {
            return false;
        };
        rest = next;
    }
    rest.may_end()
}

#[test]
fn a_base_has_its_words_in_one_order(rt: HostRuntime) {
    for (row, (words, is)) in BASES.iter().enumerate() {
        assert_eq!(rt; is_base(words), *is, "{row}");
    }
}
