//! Types and stars, read from the tokens of small texts.

use crate::{begins_type, stars, type_name};
use c_cursor::Cursor;
use dpi_grammar::Stop;
use dpi_lex::c_tokens;
use std::rt::HostRuntime;
use std::test::Fail;

/// Texts that begin with a type, how many tokens are left behind it, and how many `const` stand
/// before and behind its base.
const ACCEPTED: &[(&[u8], u32, usize, usize)] = &[
    (b"int x", 1, 0, 0),
    (b"unsigned long long int x", 1, 0, 0),
    (b"const const char const * x", 2, 2, 1),
    (b"svOpenArrayHandle h", 1, 0, 0),
    (b"signed x", 1, 0, 0),
    (b"signed", 0, 0, 0),
    (b"short int int", 1, 0, 0),
    (b"long long long", 1, 0, 0),
    (b"uint8_t const", 0, 0, 1),
    (b"void ( )", 2, 0, 0),
];

/// Texts with which no type begins, and the number of the token that is refused.
const REFUSED: &[(&[u8], u32)] = &[
    (b"", 0),
    (b"x", 0),
    (b"static int", 0),
    (b"const", 1),
    (b"const x", 1),
    (b"long", 1),
    (b"long int", 1),
    (b"const unsigned long ; int", 3),
];

#[test]
fn a_type_ends_where_no_word_of_it_follows(rt: HostRuntime) -> Result<(), Fail> {
    for &(text, left, before, behind) in ACCEPTED {
        assert!(rt; text.len() <= 1_048_576);
        let tokens = c_tokens(rt.alloc(), text)?;
        let mut cursor = Cursor::new(&tokens);
        assert!(rt; begins_type(&cursor), "{text:?}");
        let found = type_name(rt.alloc(), &mut cursor)?;
        assert_eq!(rt; found.token, 0, "{text:?}");
        assert_eq!(rt; found.before.len(), before, "{text:?}");
        assert_eq!(rt; found.behind.len(), behind, "{text:?}");
        assert_eq!(rt; cursor.left(), left, "{text:?}");
    }
    Ok(())
}

#[test]
fn the_token_with_which_no_type_goes_on_is_refused(rt: HostRuntime) -> Result<(), Fail> {
    for &(text, token) in REFUSED {
        assert!(rt; text.len() <= 1_048_576);
        let tokens = c_tokens(rt.alloc(), text)?;
        let mut cursor = Cursor::new(&tokens);
        let found = type_name(rt.alloc(), &mut cursor);
        assert_eq!(rt; found.err(), Some(Stop::Syntax(token)), "{text:?}");
    }
    Ok(())
}

#[test]
fn each_star_keeps_its_constants(rt: HostRuntime) -> Result<(), Fail> {
    let tokens = c_tokens(rt.alloc(), b"** const const * x const")?;
    let mut cursor = Cursor::new(&tokens);
    let found = stars(rt.alloc(), &mut cursor)?;
    let wanted = [(0, 0), (1, 2), (4, 0)];
    assert_eq!(rt; found.len(), wanted.len());
    for (star, (token, constants)) in found.as_slice().iter().zip(wanted) {
        assert_eq!(rt; star.token, token);
        assert_eq!(rt; star.constants.len(), constants);
    }
    assert_eq!(rt; cursor.left(), 2);
    Ok(())
}
