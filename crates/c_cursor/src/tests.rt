//! A cursor over the tokens of small texts, and parts of one token.

use crate::{Cursor, character, define, name, number, opener, text};
use c_tree::Class;
use dpi_grammar::Stop;
use dpi_lex::c_tokens;
use std::rt::HostRuntime;
use std::test::Fail;

#[test]
fn a_cursor_goes_from_class_to_class_up_to_the_end(rt: HostRuntime) -> Result<(), Fail> {
    let tokens = c_tokens(rt.alloc(), b"int f ( 0x1F 'a' ;")?;
    let mut cursor = Cursor::new(&tokens);
    let classes = [
        Class::Int,
        Class::Name,
        Class::OpenParen,
        Class::Number,
        Class::Character,
        Class::Semicolon,
    ];
    for (number, class) in classes.iter().enumerate() {
        assert_eq!(rt; cursor.place() as usize, number);
        assert_eq!(rt; cursor.left() as usize, 6 - number);
        assert_eq!(rt; cursor.class(), Some(*class));
        assert!(rt; cursor.sees(*class));
        assert!(rt; !cursor.sees(Class::Define));
        cursor.skip();
    }
    for _turn in 0..2 {
        assert_eq!(rt; cursor.class(), None);
        assert!(rt; !cursor.sees(Class::Semicolon));
        assert_eq!(rt; cursor.refuse(), Stop::Syntax(6));
        assert_eq!(rt; cursor.too_deep(), Stop::TooDeep(6));
        cursor.skip();
    }
    Ok(())
}

#[test]
fn an_expected_token_is_taken_and_another_one_is_refused(rt: HostRuntime) -> Result<(), Fail> {
    let tokens = c_tokens(rt.alloc(), b"( ;")?;
    let mut cursor = Cursor::new(&tokens);
    assert_eq!(rt; cursor.expect(Class::Semicolon), Err(Stop::Syntax(0)));
    assert_eq!(rt; cursor.expect(Class::OpenParen), Ok(()));
    assert_eq!(rt; cursor.expect(Class::OpenParen), Err(Stop::Syntax(1)));
    assert_eq!(rt; cursor.expect(Class::Semicolon), Ok(()));
    assert_eq!(rt; cursor.expect(Class::Semicolon), Err(Stop::Syntax(2)));
    Ok(())
}

#[test]
fn a_part_of_one_token_has_its_number_and_its_bytes(rt: HostRuntime) -> Result<(), Fail> {
    let tokens = c_tokens(rt.alloc(), b"ab 8u 'c' \"d e\"\n#define F -1 // one")?;
    let mut cursor = Cursor::new(&tokens);
    let first = name(rt.alloc(), &mut cursor)?;
    assert_eq!(rt; first.token, 0);
    assert!(rt; first.bytes.as_slice() == b"ab".as_slice());
    let second = number(rt.alloc(), &mut cursor)?;
    assert_eq!(rt; second.token, 1);
    assert!(rt; second.bytes.as_slice() == b"8u".as_slice());
    let third = character(rt.alloc(), &mut cursor)?;
    assert_eq!(rt; third.token, 2);
    assert!(rt; third.bytes.as_slice() == b"'c'".as_slice());
    let fourth = text(rt.alloc(), &mut cursor)?;
    assert_eq!(rt; fourth.token, 3);
    assert!(rt; fourth.bytes.as_slice() == b"\"d e\"".as_slice());
    let fifth = define(rt.alloc(), &mut cursor)?;
    assert_eq!(rt; fifth.token, 4);
    assert!(rt; fifth.bytes.as_slice() == b"#define F -1".as_slice());
    assert_eq!(rt; cursor.left(), 0);
    Ok(())
}

#[test]
fn a_token_of_another_class_is_refused_and_stays(rt: HostRuntime) -> Result<(), Fail> {
    let tokens = c_tokens(rt.alloc(), b"int")?;
    let mut cursor = Cursor::new(&tokens);
    assert_eq!(rt; name(rt.alloc(), &mut cursor).err(), Some(Stop::Syntax(0)));
    assert_eq!(rt;
        number(rt.alloc(), &mut cursor).err(),
        Some(Stop::Syntax(0))
    );
    assert_eq!(rt;
        character(rt.alloc(), &mut cursor).err(),
        Some(Stop::Syntax(0))
    );
    assert_eq!(rt; text(rt.alloc(), &mut cursor).err(), Some(Stop::Syntax(0)));
    assert_eq!(rt;
        define(rt.alloc(), &mut cursor).err(),
        Some(Stop::Syntax(0))
    );
    assert!(rt; cursor.sees(Class::Int));
    Ok(())
}

#[test]
fn a_parenthesis_opens_what_shows_behind_it(rt: HostRuntime) -> Result<(), Fail> {
    let tokens = c_tokens(rt.alloc(), b"f ( ( a [ 1")?;
    for (shows, want) in [(0, 0), (1, 1), (2, 1), (3, 2), (4, 4), (5, 5), (6, 6)] {
        assert_eq!(rt; opener(&tokens, shows), want, "{shows}");
    }
    Ok(())
}
