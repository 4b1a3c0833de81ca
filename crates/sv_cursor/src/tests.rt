//! Parts of one or two tokens: how many tokens each takes, or which one is refused.

use crate::{Cursor, bound, label, name, number, optional_label, text};
use dpi_grammar::Stop;
use dpi_lex::sv_tokens;
use std::alloc::Global;
use std::process::Abort;
use std::rt::HostRuntime;
use std::test::Fail;
use sv_tree::Class;

#[derive(Clone, Copy)]
enum Part {
    Name,
    Number,
    Text,
    Bound,
    Label,
    OptionalLabel,
}

/// A part, a text, and the number of the token behind the part or the fault, by the grammar in
/// docs/LANGUAGES.md.
const PARTS: &[(Part, &[u8], Result<u32, Stop>)] = &[
    (Part::Name, b"a_1$ b", Ok(1)),
    (Part::Name, b"module", Err(Stop::Syntax(0))),
    (Part::Name, b"$display", Err(Stop::Syntax(0))),
    (Part::Name, b"1", Err(Stop::Syntax(0))),
    (Part::Name, b"", Err(Stop::Syntax(0))),
    (Part::Number, b"8'hff", Ok(1)),
    (Part::Number, b"-1", Err(Stop::Syntax(0))),
    (Part::Number, b"a", Err(Stop::Syntax(0))),
    (Part::Text, b"\"a\"", Ok(1)),
    (Part::Text, b"a", Err(Stop::Syntax(0))),
    (Part::Bound, b"7:0", Ok(1)),
    (Part::Bound, b"- 1:", Ok(2)),
    (Part::Bound, b"- - 1", Err(Stop::Syntax(1))),
    (Part::Bound, b"-", Err(Stop::Syntax(1))),
    (Part::Bound, b"-a", Err(Stop::Syntax(1))),
    (Part::Bound, b"+1", Err(Stop::Syntax(0))),
    (Part::Label, b": a ;", Ok(2)),
    (Part::Label, b"a", Err(Stop::Syntax(0))),
    (Part::Label, b":", Err(Stop::Syntax(1))),
    (Part::Label, b": end", Err(Stop::Syntax(1))),
    (Part::OptionalLabel, b"; a", Ok(0)),
    (Part::OptionalLabel, b": a", Ok(2)),
    (Part::OptionalLabel, b": 1", Err(Stop::Syntax(1))),
    (Part::OptionalLabel, b"", Ok(0)),
];

fn read(alloc: Global, part: Part, tokens: &mut Cursor<'_>) -> Result<u32, Stop> {
    match part {
        Part::Name => {
            name(alloc, tokens)?;
        }
        Part::Number => {
            number(alloc, tokens)?;
        }
        Part::Text => {
            text(alloc, tokens)?;
        }
        Part::Bound => {
            bound(alloc, tokens)?;
        }
        Part::Label => {
            label(alloc, tokens)?;
        }
        Part::OptionalLabel => {
            optional_label(alloc, tokens)?;
        }
    }
    Ok(tokens.place())
}

#[test]
fn parts_take_their_tokens_or_refuse_the_first_that_is_none(rt: HostRuntime) -> Result<(), Fail> {
    for &(part, text, want) in PARTS {
        assert!(rt; text.len() <= 1_048_576);
        let tokens = sv_tokens(rt.alloc(), text)?;
        let mut cursor = Cursor::new(&tokens);
        assert!(rt; read(rt.alloc(), part, &mut cursor) == want, "{text:?}");
    }
    Ok(())
}

#[test]
fn the_end_stays_the_end(rt: HostRuntime) -> Result<(), Fail> {
    let tokens = sv_tokens(rt.alloc(), b"a ;")?;
    let mut cursor = Cursor::new(&tokens);
    assert!(rt; cursor.class() == Some(Class::Name) && cursor.left() == 2);
    cursor.skip();
    assert!(rt; cursor.sees(Class::Semicolon) && cursor.place() == 1);
    cursor.skip();
    cursor.skip();
    assert!(rt; cursor.class().is_none() && cursor.place() == 2 && cursor.left() == 0);
    assert!(rt; cursor.refuse() == Stop::Syntax(2) && cursor.too_deep() == Stop::TooDeep(2));
    Ok(())
}
