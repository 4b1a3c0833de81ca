//! Types and dimensions: how many tokens each takes, or which one is refused.

use crate::{data_type, dimension, dimensions, import_dimension, import_dimensions, import_type};
use dpi_grammar::Stop;
use dpi_lex::sv_tokens;
use std::alloc::Global;
use std::process::Abort;
use std::rt::HostRuntime;
use std::test::Fail;
use sv_cursor::Cursor;

#[derive(Clone, Copy)]
enum Part {
    Type,
    Dimension,
    Dimensions,
    ImportType,
    ImportDimension,
    ImportDimensions,
}

/// A part, a text, and the number of the token behind the part or the fault, by the grammar in
/// docs/LANGUAGES.md.
const PARTS: &[(Part, &[u8], Result<u32, Stop>)] = &[
    (Part::Type, b"bit", Ok(1)),
    (Part::Type, b"logic signed [7:0] x", Ok(7)),
    (Part::Type, b"reg [-1:-8]", Ok(8)),
    (Part::Type, b"bit signed unsigned", Ok(2)),
    (Part::Type, b"bit [7:0] signed", Ok(6)),
    (Part::Type, b"int unsigned x", Ok(2)),
    (Part::Type, b"byte [7:0]", Ok(1)),
    (Part::Type, b"longint", Ok(1)),
    (Part::Type, b"integer signed", Ok(1)),
    (Part::Type, b"string", Ok(1)),
    (Part::Type, b"chandle [1]", Ok(1)),
    (Part::Type, b"", Err(Stop::Syntax(0))),
    (Part::Type, b"real", Err(Stop::Syntax(0))),
    (Part::Type, b"signed", Err(Stop::Syntax(0))),
    (Part::Type, b"bit []", Err(Stop::Syntax(2))),
    (Part::Type, b"bit [:0]", Err(Stop::Syntax(2))),
    (Part::Type, b"bit [7]", Err(Stop::Syntax(3))),
    (Part::Type, b"bit [7:]", Err(Stop::Syntax(4))),
    (Part::Type, b"bit [7:0", Err(Stop::Syntax(5))),
    (Part::Dimension, b"[3]", Ok(3)),
    (Part::Dimension, b"[3:0]", Ok(5)),
    (Part::Dimension, b"3", Err(Stop::Syntax(0))),
    (Part::Dimension, b"[]", Err(Stop::Syntax(1))),
    (Part::Dimensions, b"[7:0][3] =", Ok(8)),
    (Part::Dimensions, b"[-1:0]", Ok(6)),
    (Part::Dimensions, b"", Ok(0)),
    (Part::Dimensions, b"[-1]", Err(Stop::Syntax(3))),
    (Part::Dimensions, b"[a]", Err(Stop::Syntax(1))),
    (Part::Dimensions, b"[1", Err(Stop::Syntax(2))),
    (Part::Dimensions, b"[1:2:3]", Err(Stop::Syntax(4))),
    (Part::Dimensions, b"[1][", Err(Stop::Syntax(4))),
    (Part::ImportType, b"logic [] x", Ok(3)),
    (Part::ImportType, b"bit signed [7:0]", Ok(7)),
    (Part::ImportType, b"reg", Ok(1)),
    (Part::ImportType, b"int []", Ok(1)),
    (Part::ImportType, b"chandle", Ok(1)),
    (Part::ImportType, b"bit [", Err(Stop::Syntax(2))),
    (Part::ImportType, b"x", Err(Stop::Syntax(0))),
    (Part::ImportDimension, b"[]", Ok(2)),
    (Part::ImportDimension, b"[2]", Ok(3)),
    (Part::ImportDimension, b"x", Err(Stop::Syntax(0))),
    (Part::ImportDimensions, b"[][3:0][]", Ok(9)),
    (Part::ImportDimensions, b"x", Ok(0)),
    (Part::ImportDimensions, b"[-]", Err(Stop::Syntax(2))),
];

fn read(alloc: Global, part: Part, tokens: &mut Cursor<'_>) -> Result<u32, Stop> {
    match part {
        Part::Type => {
            data_type(alloc, tokens)?;
        }
        Part::Dimension => {
            dimension(alloc, tokens)?;
        }
        Part::Dimensions => {
            dimensions(alloc, tokens)?;
        }
        Part::ImportType => {
            import_type(alloc, tokens)?;
        }
        Part::ImportDimension => {
            import_dimension(alloc, tokens)?;
        }
        Part::ImportDimensions => {
            import_dimensions(alloc, tokens)?;
        }
    }
    Ok(tokens.place())
}

#[test]
fn types_take_their_tokens_or_refuse_the_first_that_is_none(rt: HostRuntime) -> Result<(), Fail> {
    for &(part, text, want) in PARTS {
        assert!(rt; text.len() <= 1_048_576);
        let tokens = sv_tokens(rt.alloc(), text)?;
        let mut cursor = Cursor::new(&tokens);
        assert!(rt; read(rt.alloc(), part, &mut cursor) == want, "{text:?}");
    }
    Ok(())
}
