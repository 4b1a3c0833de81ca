//! Kinds of declarations, and the least violation of each that is refused.

use dpi_grammar::Stop;
use dpi_lex::sv_tokens;
use std::alloc::Global;
use std::process::Abort;
use std::rt::HostRuntime;
use std::test::Fail;
use sv_cursor::Cursor;
use sv_shapes::{FormalKind, OpenLeaf, VarKind, formal_kind, note_formal, variable_kind};
use sv_tree::{DataType, Dimension, ImportDimension, ImportType};
use sv_types::{data_type, dimensions, import_dimensions, import_type};

/// What a declaration comes to.
#[derive(Clone, Copy, Debug, PartialEq, Eq)]
enum Told {
    /// The bits of an element, the dimensions and all cells.
    Cells(u32, u32, u32),
    /// A string.
    Text,
    /// A chandle.
    Chandle,
    /// The cells of an element of an open array that isn't open itself, and the dimensions.
    Open(u64, usize),
    /// An open array with an open packed part, and the dimensions.
    Any(usize),
    /// The token and the rule of the least violation.
    Broken(u32, u8),
    /// Neither a kind nor a violation.
    Nothing,
}

/// The token of the declared name.
const NAME: u32 = 50;

/// A type with its unpacked dimensions, and what IEEE 1800-2017, 6 and 7.4, and the limits make of
/// it. Tokens are counted from 0 by hand.
const VARIABLES: &[(&[u8], Told)] = &[
    (b"int", Told::Cells(32, 0, 1)),
    (b"integer", Told::Cells(32, 0, 1)),
    (b"bit [1023:0]", Told::Cells(1024, 0, 32)),
    (b"bit [1024:0]", Told::Broken(1, 8)),
    (b"logic [512:-511] [2049]", Told::Broken(7, 8)),
    (b"byte [65536]", Told::Cells(8, 1, 65536)),
    (b"byte [65537]", Told::Broken(1, 8)),
    (b"int [2][32768]", Told::Cells(32, 2, 65536)),
    (b"int [2][32769]", Told::Broken(4, 8)),
    (b"bit [32:0] [32768]", Told::Cells(33, 1, 65536)),
    (b"bit [32:0] [32769]", Told::Broken(6, 8)),
    (b"int [2][3:1][-1:2]", Told::Cells(32, 3, 24)),
    (b"int [1][1][1][1]", Told::Broken(10, 8)),
    (b"int [1][1][1][4'd3:0]", Told::Broken(10, 8)),
    (b"int [0]", Told::Broken(1, 8)),
    (b"int ['d4]", Told::Broken(1, 8)),
    (b"int [4:'d0]", Told::Broken(4, 8)),
    (b"int [2147483647:2147483647]", Told::Cells(32, 1, 1)),
    (b"int [2147483648:0]", Told::Broken(2, 8)),
    (b"int [-2147483648:-2147483648]", Told::Cells(32, 1, 1)),
    (b"int [-2147483649:0]", Told::Broken(3, 8)),
    (b"int [0][1][1][1][1]", Told::Broken(1, 8)),
    (b"string", Told::Text),
    (b"string [2]", Told::Broken(NAME, 9)),
    (b"string [0]", Told::Broken(1, 8)),
    (b"chandle", Told::Chandle),
    (b"chandle [2]", Told::Broken(NAME, 9)),
];

/// The same of formals of imports, by 35.5.6.1.
const FORMALS: &[(&[u8], Told)] = &[
    (b"int [4]", Told::Cells(32, 1, 4)),
    (b"string", Told::Text),
    (b"int []", Told::Open(1, 1)),
    (b"bit [32:0] [] [3]", Told::Open(2, 2)),
    (b"bit []", Told::Any(0)),
    (b"logic [] [][3:0]", Told::Any(2)),
    (b"int [][][]", Told::Open(1, 3)),
    (b"int [][][][]", Told::Broken(7, 8)),
    (b"int [][][][4'd3:0]", Told::Broken(7, 8)),
    (b"int [][65536][2]", Told::Broken(6, 8)),
    (b"int [][0]", Told::Broken(3, 8)),
    (b"string []", Told::Broken(NAME, 9)),
    (b"integer [][2]", Told::Broken(NAME, 11)),
    (b"integer [2]", Told::Cells(32, 1, 2)),
];

fn kind_told(kind: Option<VarKind>) -> Told {
    match kind {
        Some(VarKind::Cells(shape)) => Told::Cells(shape.width(), shape.dims(), shape.cells()),
        Some(VarKind::Text) => Told::Text,
        Some(VarKind::Chandle) => Told::Chandle,
        None => Told::Nothing,
    }
}

fn open_told(leaf: OpenLeaf, dims: usize) -> Told {
    match leaf {
        OpenLeaf::Leaf(leaf) => Told::Open(leaf.cells(), dims),
        _ => Told::Any(dims),
    }
}

fn variable_told(kind: &DataType, ranges: &[Dimension]) -> Told {
    let mut found = None;
    let kind = variable_kind(0, NAME, kind, ranges, &mut found);
    match found {
        Some(violation) if kind.is_none() => Told::Broken(violation.token, violation.rule),
        _ => kind_told(kind),
    }
}

fn kept_told(kind: FormalKind) -> Told {
    match kind {
        FormalKind::Sized(kind) => kind_told(Some(kind)),
        FormalKind::Open { leaf, dims } => open_told(leaf, dims.as_slice().len()),
    }
}

fn formal_told(kind: &ImportType, ranges: &[ImportDimension]) -> Told {
    let mut found = None;
    note_formal(0, NAME, kind, ranges, &mut found);
    match (formal_kind(kind, ranges), found) {
        (Some(kind), None) => kept_told(kind),
        (None, Some(violation)) => Told::Broken(violation.token, violation.rule),
        _ => Told::Nothing,
    }
}

fn variable(alloc: Global, tokens: &mut Cursor<'_>) -> Result<Told, Stop> {
    let kind = data_type(alloc, tokens)?;
    let ranges = dimensions(alloc, tokens)?;
    Ok(variable_told(&kind, ranges.as_slice()))
}

fn formal(alloc: Global, tokens: &mut Cursor<'_>) -> Result<Told, Stop> {
    let kind = import_type(alloc, tokens)?;
    let ranges = import_dimensions(alloc, tokens)?;
    Ok(formal_told(&kind, ranges.as_slice()))
}

#[test]
fn variables_have_the_kind_of_their_type_and_dimensions(rt: HostRuntime) -> Result<(), Fail> {
    for &(text, want) in VARIABLES {
        assert!(rt; text.len() <= 1_048_576);
        let tokens = sv_tokens(rt.alloc(), text)?;
        let mut cursor = Cursor::new(&tokens);
        assert_eq!(rt; variable(rt.alloc(), &mut cursor)?, want, "{text:?}");
    }
    Ok(())
}

#[test]
fn formals_of_imports_may_be_open_arrays(rt: HostRuntime) -> Result<(), Fail> {
    for &(text, want) in FORMALS {
        assert!(rt; text.len() <= 1_048_576);
        let tokens = sv_tokens(rt.alloc(), text)?;
        let mut cursor = Cursor::new(&tokens);
        assert_eq!(rt; formal(rt.alloc(), &mut cursor)?, want, "{text:?}");
    }
    Ok(())
}
