//! Expressions and what holds them: how many tokens each takes, or which one stops the parser.

use dpi_grammar::Stop;
use dpi_lex::sv_tokens;
use std::alloc::Global;
use std::process::Abort;
use std::rt::HostRuntime;
use std::test::Fail;
use sv_cursor::Cursor;
use sv_expr::{actuals, expr, exprs, flat_call, lvalue};

#[derive(Clone, Copy)]
enum Part {
    Expr,
    Exprs,
    Lvalue,
    Actuals,
    FlatCall,
}

/// A part, a text, and the number of the token behind the part or the refused one, with 24 levels
/// left, by the grammar in docs/LANGUAGES.md.
const PARTS: &[(Part, &[u8], Result<u32, Stop>)] = &[
    (Part::Expr, b"1", Ok(1)),
    (Part::Expr, b"\"s\"", Ok(1)),
    (Part::Expr, b"null == x", Ok(3)),
    (Part::Expr, b"a + b * -c", Ok(6)),
    (Part::Expr, b"!~&a", Ok(3)),
    (Part::Expr, b"a ? b : c", Ok(5)),
    (Part::Expr, b"a ? b ? c : d : e", Ok(9)),
    (Part::Expr, b"f()", Ok(3)),
    (Part::Expr, b"f(a, b)", Ok(6)),
    (Part::Expr, b"f(a)(b)", Ok(4)),
    (Part::Expr, b"a[1][2:0][b +: 4][b-:4]", Ok(19)),
    (Part::Expr, b"a[-1:0]", Ok(7)),
    (Part::Expr, b"a[1](b)", Ok(4)),
    (Part::Expr, b"{a, b}", Ok(5)),
    (Part::Expr, b"{3{a, b}}", Ok(8)),
    (Part::Expr, b"{3, {a}}", Ok(7)),
    (Part::Expr, b"$signed(a) + $unsigned(b)", Ok(9)),
    (Part::Expr, b"(a)[1]", Ok(3)),
    (Part::Expr, b"a = b", Ok(1)),
    (Part::Expr, b"", Err(Stop::Syntax(0))),
    (Part::Expr, b"begin", Err(Stop::Syntax(0))),
    (Part::Expr, b"+", Err(Stop::Syntax(1))),
    (Part::Expr, b"a +", Err(Stop::Syntax(2))),
    (Part::Expr, b"a + * b", Err(Stop::Syntax(2))),
    (Part::Expr, b"a ? b", Err(Stop::Syntax(3))),
    (Part::Expr, b"a ? : c", Err(Stop::Syntax(2))),
    (Part::Expr, b"a ? b :", Err(Stop::Syntax(4))),
    (Part::Expr, b"f(a", Err(Stop::Syntax(3))),
    (Part::Expr, b"f(a,)", Err(Stop::Syntax(4))),
    (Part::Expr, b"f(,)", Err(Stop::Syntax(2))),
    (Part::Expr, b"a[1", Err(Stop::Syntax(3))),
    (Part::Expr, b"a[]", Err(Stop::Syntax(2))),
    (Part::Expr, b"a[b:0]", Err(Stop::Syntax(3))),
    (Part::Expr, b"a[1+2:0]", Err(Stop::Syntax(5))),
    (Part::Expr, b"a[(1):0]", Err(Stop::Syntax(5))),
    (Part::Expr, b"a[+1:0]", Err(Stop::Syntax(4))),
    (Part::Expr, b"a[1:b]", Err(Stop::Syntax(4))),
    (Part::Expr, b"a[b+:c]", Err(Stop::Syntax(4))),
    (Part::Expr, b"a[b+:1:2]", Err(Stop::Syntax(5))),
    (Part::Expr, b"{}", Err(Stop::Syntax(1))),
    (Part::Expr, b"{a{b}}", Err(Stop::Syntax(2))),
    (Part::Expr, b"{-1{b}}", Err(Stop::Syntax(3))),
    (Part::Expr, b"{2{}}", Err(Stop::Syntax(3))),
    (Part::Expr, b"{2{a},b}", Err(Stop::Syntax(5))),
    (Part::Expr, b"{2{a}", Err(Stop::Syntax(5))),
    (Part::Expr, b"$signed a", Err(Stop::Syntax(1))),
    (Part::Expr, b"(a", Err(Stop::Syntax(2))),
    (Part::Expr, b"()", Err(Stop::Syntax(1))),
    (Part::Exprs, b"a, 1 + b ;", Ok(5)),
    (Part::Exprs, b"a", Ok(1)),
    (Part::Exprs, b", a", Err(Stop::Syntax(0))),
    (Part::Exprs, b"a,", Err(Stop::Syntax(2))),
    (Part::Lvalue, b"a = 1", Ok(1)),
    (Part::Lvalue, b"a[i][1:0]++", Ok(9)),
    (Part::Lvalue, b"1", Err(Stop::Syntax(0))),
    (Part::Lvalue, b"a[", Err(Stop::Syntax(2))),
    (Part::Actuals, b"(a, b);", Ok(5)),
    (Part::Actuals, b"a", Err(Stop::Syntax(0))),
    (Part::FlatCall, b"f()", Ok(3)),
    (Part::FlatCall, b"f", Err(Stop::Syntax(1))),
    (Part::FlatCall, b"(a)", Err(Stop::Syntax(0))),
    (Part::FlatCall, b"f(a b)", Err(Stop::Syntax(3))),
];

/// A part, a text, how many levels are left, and the number of the token behind the part or of the
/// one that opens a level too many, by the table of levels in docs/LANGUAGES.md.
const LEVELS: &[(Part, &[u8], u32, Result<u32, Stop>)] = &[
    (Part::Expr, b"a + -b", 0, Ok(4)),
    (Part::Expr, b"(a)", 0, Err(Stop::TooDeep(0))),
    (Part::Expr, b"(a)", 1, Ok(3)),
    (Part::Expr, b"a + (b)", 0, Err(Stop::TooDeep(2))),
    (Part::Expr, b"((a) + (b))", 2, Ok(9)),
    (Part::Expr, b"((a) + (b))", 1, Err(Stop::TooDeep(1))),
    (Part::Expr, b"f()", 0, Err(Stop::TooDeep(1))),
    (Part::Expr, b"f()", 1, Ok(3)),
    (Part::Expr, b"f(g())", 1, Err(Stop::TooDeep(3))),
    (Part::Expr, b"a[1]", 0, Err(Stop::TooDeep(1))),
    (Part::Expr, b"a[1][2]", 1, Ok(7)),
    (Part::Expr, b"a[b[1]]", 1, Err(Stop::TooDeep(3))),
    (Part::Expr, b"{a}", 0, Err(Stop::TooDeep(0))),
    (Part::Expr, b"{a}", 1, Ok(3)),
    (Part::Expr, b"{2{a}}", 1, Ok(6)),
    (Part::Expr, b"{2{(a)}}", 1, Err(Stop::TooDeep(3))),
    (Part::Expr, b"$signed(a)", 0, Err(Stop::TooDeep(0))),
    (Part::Expr, b"$unsigned(a)", 0, Err(Stop::TooDeep(0))),
    (Part::Expr, b"$unsigned(a)", 1, Ok(4)),
    (Part::Expr, b"a ? b : c", 0, Err(Stop::TooDeep(1))),
    (Part::Expr, b"a ? b : c", 1, Ok(5)),
    (Part::Expr, b"a ? b : c ? d : e", 1, Err(Stop::TooDeep(5))),
    (Part::Lvalue, b"a", 0, Ok(1)),
    (Part::Lvalue, b"a[1]", 0, Err(Stop::TooDeep(1))),
    (Part::Actuals, b"(a)", 0, Err(Stop::TooDeep(0))),
    (Part::Actuals, b"(a)", 1, Ok(3)),
    (Part::FlatCall, b"f(a)", 0, Ok(4)),
    (Part::FlatCall, b"f((a))", 0, Err(Stop::TooDeep(2))),
    (
        Part::Expr,
        b"((((((((((((((((((((((((a))))))))))))))))))))))))",
        24,
        Ok(49),
    ),
    (
        Part::Expr,
        b"(((((((((((((((((((((((((a)))))))))))))))))))))))))",
        24,
        Err(Stop::TooDeep(24)),
    ),
];

fn read(alloc: Global, part: Part, tokens: &mut Cursor<'_>, depth: u32) -> Result<u32, Stop> {
    match part {
        Part::Expr => {
            expr(alloc, tokens, depth)?;
        }
        Part::Exprs => {
            exprs(alloc, tokens, depth)?;
        }
        Part::Lvalue => {
            lvalue(alloc, tokens, depth)?;
        }
        Part::Actuals => {
            actuals(alloc, tokens, depth)?;
        }
        Part::FlatCall => {
            flat_call(alloc, tokens, depth)?;
        }
    }
    Ok(tokens.place())
}

#[test]
fn parts_take_their_tokens_or_refuse_the_first_that_is_none(rt: HostRuntime) -> Result<(), Fail> {
    for &(part, text, want) in PARTS {
        assert!(rt; text.len() <= 1_048_576);
        let tokens = sv_tokens(rt.alloc(), text)?;
        let mut cursor = Cursor::new(&tokens);
        assert!(rt; read(rt.alloc(), part, &mut cursor, 24) == want, "{text:?}");
    }
    Ok(())
}

#[test]
fn levels_begin_at_their_tokens(rt: HostRuntime) -> Result<(), Fail> {
    for &(part, text, depth, want) in LEVELS {
        assert!(rt; text.len() <= 1_048_576);
        let tokens = sv_tokens(rt.alloc(), text)?;
        let mut cursor = Cursor::new(&tokens);
        assert!(rt;
            read(rt.alloc(), part, &mut cursor, depth) == want,
            "{depth} {text:?}"
        );
    }
    Ok(())
}
