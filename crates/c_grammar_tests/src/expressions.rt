//! Expressions: how many tokens each takes, or which one stops the parser, and their trees.

use c_cursor::Cursor;
use c_expr::{begins_expr, expr, exprs};
use c_tree::{AssignOperator, Prefix, Primary, Suffix, UnaryOperator};
use dpi_grammar::Stop;
use dpi_lex::c_tokens;
use std::alloc::Global;
use std::process::Abort;
use std::rt::HostRuntime;
use std::test::Fail;

#[derive(Clone, Copy)]
enum Part {
    Expr,
    Exprs,
}

/// A part, a text, and the number of the token behind the part or of the refused one, with 24
/// levels left, by the grammar in docs/LANGUAGES.md.
const PARTS: &[(Part, &[u8], Result<u32, Stop>)] = &[
    (Part::Expr, b"a", Ok(1)),
    (Part::Expr, b"1", Ok(1)),
    (Part::Expr, b"'c'", Ok(1)),
    (Part::Expr, b"\"s\"", Ok(1)),
    (Part::Expr, b"NULL == p", Ok(3)),
    (Part::Expr, b"switch", Ok(1)),
    (Part::Expr, b"1 2", Ok(1)),
    (Part::Expr, b"a = b", Ok(3)),
    (Part::Expr, b"a = b += c ? d : e", Ok(9)),
    (Part::Expr, b"a ? b : c = d", Ok(7)),
    (Part::Expr, b"a ? b = c : d", Ok(7)),
    (Part::Expr, b"a ? b ? c : d : e", Ok(9)),
    (Part::Expr, b"a + b * -c", Ok(6)),
    (Part::Expr, b"a && b || c", Ok(5)),
    (Part::Expr, b"a++ + b", Ok(4)),
    (Part::Expr, b"a++b", Ok(2)),
    (Part::Expr, b"- - ++ -- ! ~ * & a", Ok(9)),
    (Part::Expr, b"*p++ = 1", Ok(5)),
    (Part::Expr, b"(a) b", Ok(3)),
    (Part::Expr, b"(a)(b)", Ok(3)),
    (Part::Expr, b"(int) a", Ok(4)),
    (Part::Expr, b"(int) (a)", Ok(6)),
    (Part::Expr, b"(unsigned long long const *) a", Ok(8)),
    (Part::Expr, b"-(const svBit) -a", Ok(7)),
    (Part::Expr, b"f()", Ok(3)),
    (Part::Expr, b"f(a, b)", Ok(6)),
    (Part::Expr, b"f(a)(b)", Ok(4)),
    (Part::Expr, b"f (int)", Err(Stop::Syntax(2))),
    (Part::Expr, b"a[1][2].x->y++--", Ok(13)),
    (Part::Expr, b"(a)[1]", Ok(6)),
    (Part::Expr, b"", Err(Stop::Syntax(0))),
    (Part::Expr, b"int", Err(Stop::Syntax(0))),
    (Part::Expr, b"if", Err(Stop::Syntax(0))),
    (Part::Expr, b"= a", Err(Stop::Syntax(0))),
    (Part::Expr, b"++", Err(Stop::Syntax(1))),
    (Part::Expr, b"a +", Err(Stop::Syntax(2))),
    (Part::Expr, b"a + / b", Err(Stop::Syntax(2))),
    (Part::Expr, b"a =", Err(Stop::Syntax(2))),
    (Part::Expr, b"a = = b", Err(Stop::Syntax(2))),
    (Part::Expr, b"a ? b", Err(Stop::Syntax(3))),
    (Part::Expr, b"a ? : c", Err(Stop::Syntax(2))),
    (Part::Expr, b"a ? b :", Err(Stop::Syntax(4))),
    (Part::Expr, b"a ? b : = c", Err(Stop::Syntax(4))),
    (Part::Expr, b"(", Err(Stop::Syntax(1))),
    (Part::Expr, b"()", Err(Stop::Syntax(1))),
    (Part::Expr, b"(;", Err(Stop::Syntax(1))),
    (Part::Expr, b"(a", Err(Stop::Syntax(2))),
    (Part::Expr, b"(int", Err(Stop::Syntax(2))),
    (Part::Expr, b"(int)", Err(Stop::Syntax(3))),
    (Part::Expr, b"(int a)", Err(Stop::Syntax(2))),
    (Part::Expr, b"(int) + ;", Err(Stop::Syntax(4))),
    (Part::Expr, b"(long) a", Err(Stop::Syntax(2))),
    (Part::Expr, b"(const) a", Err(Stop::Syntax(2))),
    (Part::Expr, b"f(", Err(Stop::Syntax(2))),
    (Part::Expr, b"f(a", Err(Stop::Syntax(3))),
    (Part::Expr, b"f(a,)", Err(Stop::Syntax(4))),
    (Part::Expr, b"f(,)", Err(Stop::Syntax(2))),
    (Part::Expr, b"f(a;", Err(Stop::Syntax(3))),
    (Part::Expr, b"a[", Err(Stop::Syntax(2))),
    (Part::Expr, b"a[]", Err(Stop::Syntax(2))),
    (Part::Expr, b"a[1", Err(Stop::Syntax(3))),
    (Part::Expr, b"a[1, 2]", Err(Stop::Syntax(3))),
    (Part::Expr, b"a.", Err(Stop::Syntax(2))),
    (Part::Expr, b"a.int", Err(Stop::Syntax(2))),
    (Part::Expr, b"a->", Err(Stop::Syntax(2))),
    (Part::Expr, b"a->1", Err(Stop::Syntax(2))),
    (Part::Expr, b"sizeof a", Ok(1)),
    (Part::Exprs, b"a", Ok(1)),
    (Part::Exprs, b"a, b = c, 1 }", Ok(7)),
    (Part::Exprs, b"a b", Ok(1)),
    (Part::Exprs, b"", Err(Stop::Syntax(0))),
    (Part::Exprs, b", a", Err(Stop::Syntax(0))),
    (Part::Exprs, b"a,", Err(Stop::Syntax(2))),
];

/// A text, how many levels are left, and the number of the token behind the expression, of the
/// refused one, or of the first with which only deeper expressions go on, by the table of levels in
/// docs/LANGUAGES.md.
const LEVELS: &[(&[u8], u32, Result<u32, Stop>)] = &[
    (b"a = b = c + -d", 0, Ok(8)),
    (b"(int) (const char *) a", 0, Ok(9)),
    (b"a.b->c++", 0, Ok(6)),
    (b"(a)", 0, Err(Stop::TooDeep(1))),
    (b"(a)", 1, Ok(3)),
    (b"-(a)", 0, Err(Stop::TooDeep(2))),
    (b"(int) (a)", 0, Err(Stop::TooDeep(4))),
    (b"(int) (a)", 1, Ok(6)),
    (b"(int)", 0, Err(Stop::Syntax(3))),
    (b"(int", 0, Err(Stop::Syntax(2))),
    (b"((", 0, Err(Stop::TooDeep(1))),
    (b"((", 1, Err(Stop::Syntax(2))),
    (b"((a", 1, Err(Stop::TooDeep(2))),
    (b"((int", 1, Err(Stop::Syntax(3))),
    (b"(", 0, Err(Stop::Syntax(1))),
    (b"()", 0, Err(Stop::Syntax(1))),
    (b"(;", 0, Err(Stop::Syntax(1))),
    (b"(1;", 0, Err(Stop::TooDeep(1))),
    (b"f()", 0, Err(Stop::TooDeep(1))),
    (b"f(;", 0, Err(Stop::TooDeep(1))),
    (b"f()", 1, Ok(3)),
    (b"f(g())", 1, Err(Stop::TooDeep(3))),
    (b"f(a, (b))", 1, Err(Stop::TooDeep(5))),
    (b"a[1]", 0, Err(Stop::TooDeep(1))),
    (b"a[1][2]", 1, Ok(7)),
    (b"a[b[1]]", 1, Err(Stop::TooDeep(3))),
    (b"a[b[1]]", 2, Ok(7)),
    (b"a ? b : c", 0, Err(Stop::TooDeep(1))),
    (b"a ? b : c", 1, Ok(5)),
    (b"a ? b : c ? d : e", 1, Err(Stop::TooDeep(5))),
    (b"a ? b : c ? d : e", 2, Ok(9)),
    (b"a ? b ? c : d : e", 1, Err(Stop::TooDeep(3))),
    (b"((a) + (b))", 1, Err(Stop::TooDeep(2))),
    (b"((a) + (b))", 2, Ok(9)),
    (
        b"((((((((((((((((((((((((a))))))))))))))))))))))))",
        24,
        Ok(49),
    ),
    (
        b"(((((((((((((((((((((((((a)))))))))))))))))))))))))",
        24,
        Err(Stop::TooDeep(25)),
    ),
];

fn read(alloc: Global, part: Part, tokens: &mut Cursor<'_>, depth: u32) -> Result<u32, Stop> {
    match part {
        Part::Expr => {
            expr(alloc, tokens, depth)?;
        }
        Part::Exprs => {
            exprs(alloc, tokens, depth)?;
        }
    }
    Ok(tokens.place())
}

#[test]
fn parts_take_their_tokens_or_refuse_the_first_that_is_none(rt: HostRuntime) -> Result<(), Fail> {
    for &(part, text, want) in PARTS {
        assert!(rt; text.len() <= 1_048_576);
        let tokens = c_tokens(rt.alloc(), text)?;
        let mut cursor = Cursor::new(&tokens);
        assert!(rt; read(rt.alloc(), part, &mut cursor, 24) == want, "{text:?}");
    }
    Ok(())
}

#[test]
fn levels_begin_at_their_tokens(rt: HostRuntime) -> Result<(), Fail> {
    for &(text, depth, want) in LEVELS {
        assert!(rt; text.len() <= 1_048_576);
        let tokens = c_tokens(rt.alloc(), text)?;
        let mut cursor = Cursor::new(&tokens);
        assert!(rt;
            read(rt.alloc(), Part::Expr, &mut cursor, depth) == want,
            "{depth} {text:?}"
        );
    }
    Ok(())
}

/// First tokens, and whether an expression begins with each (ISO C 6.5).
const FIRSTS: &[(&[u8], bool)] = &[
    (b"a", true),
    (b"1", true),
    (b"'c'", true),
    (b"\"s\"", true),
    (b"NULL", true),
    (b"(", true),
    (b"&", true),
    (b"--", true),
    (b"!", true),
    (b"", false),
    (b")", false),
    (b"int", false),
    (b"const", false),
    (b"|", false),
    (b"[", false),
    (b"=", false),
];

#[test]
fn expressions_begin_with_these(rt: HostRuntime) -> Result<(), Fail> {
    for &(text, want) in FIRSTS {
        assert!(rt; text.len() <= 1_048_576);
        let tokens = c_tokens(rt.alloc(), text)?;
        assert_eq!(rt; begins_expr(&Cursor::new(&tokens)), want, "{text:?}");
    }
    Ok(())
}

#[test]
fn an_assignment_holds_its_parts_in_order(rt: HostRuntime) -> Result<(), Fail> {
    let tokens = c_tokens(rt.alloc(), b"a = b += -1")?;
    let tree = expr(rt.alloc(), &mut Cursor::new(&tokens), 24)?;
    assert!(rt; matches!(&tree.first.chain.first.primary, Primary::Name(name) if name.token == 0));
    assert!(rt;
        matches!(
            tree.rest.as_slice(),
            [first, second] if first.token == 1
                && first.operator == AssignOperator::Plain
                && first.value.token == 2
                && second.token == 3
                && second.operator == AssignOperator::Add
                && matches!(
                    second.value.chain.first.prefixes.as_slice(),
                    [Prefix::Sign(4, UnaryOperator::Minus)]
                )
        )
    );
    Ok(())
}

#[test]
fn a_cast_stands_before_a_parenthesis_with_its_suffixes(rt: HostRuntime) -> Result<(), Fail> {
    let tokens = c_tokens(rt.alloc(), b"*(int *) (p)[1]")?;
    let tree = expr(rt.alloc(), &mut Cursor::new(&tokens), 24)?;
    let operand = &tree.first.chain.first;
    assert!(rt;
        matches!(
            operand.prefixes.as_slice(),
            [Prefix::Sign(0, UnaryOperator::Star), Prefix::Cast(1, _, stars)] if stars.len() == 1
        )
    );
    assert!(rt; matches!(&operand.primary, Primary::Group(5, _)));
    assert!(rt; matches!(operand.suffixes.as_slice(), [Suffix::Index(8, _)]));
    Ok(())
}

#[test]
fn lists_are_no_levels(rt: HostRuntime) -> Result<(), Fail> {
    let mut text = Vec::new(rt.alloc());
    for _ in 0..10_000 {
        text.extend_from_slice(b"!")?;
    }
    text.extend_from_slice(b"a")?;
    for _ in 0..10_000 {
        text.extend_from_slice(b".b+a=a")?;
    }
    assert!(rt; text.len() <= 1_048_576);
    let tokens = c_tokens(rt.alloc(), &text)?;
    let mut cursor = Cursor::new(&tokens);
    assert_eq!(rt; read(rt.alloc(), Part::Expr, &mut cursor, 0), Ok(70_001));
    Ok(())
}
