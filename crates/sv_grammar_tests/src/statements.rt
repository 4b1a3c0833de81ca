//! Texts with what is read of them, by the rules of the grammar and with tokens counted by hand.

use dpi_grammar::Stop;
use dpi_lex::{Tokens, sv_tokens};
use sqlite_items::Boxed;
use std::alloc::Global;
use std::test::Fail;
use sv_cursor::Cursor;
use sv_stmt::{declarations, statement, variables};
use sv_tree::Stmt;

/// Statements, and the numbers of tokens behind which a shorter one could end.
const STATEMENTS: &[(&[u8], &[u32])] = &[
    (b";", &[]),
    (b"begin end", &[]),
    (b"begin : a end : a", &[4]),
    (
        b"begin int x = 1, y[2] = '{1, 2}; bit z; ; x = y[0]; end",
        &[],
    ),
    (b"if (a) b;", &[]),
    (b"if (a) b; else c;", &[6]),
    (b"if (a) if (b) ; else ; else ;", &[9, 11]),
    (b"if (a) ; else if (b) ; else ;", &[5, 11]),
    (b"case (a) 1, 2: ; default: b; endcase", &[]),
    (b"case (a) 1: if (a) ; default: ; endcase", &[]),
    (b"while (a) ;", &[]),
    (b"repeat (2) ;", &[]),
    (b"forever ;", &[]),
    (b"for (int i = 0; i < 2; i++) ;", &[]),
    (b"for (bit [3:0] i = 0; i; i = '{1}) ;", &[]),
    (b"for (i[0] = 0; i; i += 2) ;", &[]),
    (b"return;", &[]),
    (b"return -a + 1;", &[]),
    (b"break;", &[]),
    (b"continue;", &[]),
    (b"disable a;", &[]),
    (b"$finish;", &[]),
    (b"$finish(1);", &[]),
    (b"$display;", &[]),
    (b"$write();", &[]),
    (b"$write(\"a\");", &[]),
    (b"$display(\"a\", b, c + 1);", &[]),
    (b"void'(f());", &[]),
    (b"void'(f(a, b));", &[]),
    (b"f;", &[]),
    (b"f();", &[]),
    (b"f(a, b);", &[]),
    (b"a = 1;", &[]),
    (b"a[1][2 +: 3] = '{1, '{b, c}};", &[]),
    (b"a >>= b ? c : d;", &[]),
    (b"a++;", &[]),
    (b"a[0]--;", &[]),
];

/// Texts that begin no statement, and the token with which none goes on.
const REFUSED: &[(&[u8], u32)] = &[
    (b"", 0),
    (b"1;", 0),
    (b"int x;", 0),
    (b"'{1};", 0),
    (b"else ;", 0),
    (b"end", 0),
    (b"if a ;", 1),
    (b"if () ;", 2),
    (b"if (a) ; else", 6),
    (b"if (a) ; else else ;", 6),
    (b"if (a) else ;", 4),
    (b"case (a) endcase", 4),
    (b"case (a) default 1: ; endcase", 5),
    (b"case (a) 1 ; endcase", 5),
    (b"case (a) 1: endcase", 6),
    (b"begin a = 1; int x; end", 5),
    (b"begin endcase", 1),
    (b"begin end : 1", 3),
    (b"while () ;", 2),
    (b"repeat ;", 1),
    (b"forever (a) ;", 1),
    (b"for (;;) ;", 2),
    (b"for (int i; i; i++) ;", 4),
    (b"for (i = '{1}; i; i++) ;", 4),
    (b"for (int i = 0; ; i++) ;", 7),
    (b"for (int i = 0; i; ) ;", 9),
    (b"return '{1};", 1),
    (b"disable 1;", 1),
    (b"$finish();", 2),
    (b"$finish(a);", 2),
    (b"$display(a);", 2),
    (b"$display(\"a\" b);", 3),
    (b"void (f(a));", 1),
    (b"void'(a);", 4),
    (b"a == b;", 1),
    (b"a = '{};", 3),
    (b"a += '{1};", 2),
    (b"f(1) = 2;", 4),
];

/// Declarations.
const DECLARATIONS: &[&[u8]] = &[
    b"int x;",
    b"logic signed [7:0] a, b[2], c[1:0][-1:3] = 1;",
    b"string s = \"a\";",
    b"int unsigned a[2] = '{1, 2}, b;",
    b"chandle c = null;",
];

/// Texts that begin no declaration, and the token with which none goes on.
const UNDECLARED: &[(&[u8], u32)] = &[
    (b"x y;", 0),
    (b"int;", 1),
    (b"int x", 2),
    (b"int x y;", 2),
    (b"int x = ;", 3),
    (b"int x, ;", 3),
    (b"int x[];", 3),
    (b"int x = 1 = 2;", 4),
];

/// Statements with their levels, and the token that opens the last of these.
const LEVELS: &[(&[u8], u32, u32)] = &[
    (b"begin end", 1, 0),
    (b"begin int x; ; ; end", 1, 0),
    (b"begin begin end end", 2, 1),
    (b"begin int x = (1); end", 2, 4),
    (b"if (a) ;", 1, 0),
    (b"if (a) if (b) ;", 2, 4),
    (b"if ((a)) ;", 2, 2),
    (b"if (a) ; else if (b) ; else if (c) ; else ;", 1, 0),
    (b"if (a) ; else begin end", 2, 6),
    (b"if (a) ; else if ((b)) ;", 2, 8),
    (b"case (a) 1: ; endcase", 1, 0),
    (b"case (a[0]) 1: ; endcase", 2, 3),
    (b"while (a) ;", 1, 0),
    (b"repeat (a) ;", 1, 0),
    (b"forever ;", 1, 0),
    (b"for (int i = 0; i; i++) ;", 1, 0),
    (b"for (int i = (0); i; i++) ;", 2, 5),
    (b"void'(f(a));", 1, 0),
    (b"void'(f((a)));", 2, 5),
    (b"f();", 1, 1),
    (b"f(g());", 2, 3),
    (b"a[0] = 1;", 1, 1),
    (b"a = '{1, 2};", 1, 2),
    (b"a = '{1, '{2}};", 2, 5),
    (b"$display(\"a\", (b));", 1, 4),
];

/// Statements that open no level.
const FLAT: &[&[u8]] = &[
    b";",
    b"a;",
    b"a++;",
    b"a = b + -c;",
    b"$display(\"a\", b);",
    b"$finish(1);",
    b"disable a;",
    b"return a * b;",
    b"break;",
];

/// A statement, on the heap.
fn boxed_statement(
    alloc: Global,
    tokens: &mut Cursor<'_>,
    depth: u32,
) -> Result<Boxed<Stmt>, Stop> {
    let read = statement(alloc, tokens, depth)?;
    Ok(Boxed::new(alloc, read)?)
}

/// Where a statement ends, at that many levels.
fn end_of(alloc: Global, tokens: &Tokens, depth: u32) -> Result<u32, Stop> {
    let mut cursor = Cursor::new(tokens);
    boxed_statement(alloc, &mut cursor, depth)?;
    Ok(cursor.place())
}

/// Where a declaration ends.
fn end_of_declaration(alloc: Global, tokens: &Tokens) -> Result<u32, Stop> {
    let mut cursor = Cursor::new(tokens);
    variables(alloc, &mut cursor, 24)?;
    Ok(cursor.place())
}

/// The text up to that place, and then a token that stands in no statement.
fn cut(alloc: Global, text: &[u8], end: u32) -> Result<Vec<u8>, Fail> {
    let mut cut = Vec::new(alloc);
    for byte in text {
        if cut.len() < end as usize {
            cut.push(*byte)?;
        }
    }
    cut.push(b'@')?;
    Ok(cut)
}

#[test]
fn statements_are_read_to_their_end(rt: HostRuntime) -> Result<(), Fail> {
    for &(text, _) in STATEMENTS {
        assert!(rt; text.len() <= 1_048_576);
        let tokens = sv_tokens(rt.alloc(), text)?;
        assert!(rt;
            end_of(rt.alloc(), &tokens, 24) == Ok(tokens.len()),
            "{text:?}"
        );
    }
    Ok(())
}

#[test]
fn statements_are_refused_at_each_wrong_token(rt: HostRuntime) -> Result<(), Fail> {
    for &(text, ends) in STATEMENTS {
        assert!(rt; text.len() <= 1_048_576);
        let tokens = sv_tokens(rt.alloc(), text)?;
        for number in 0..tokens.len() {
            let wrong = cut(rt.alloc(), text, tokens.place(number))?;
            assert!(rt; wrong.len() <= 1_048_576);
            let wrong_tokens = sv_tokens(rt.alloc(), &wrong)?;
            let want = if ends.contains(&number) {
                Ok(number)
            } else {
                Err(Stop::Syntax(number))
            };
            assert!(rt;
                end_of(rt.alloc(), &wrong_tokens, 24) == want,
                "{text:?} {number}"
            );
        }
    }
    Ok(())
}

#[test]
fn texts_that_begin_no_statement_are_refused(rt: HostRuntime) -> Result<(), Fail> {
    for &(text, at) in REFUSED {
        assert!(rt; text.len() <= 1_048_576);
        let tokens = sv_tokens(rt.alloc(), text)?;
        assert!(rt;
            end_of(rt.alloc(), &tokens, 24) == Err(Stop::Syntax(at)),
            "{text:?}"
        );
    }
    Ok(())
}

#[test]
fn declarations_are_read_and_refused(rt: HostRuntime) -> Result<(), Fail> {
    for &text in DECLARATIONS {
        assert!(rt; text.len() <= 1_048_576);
        let tokens = sv_tokens(rt.alloc(), text)?;
        assert!(rt;
            end_of_declaration(rt.alloc(), &tokens) == Ok(tokens.len()),
            "{text:?}"
        );
        for number in 0..tokens.len() {
            let wrong = cut(rt.alloc(), text, tokens.place(number))?;
            assert!(rt; wrong.len() <= 1_048_576);
            let wrong_tokens = sv_tokens(rt.alloc(), &wrong)?;
            let want = Err(Stop::Syntax(number));
            assert!(rt;
                end_of_declaration(rt.alloc(), &wrong_tokens) == want,
                "{text:?} {number}"
            );
        }
    }
    for &(text, at) in UNDECLARED {
        assert!(rt; text.len() <= 1_048_576);
        let tokens = sv_tokens(rt.alloc(), text)?;
        let want = Err(Stop::Syntax(at));
        assert!(rt; end_of_declaration(rt.alloc(), &tokens) == want, "{text:?}");
    }
    Ok(())
}

#[test]
fn declarations_end_before_what_is_no_type(rt: HostRuntime) -> Result<(), Fail> {
    let tokens = sv_tokens(rt.alloc(), b"int x; bit y, z; x = 1;")?;
    let mut cursor = Cursor::new(&tokens);
    let count = match declarations(rt.alloc(), &mut cursor, 24) {
        Ok(found) => found.len(),
        Err(_stop) => 0,
    };
    assert!(rt; count == 2);
    assert!(rt; cursor.place() == 8);
    Ok(())
}

#[test]
fn levels_are_counted_from_their_tokens(rt: HostRuntime) -> Result<(), Fail> {
    for &(text, levels, at) in LEVELS {
        assert!(rt; text.len() <= 1_048_576 && levels > 0);
        let tokens = sv_tokens(rt.alloc(), text)?;
        assert!(rt;
            end_of(rt.alloc(), &tokens, levels) == Ok(tokens.len()),
            "{text:?}"
        );
        let want = Err(Stop::TooDeep(at));
        assert!(rt; end_of(rt.alloc(), &tokens, levels - 1) == want, "{text:?}");
    }
    for &text in FLAT {
        assert!(rt; text.len() <= 1_048_576);
        let tokens = sv_tokens(rt.alloc(), text)?;
        assert!(rt;
            end_of(rt.alloc(), &tokens, 0) == Ok(tokens.len()),
            "{text:?}"
        );
    }
    Ok(())
}

/// `begin` that many times, then `;`, and then as many times `end`.
fn blocks(alloc: Global, count: u32) -> Result<Vec<u8>, Fail> {
    let mut text = Vec::new(alloc);
    for _ in 0..count {
        text.extend_from_slice(b"begin ")?;
    }
    text.push(b';')?;
    for _ in 0..count {
        text.extend_from_slice(b" end")?;
    }
    Ok(text)
}

#[test]
fn twenty_five_levels_are_one_too_many(rt: HostRuntime) -> Result<(), Fail> {
    for (count, want) in [(24, Ok(49)), (25, Err(Stop::TooDeep(24)))] {
        let text = blocks(rt.alloc(), count)?;
        assert!(rt; text.len() <= 1_048_576);
        let tokens = sv_tokens(rt.alloc(), &text)?;
        assert!(rt; end_of(rt.alloc(), &tokens, 24) == want);
    }
    Ok(())
}

#[test]
fn else_if_parts_open_no_level(rt: HostRuntime) -> Result<(), Fail> {
    let mut text = Vec::new(rt.alloc());
    text.extend_from_slice(b"if (a) ;")?;
    for _ in 0..100 {
        text.extend_from_slice(b" else if (a) ;")?;
    }
    assert!(rt; text.len() <= 1_048_576);
    let tokens = sv_tokens(rt.alloc(), &text)?;
    assert!(rt; end_of(rt.alloc(), &tokens, 1) == Ok(605));
    Ok(())
}

/// Whether it is an `if` without an `else` around one with an `else`.
fn is_if_within_if(read: &Stmt) -> bool {
    match read {
        Stmt::If(outer) => match &outer.get().body {
            Stmt::If(inner) => outer.get().last.is_none() && inner.get().last.is_some(),
            _ => false,
        },
        _ => false,
    }
}

#[test]
fn an_else_belongs_to_the_nearest_if(rt: HostRuntime) -> Result<(), Fail> {
    let tokens = sv_tokens(rt.alloc(), b"if (a) if (b) ; else ;")?;
    let mut cursor = Cursor::new(&tokens);
    let inner_has_it = match boxed_statement(rt.alloc(), &mut cursor, 24) {
        Ok(read) => is_if_within_if(read.get()),
        Err(_stop) => false,
    };
    assert!(rt; inner_has_it);
    Ok(())
}
