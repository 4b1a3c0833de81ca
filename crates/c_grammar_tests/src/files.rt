//! Texts of C with what the grammar says of them, worked out by hand: a token of a fault is counted
//! from 0.

use c_parse::{ParseFault, parse};
use dpi_lex::{Tokens, c_tokens};
use std::alloc::Global;
use std::process::Abort;
use std::test::Fail;

/// Files of one external declaration. The first tokens of each, at least one and not all, are no
/// file, and no file goes on with a `:` behind them, nor behind none.
const SINGLES: &[&[u8]] = &[
    b"#define N 3",
    b"int x;",
    b"static int x;",
    b"extern int x;",
    b"const int const x;",
    b"const const unsigned long long int const const x, y;",
    b"int *x;",
    b"char *const *const const x, *y, z;",
    b"int a[3];",
    b"int a[N];",
    b"int a[SV_PACKED_DATA_NELEMS(64)], b[2];",
    b"int x = 1;",
    b"int x = 1, y = x, *z = &x;",
    b"int a[2] = { 1 };",
    b"int a[N] = { 1, 2 + 3, 4 };",
    b"char *s = \"text\";",
    b"int f();",
    b"int f(void);",
    b"int f(void, int);",
    b"int f(void *);",
    b"int f(void p);",
    b"int f(void const);",
    b"int f(const void);",
    b"int f(void[]);",
    b"int f(int, char);",
    b"int f(const svLogicVecVal *a, svBit b, int c[], char d[4], int e[N], int g[N(2)]);",
    b"static unsigned char *f(int8_t *const a) { }",
    b"extern void f() { ; }",
    b"void f() { { } }",
    b"void f() { int x; }",
    b"void f() { static const int x = 2, a[2] = { 1, 2 }; }",
    b"void f() { int x; ; x = 1; int y = x; }",
    b"void f() { x = y = 2; }",
    b"void f() { *p++; }",
    b"void f() { f(); g(1, 2); }",
    b"void f() { (void)x; }",
    b"void f() { -1; }",
    b"void f() { NULL; 1; 'a'; \"b\"; }",
    b"void f() { if (x) ; }",
    b"void f() { if (x) ; else ; }",
    b"void f() { if (x) ; else if (y) ; }",
    b"void f() { if (x) { } else if (y) x = 1; else if (z) return; else { } }",
    b"void f() { if (x) if (y) ; else ; else ; }",
    b"void f() { if (x) while (y) if (z) ; else ; else ; }",
    b"void f() { while (x) ; }",
    b"void f() { do ; while (x); }",
    b"void f() { do if (x) ; else ; while (y); }",
    b"void f() { do while (x) ; while (y); }",
    b"void f() { for (;;) ; }",
    b"void f() { for (x = 0; x < 3; x++) ; }",
    b"void f() { for (int i = 0, j = 1; i < j; ++i) { } }",
    b"void f() { for (static int i[2] = { 1, 2 };;) break; }",
    b"void f() { return; return 1; return (x); }",
    b"void f() { break; continue; }",
];

/// Files with the first token with which no file goes on.
const REFUSED: &[(&[u8], u32)] = &[
    (b";", 0),
    (b"x;", 0),
    (b"f();", 0),
    (b"{ }", 0),
    (b"#define N 1\nN x;", 1),
    (b"int x; }", 3),
    (b"int", 1),
    (b"long x;", 1),
    (b"short char x;", 1),
    (b"unsigned svBit x;", 1),
    (b"static extern int x;", 1),
    (b"int static x;", 1),
    (b"int int x;", 1),
    (b"* x;", 0),
    (b"int x y;", 2),
    (b"int x, ;", 3),
    (b"int x[];", 3),
    (b"int x[-1];", 3),
    (b"int x[2 + 1];", 4),
    (b"int x[N()];", 5),
    (b"int x[N(M)];", 5),
    (b"int x[2](3);", 5),
    (b"int x[2][3];", 5),
    (b"int x = ;", 3),
    (b"int x = {};", 4),
    (b"int x = { 1, };", 6),
    (b"int x = { { 1 } };", 4),
    (b"int x = 1 = { 2 };", 5),
    (b"int a, f();", 4),
    (b"int f(), a;", 4),
    (b"int f() = 1;", 4),
    (b"int f[2]();", 5),
    (b"int f(a);", 3),
    (b"int f(int a,);", 6),
    (b"int f(int a b);", 5),
    (b"int f(static int a);", 3),
    (b"int f(int a = 1);", 5),
    (b"int f(void,);", 5),
    (b"int f(void) void;", 5),
    (b"int f() x", 4),
    (b"int f() { else ; }", 5),
    (b"int f() { if (x) y; else z; else ; }", 14),
    (b"int f() { if x; }", 6),
    (b"int f() { if () ; }", 7),
    (b"int f() { if (x) int y; }", 9),
    (b"int f() { if (x) ; else else ; }", 11),
    (b"int f() { if (x) }", 9),
    (b"int f() { while () ; }", 7),
    (b"int f() { do ; (x); }", 7),
    (b"int f() { do ; while (x) }", 11),
    (b"int f() { for (;) ; }", 8),
    (b"int f() { for (;;;) ; }", 9),
    (b"int f() { for (;;) int x; }", 10),
    (b"int f() { return static; }", 6),
    (b"int f() { (int); }", 8),
    (b"int f() { int x }", 7),
    (b"int f() { x }", 6),
    (b"int f() { int f(); }", 7),
];

/// A text with a repeated part: what stands before, how often the part opens, how it opens, what it
/// stands around, how it closes as often, and what stands behind.
type Repeated = (
    &'static [u8],
    u32,
    &'static [u8],
    &'static [u8],
    &'static [u8],
    &'static [u8],
);

/// Files of 24 levels, and files with many parts that open none.
const SHALLOW: &[Repeated] = &[
    (b"void f() {", 23, b"{", b"", b"}", b"}"),
    (b"void f() {", 23, b"if (x) ", b";", b"", b"}"),
    (
        b"void f() {",
        11,
        b"if (x) ; else {",
        b"do ; while (x);",
        b"}",
        b"}",
    ),
    (b"void f() {", 23, b"if (x) ; else if (y) ", b";", b"", b"}"),
    (b"void f() {", 23, b"while (x) ", b";", b"", b"}"),
    (b"void f() {", 23, b"do ", b";", b"while (x);", b"}"),
    (b"void f() {", 23, b"for (;;) ", b";", b"", b"}"),
    (b"void f() {", 23, b"for (int i; x; i++) ", b";", b"", b"}"),
    (b"void f() {", 21, b"while (x) ", b"if ((y)) ;", b"", b"}"),
    (b"void f() { x = ", 23, b"(", b"(int)1", b")", b"; }"),
    (b"void f() { return ", 23, b"(", b"1", b")", b"; }"),
    (b"int x = ", 24, b"(", b"1", b")", b";"),
    (b"int x[2] = { ", 24, b"(", b"1", b")", b" };"),
    (
        b"void f() { if (x) ; ",
        200,
        b"else if (y) ; ",
        b"else ; }",
        b"",
        b"",
    ),
    (b"void f() { x = ", 200, b"y = (int)", b"1; }", b"", b""),
    (
        b"void f() {",
        200,
        b"{ } if (x) ; while (x) ; ",
        b"}",
        b"",
        b"",
    ),
    (
        b"",
        200,
        b"void f(int a[N(2)], int b) { } int x = (1);\n",
        b"",
        b"",
        b"",
    ),
    (b"int x = 1", 200, b", y[2] = { 1, (2) }", b";", b"", b""),
];

/// Texts with the token that opens level 25: whatever stands behind it.
const DEEP: &[(Repeated, u32)] = &[
    ((b"void f() {", 24, b"{", b"", b"}", b"}"), 28),
    ((b"void f() {", 24, b"{", b":", b"", b""), 28),
    ((b"void f() {", 24, b"if (x) ", b"", b"", b""), 97),
    ((b"void f() {", 24, b"while (x) ", b"", b"", b""), 97),
    ((b"void f() {", 24, b"for (;;) ", b"", b"", b""), 120),
    ((b"void f() {", 24, b"do ", b"", b"", b""), 28),
    ((b"void f() {", 23, b"{", b"; ; { }", b"", b""), 30),
    (
        (b"void f() {", 23, b"{", b"; do ; while (x);", b"", b""),
        29,
    ),
    ((b"void f() {", 12, b"if (x) ; else {", b"", b"", b""), 88),
    (
        (
            b"void f() {",
            8,
            b"while ((x)) { if (x) ; else ",
            b"",
            b"",
            b"",
        ),
        103,
    ),
    ((b"void f() { x = ", 24, b"(", b"1", b"", b""), 30),
    ((b"int x = ", 25, b"(", b"1", b"", b""), 27),
    ((b"void f() {", 23, b"{", b"x = f(1); }", b"", b""), 31),
    ((b"void f() {", 23, b"{", b"x = y ? 1 : 2; }", b"", b""), 31),
];

/// Texts refused at a token where a level too many is no matter.
const DEEP_REFUSED: [(Repeated, u32); 3] = [
    ((b"void f() { x = ", 24, b"(", b")", b"", b""), 31),
    ((b"void f() {", 23, b"{", b"else", b"", b""), 28),
    ((b"void f() {", 23, b"{", b"", b"}", b"};"), 52),
];

fn tokens_of(rt: &impl Abort, alloc: Global, text: &[u8]) -> Result<Tokens, Fail> {
    assert!(rt; text.len() <= 1_048_576);
    Ok(c_tokens(alloc, text)?)
}

/// The text up to the token of that number, and what stands behind.
fn cut(
    rt: &impl Abort,
    alloc: Global,
    text: &[u8],
    number: u32,
    behind: &[u8],
) -> Result<Vec<u8>, Fail> {
    let tokens = tokens_of(rt, alloc, text)?;
    assert!(rt; number <= tokens.len());
    let end = tokens.place(number) as usize;
    assert!(rt; end <= text.len());
    let mut front = Vec::new(alloc);
    front.extend_from_slice(&text[..end])?;
    front.extend_from_slice(behind)?;
    Ok(front)
}

fn repeated(alloc: Global, text: Repeated) -> Result<Vec<u8>, Fail> {
    let (before, count, opening, middle, closing, behind) = text;
    let mut whole = Vec::new(alloc);
    whole.extend_from_slice(before)?;
    for _part in 0..count {
        whole.extend_from_slice(opening)?;
    }
    whole.extend_from_slice(middle)?;
    for _part in 0..count {
        whole.extend_from_slice(closing)?;
    }
    whole.extend_from_slice(behind)?;
    Ok(whole)
}

/// The fault of a text, if it has one.
fn fault_of(rt: &impl Abort, alloc: Global, text: &[u8]) -> Result<Option<ParseFault>, Fail> {
    Ok(parse(alloc, &tokens_of(rt, alloc, text)?).err())
}

#[test]
fn each_form_is_read(rt: HostRuntime) -> Result<(), Fail> {
    for &text in SINGLES {
        assert!(rt; fault_of(&rt, rt.alloc(), text)?.is_none(), "{text:?}");
    }
    Ok(())
}

#[test]
fn each_form_is_refused_at_each_of_its_tokens(rt: HostRuntime) -> Result<(), Fail> {
    let alloc = rt.alloc();
    for &text in SINGLES {
        for token in 1..tokens_of(&rt, alloc, text)?.len() {
            let want = Some(ParseFault::Syntax { token });
            let ended = cut(&rt, alloc, text, token, b"")?;
            assert!(rt; fault_of(&rt, alloc, &ended)? == want, "{text:?} {token}");
            let turned = cut(&rt, alloc, text, token, b":")?;
            assert!(rt; fault_of(&rt, alloc, &turned)? == want, "{text:?} {token}");
        }
    }
    Ok(())
}

#[test]
fn a_file_without_tokens_is_read(rt: HostRuntime) -> Result<(), Fail> {
    assert!(rt; fault_of(&rt, rt.alloc(), b"")?.is_none());
    let skipped = b" // int\n#include <x.h>\n";
    assert!(rt; fault_of(&rt, rt.alloc(), skipped)?.is_none());
    Ok(())
}

#[test]
fn the_first_token_with_which_no_file_goes_on_is_named(rt: HostRuntime) -> Result<(), Fail> {
    let alloc = rt.alloc();
    for &(text, token) in REFUSED {
        let want = Some(ParseFault::Syntax { token });
        assert!(rt; fault_of(&rt, alloc, text)? == want, "{text:?}");
    }
    for (text, token) in DEEP_REFUSED {
        let want = Some(ParseFault::Syntax { token });
        let whole = repeated(alloc, text)?;
        assert!(rt; fault_of(&rt, alloc, &whole)? == want, "{token}");
    }
    Ok(())
}

#[test]
fn a_file_has_24_levels_at_most(rt: HostRuntime) -> Result<(), Fail> {
    let alloc = rt.alloc();
    for &text in SHALLOW {
        let whole = repeated(alloc, text)?;
        assert!(rt; fault_of(&rt, alloc, &whole)?.is_none(), "{whole:?}");
    }
    for &(text, token) in DEEP {
        let want = Some(ParseFault::TooDeep { token });
        let whole = repeated(alloc, text)?;
        assert!(rt; fault_of(&rt, alloc, &whole)? == want, "{token}");
    }
    Ok(())
}
