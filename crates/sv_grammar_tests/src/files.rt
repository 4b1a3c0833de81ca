//! Texts with what the grammar says of them: tokens are counted by hand, from 0.

use dpi_lex::sv_tokens;
use std::alloc::Global;
use std::process::Abort;
use std::test::Fail;
use sv_parse::{ParseFault, files_are_unambiguous, parse};
use sv_tree::{ImportKind, Item, Outcome, Property, SvFile};

/// Items of a module, of which each needs all its tokens.
const ITEMS: &[&[u8]] = &[
    b"int x;",
    b"logic signed [7:0] a, b[2][1:0] = '{1, '{2, 3}};",
    b"chandle c = null;",
    b"import \"DPI-C\" function void f;",
    b"import \"DPI-C\" function int f();",
    b"import \"DPI-C\" pure function byte unsigned f;",
    b"import \"DPI-C\" context c_f = function bit [3:0] f(input int a, output bit b);",
    b"import \"DPI-C\" context task t(inout logic [] a[], b[2][], int c);",
    b"import \"DPI-C\" c_t = task t(input chandle unsigned_1);",
    b"import \"DPI-C\" function string f(string s, logic signed [-1:2] v, bit [] w [3:0]);",
    b"export \"DPI-C\" function f;",
    b"export \"DPI-C\" c_f = function f;",
    b"export \"DPI-C\" task t;",
    b"export \"DPI-C\" c_t = task t;",
    b"function void f; endfunction",
    b"function void f(); endfunction : f",
    b"function automatic int f(int a, b, output byte unsigned c[2], d); endfunction",
    b"function static logic [3:0] f; int x; bit y = 1; x = y; return x; endfunction : g",
    b"function integer f(a, input b, inout c[1:0][4]); if (a) ; endfunction",
    b"task t; endtask",
    b"task t(); endtask : t",
    b"task automatic t(input int a); int x = a; x++; begin end endtask",
    b"task static t(output a); if (a) ; else ; endtask : u",
    b"initial ;",
    b"initial begin : b int x; x = 1; end : b",
    b"initial if (a) b; else if (c) d; else e;",
    b"initial case (a) 1, 2: ; default: f(3); endcase",
    b"initial for (int i = 0; i < 4; i++) x[i] = i;",
    b"initial repeat (3) $display(\"%d\", a);",
    b"initial forever break;",
    b"initial while (1) $finish(0);",
    b"initial void'(f(1, 2));",
    b"initial x = a ? b : {c, {2{d}}};",
    b"m n();",
    b"m n(); m o();",
    b"int x; m n(); initial ; import \"DPI-C\" task t; int y;",
    b"initial if (a) ; int x;",
    b"function void f; endfunction int x;",
    b"task t; endtask task u; endtask",
    b"initial begin end initial begin end : b m n();",
    b"export \"a\" task t; export \"b\" function f;",
    b"string s = \"a\"; initial $write();",
];

/// Texts behind `module m;` that go on to no file, and the first token that doesn't fit, counted
/// from the first one of the text. `endmodule` stands behind each.
const REFUSED_ITEMS: &[(&[u8], u32)] = &[
    (b"begin end", 0),
    (b";", 0),
    (b"1;", 0),
    (b"'{1};", 0),
    (b"input a;", 0),
    (b"automatic int x;", 0),
    (b"void x;", 0),
    (b"endfunction", 0),
    (b"module n; endmodule", 0),
    (b"int;", 1),
    (b"int x y;", 2),
    (b"int x = ;", 3),
    (b"int x", 2),
    (b"x = 1;", 1),
    (b"x;", 1),
    (b"m n;", 2),
    (b"m n(a);", 3),
    (b"m n()", 4),
    (b"import task t;", 1),
    (b"import \"DPI-C\";", 2),
    (b"import \"DPI-C\" pure context function int f;", 3),
    (b"import \"DPI-C\" automatic function int f;", 2),
    (b"import \"DPI-C\" f;", 3),
    (b"import \"DPI-C\" f = ;", 4),
    (b"import \"DPI-C\" f = g = task t;", 4),
    (b"import \"DPI-C\" f = pure task t;", 4),
    (b"import \"DPI-C\" task void t;", 3),
    (b"import \"DPI-C\" task int t;", 3),
    (b"import \"DPI-C\" function f;", 3),
    (b"import \"DPI-C\" function void;", 4),
    (b"import \"DPI-C\" function automatic int f;", 3),
    (b"import \"DPI-C\" function logic [] f;", 5),
    (b"import \"DPI-C\" function void f : g;", 5),
    (b"import \"DPI-C\" function void f(;", 6),
    (b"import \"DPI-C\" function void f(int a,);", 9),
    (b"import \"DPI-C\" function void f(int);", 7),
    (b"import \"DPI-C\" function void f(a b);", 7),
    (b"import \"DPI-C\" function void f(input output a);", 7),
    (b"import \"DPI-C\" function void f(int [] a);", 7),
    (b"import \"DPI-C\" function void f(bit [2] a);", 9),
    (b"import \"DPI-C\" function void f(bit a[-1]);", 11),
    (b"import \"DPI-C\" function void f() int x;", 7),
    (b"export f;", 1),
    (b"export \"DPI-C\" f;", 3),
    (b"export \"DPI-C\" f = ;", 4),
    (b"export \"DPI-C\" function int f;", 3),
    (b"export \"DPI-C\" function;", 3),
    (b"export \"DPI-C\" pure function f;", 2),
    (b"export \"DPI-C\" task t();", 4),
    (b"function f; endfunction", 1),
    (b"function int; endfunction", 2),
    (b"function automatic static int f;", 2),
    (b"function int automatic f;", 2),
    (b"function void f() endfunction", 5),
    (b"function void f; endtask", 4),
    (b"function void f; x = 1; int y; endfunction", 8),
    (b"function void f; endfunction f", 6),
    (b"function void f; endfunction : 1", 6),
    (b"function void f(int a, b", 8),
    (b"function void f(bit [] a);", 6),
    (b"function void f(a[]);", 6),
    (b"function void f(a = 1);", 5),
    (b"task int t;", 1),
    (b"task void t;", 1),
    (b"task t endtask", 2),
    (b"task t; endfunction", 3),
    (b"task static automatic t;", 2),
    (b"initial", 1),
    (b"initial int x;", 1),
    (b"initial else ;", 1),
    (b"initial if (a) ; else", 7),
    (b"initial ; : a", 2),
    (b"initial begin end : a : b", 5),
];

/// Files, and the numbers of tokens behind which a shorter one ends.
const FILES: &[(&[u8], &[u32])] = &[
    (b"", &[0]),
    (b"module m; endmodule", &[0, 4]),
    (b"module m(); endmodule : m", &[0, 6, 8]),
    (b"module m; m n(); endmodule", &[0, 9]),
    (
        b"module m; endmodule module n(); int x; endmodule : o module p; endmodule",
        &[0, 4, 13, 15, 19],
    ),
    (
        b"// a comment\n`timescale 1ns/1ns\nmodule m;\n  initial $display(\"a\"); /* */\nendmodule",
        &[0, 10],
    ),
];

/// Texts that are no files, and the first token that doesn't fit.
const REFUSED_FILES: &[(&[u8], u32)] = &[
    (b"int x;", 0),
    (b"; module m; endmodule", 0),
    (b"endmodule", 0),
    (b"module", 1),
    (b"module module", 1),
    (b"module 1;", 1),
    (b"module m", 2),
    (b"module m endmodule", 2),
    (b"module m(;", 3),
    (b"module m(a); endmodule", 3),
    (b"module m;", 3),
    (b"module m; module n; endmodule endmodule", 3),
    (b"module m; endmodule;", 4),
    (b"module m; endmodule endmodule", 4),
    (b"module m; endmodule :", 5),
    (b"module m; endmodule : end", 5),
];

/// Statements that nest: what stands before, the part that is repeated before and after the
/// middle, and what stands behind; how many levels the middle has, and which token opens
/// level 25, counted from the first one of the statement.
const NESTED: &[(&[u8], &[u8], &[u8], &[u8], &[u8], u32, u32)] = &[
    (b"x = ", b"(", b"1", b")", b";", 0, 26),
    (b"x = ", b"f(", b"1", b")", b";", 0, 51),
    (b"", b"f(", b"1", b")", b";", 0, 49),
    (b"x = ", b"(", b"f()", b")", b";", 1, 27),
    (b"x = ", b"a[", b"1", b"]", b";", 0, 51),
    (b"", b"a[", b"1", b"]", b" = 1;", 0, 49),
    (b"x = ", b"(", b"a[1:0]", b")", b";", 1, 27),
    (b"x = ", b"(", b"a[b +: 2]", b")", b";", 1, 27),
    (b"x = ", b"{", b"1", b"}", b";", 0, 26),
    (b"x = ", b"{2{", b"1", b"}}", b";", 0, 74),
    (b"x = ", b"$signed(", b"1", b")", b";", 0, 50),
    (b"x = ", b"$unsigned(", b"1", b")", b";", 0, 50),
    (b"x = ", b"a ? ", b"1", b" : b", b";", 0, 51),
    (b"x = ", b"a ? b : ", b"1", b"", b";", 0, 99),
    (b"x = ", b"'{", b"1", b"}", b";", 0, 26),
    (
        b"",
        b"begin ",
        b"; $finish(1); $write(\"a\", b); return -c;",
        b" end",
        b"",
        0,
        24,
    ),
    (b"", b"begin ", b"void'(f());", b" end", b"", 1, 24),
    (b"", b"case (a) 1: ", b";", b" endcase", b"", 0, 144),
    (b"", b"if (a) ", b"b;", b"", b"", 0, 96),
    (b"", b"while (a) ", b"b;", b"", b"", 0, 96),
    (b"", b"forever ", b";", b"", b"", 0, 24),
    (b"", b"repeat (a) ", b";", b"", b"", 0, 96),
    (b"", b"for (int i = 0; i; i++) ", b";", b"", b"", 0, 288),
];

/// Where a parenthesised expression may stand, and the number of its first token.
const PLACES: &[(&[u8], u32, &[u8])] = &[
    (b"module m; int x = ", 6, b"; endmodule"),
    (b"module m; int x[2] = '{0, 1}, y = ", 17, b"; endmodule"),
    (b"module m; initial x = ", 6, b"; endmodule"),
    (
        b"module m; function int f(bit [1:0] a[2]); return ",
        20,
        b"; endfunction endmodule",
    ),
    (b"module n(); task t; int x = ", 11, b"; endtask endmodule"),
];

/// Lists, by what stands before, a part that may be repeated, and what stands behind.
const LISTS: &[(&[u8], &[u8], &[u8])] = &[
    (b"", b"module m; endmodule ", b""),
    (b"module m; ", b"int x; ", b"endmodule"),
    (b"module m; ", b"m n(); ", b"endmodule"),
    (
        b"module m; ",
        b"function void f; endfunction : f ",
        b"endmodule",
    ),
    (
        b"module m; task t(a",
        b", input int b",
        b"); endtask endmodule",
    ),
    (
        b"module m; import \"\" task t(a",
        b", bit [] b[]",
        b"); endmodule",
    ),
    (
        b"module m; function void f; ",
        b"int x; ",
        b"endfunction endmodule",
    ),
    (b"module m; task t; ", b"x = 1; ", b"endtask endmodule"),
    (
        b"module m; initial if (a) ;",
        b" else if (b) ;",
        b" endmodule",
    ),
];

/// How many modules a text has, or why it has no tree.
fn modules(rt: &impl Abort, alloc: Global, text: &[u8]) -> Result<Result<usize, ParseFault>, Fail> {
    assert!(rt; text.len() <= 1_048_576);
    let tokens = sv_tokens(alloc, text)?;
    match parse(alloc, &tokens) {
        Ok(file) => Ok(Ok(file.modules.len())),
        Err(fault) => Ok(Err(fault)),
    }
}

/// Bytes one behind another.
fn joined(alloc: Global, parts: &[&[u8]]) -> Result<Vec<u8>, Fail> {
    let mut text = Vec::new(alloc);
    for part in parts {
        text.extend_from_slice(part)?;
    }
    Ok(text)
}

/// Adds a part that many times.
fn add(text: &mut Vec<u8>, part: &[u8], count: u32) -> Result<(), Fail> {
    for _ in 0..count {
        text.extend_from_slice(part)?;
    }
    Ok(())
}

/// Adds the parts, of which the second and the fourth stand that many times.
fn nest(text: &mut Vec<u8>, parts: [&[u8]; 5], count: u32) -> Result<(), Fail> {
    let [front, before, middle, after, back] = parts;
    add(text, front, 1)?;
    add(text, before, count)?;
    add(text, middle, 1)?;
    add(text, after, count)?;
    add(text, back, 1)
}

#[test]
fn items_are_read(rt: HostRuntime) -> Result<(), Fail> {
    for &item in ITEMS {
        let text = joined(rt.alloc(), &[b"module m; ", item, b" endmodule"])?;
        assert!(rt; modules(&rt, rt.alloc(), &text)? == Ok(1), "{item:?}");
    }
    Ok(())
}

/// No file goes on with `@`, and none ends before its last token.
#[test]
fn items_are_refused_at_each_token(rt: HostRuntime) -> Result<(), Fail> {
    for &item in ITEMS {
        assert!(rt; item.len() <= 1_048_576);
        let tokens = sv_tokens(rt.alloc(), item)?;
        for number in 0..tokens.len() + 1 {
            let front = &item[..tokens.place(number) as usize];
            let want = Err(ParseFault::Syntax { token: 3 + number });
            let wrong = joined(rt.alloc(), &[b"module m; ", front, b" @ endmodule"])?;
            assert!(rt;
                modules(&rt, rt.alloc(), &wrong)? == want,
                "{item:?} {number}"
            );
            let ended = joined(rt.alloc(), &[b"module m; ", front])?;
            assert!(rt;
                modules(&rt, rt.alloc(), &ended)? == want,
                "{item:?} {number}"
            );
        }
    }
    Ok(())
}

#[test]
fn texts_that_are_no_items_are_refused(rt: HostRuntime) -> Result<(), Fail> {
    for &(item, at) in REFUSED_ITEMS {
        assert!(rt; at <= 1_000);
        let text = joined(rt.alloc(), &[b"module m; ", item, b" endmodule"])?;
        let want = Err(ParseFault::Syntax { token: 3 + at });
        assert!(rt; modules(&rt, rt.alloc(), &text)? == want, "{item:?}");
    }
    Ok(())
}

#[test]
fn files_are_read_and_refused_at_each_token(rt: HostRuntime) -> Result<(), Fail> {
    for &(file, ends) in FILES {
        assert!(rt; file.len() <= 1_048_576);
        let tokens = sv_tokens(rt.alloc(), file)?;
        assert!(rt; modules(&rt, rt.alloc(), file)?.is_ok(), "{file:?}");
        for number in 0..tokens.len() + 1 {
            let front = &file[..tokens.place(number) as usize];
            let want = Err(ParseFault::Syntax { token: number });
            let wrong = joined(rt.alloc(), &[front, b" @"])?;
            assert!(rt;
                modules(&rt, rt.alloc(), &wrong)? == want,
                "{file:?} {number}"
            );
            let answer = modules(&rt, rt.alloc(), front)?;
            if ends.contains(&number) {
                assert!(rt; answer.is_ok(), "{file:?} {number}");
            } else {
                assert!(rt; answer == want, "{file:?} {number}");
            }
        }
    }
    for &(text, at) in REFUSED_FILES {
        let want = Err(ParseFault::Syntax { token: at });
        assert!(rt; modules(&rt, rt.alloc(), text)? == want, "{text:?}");
    }
    Ok(())
}

#[test]
fn level_25_is_refused_where_it_opens(rt: HostRuntime) -> Result<(), Fail> {
    for &(front, before, middle, after, back, levels, at) in NESTED {
        assert!(rt; levels <= 24 && at <= 1_000);
        for (count, want) in [
            (24 - levels, Ok(1)),
            (25 - levels, Err(ParseFault::TooDeep { token: 4 + at })),
        ] {
            let mut text = Vec::new(rt.alloc());
            add(&mut text, b"module m; initial ", 1)?;
            nest(&mut text, [front, before, middle, after, back], count)?;
            add(&mut text, b" endmodule", 1)?;
            assert!(rt; modules(&rt, rt.alloc(), &text)? == want, "{text:?}");
        }
    }
    Ok(())
}

/// What stands in a body has as many levels as in an initial block, and an initialiser too.
#[test]
fn functions_and_declarations_open_no_level(rt: HostRuntime) -> Result<(), Fail> {
    for &(front, at, back) in PLACES {
        assert!(rt; at <= 1_000);
        for (count, want) in [
            (24, Ok(1)),
            (25, Err(ParseFault::TooDeep { token: at + 24 })),
        ] {
            let mut text = Vec::new(rt.alloc());
            nest(&mut text, [front, b"(", b"1", b")", back], count)?;
            assert!(rt; modules(&rt, rt.alloc(), &text)? == want, "{front:?}");
        }
    }
    Ok(())
}

#[test]
fn lists_open_no_level(rt: HostRuntime) -> Result<(), Fail> {
    for &(front, part, back) in LISTS {
        let mut text = Vec::new(rt.alloc());
        nest(&mut text, [front, part, b"", b"", back], 500)?;
        assert!(rt; modules(&rt, rt.alloc(), &text)?.is_ok(), "{front:?}");
    }
    Ok(())
}

/// Whether these are the only items of a file: the import of the test below, and an instance.
fn has_import_and_instance(file: &SvFile) -> bool {
    let Some(module) = file.modules.get(0) else {
        return false;
    };
    let (Some(Item::Import(import)), Some(Item::Instance(of, name))) = (
        module.items.get(0),
        module.items.get(1),
    ) else {
        return false;
    };
    let formals = match &import.formals {
        Some(formals) => formals.len(),
        None => 0,
    };
    let context = match &import.property {
        Some(property) => property.property == Property::Context && property.token == 5,
        None => false,
    };
    let named = match &import.c_name {
        Some(name) => name.token == 6,
        None => false,
    };
    let void = matches!(import.kind, ImportKind::Function(8, Outcome::Void(9)));
    context && named && void && formals == 2 && of.token == 18 && name.token == 19
}

#[test]
fn a_tree_has_its_parts_in_their_places(rt: HostRuntime) -> Result<(), Fail> {
    let text = joined(
        rt.alloc(),
        &[
            b"module m; import \"DPI-C\" context c_f = function void f(int a, b); ",
            b"m i(); endmodule : m",
        ],
    )?;
    assert!(rt; text.len() <= 1_048_576);
    let tokens = sv_tokens(rt.alloc(), &text)?;
    let file = parse(rt.alloc(), &tokens)?;
    assert!(rt; has_import_and_instance(&file));
    files_are_unambiguous();
    Ok(())
}
