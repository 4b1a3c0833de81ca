//! Words and files, and what the program answers to them, with values worked out by hand.

use crate::program::{Answer, dpirun};
use dpi_ports::{MemoryFiles, MemorySink, PlainLedger, Steps};
use std::alloc::Global;
use std::process::Abort;
use std::test::Fail;

const SV: &str = "module m;
import \"DPI-C\" function int add(input int a, input int b);
initial $display(\"%0d\", add(2,3));
endmodule
";

const C: &str = "int add(int a, int b) { return a + b; }\n";

/// A command line; the fetches and writes that fail, numbered from 1, and the most bytes that one
/// write takes.
#[derive(Clone, Copy)]
pub(crate) struct Setting {
    words: &'static [&'static str],
    fetches: &'static [u64],
    outs: &'static [u64],
    errs: &'static [u64],
    most: Option<usize>,
}

/// What came of it: status, standard output, standard error.
type Came = (u8, &'static str, &'static str);

pub(crate) const ADD: Setting = Setting {
    words: &["m.sv", "m.c"],
    fetches: &[],
    outs: &[],
    errs: &[],
    most: None,
};

pub(crate) fn texts(alloc: Global, words: &[&str]) -> Result<Vec<String>, Fail> {
    let mut texts = Vec::new(alloc);
    for word in words {
        texts.push(String::from_str(alloc, word)?)?;
    }
    Ok(texts)
}

fn sink(alloc: Global, fails: &[u64], most: Option<usize>) -> Result<MemorySink, Fail> {
    let fails = Vec::from_slice(alloc, fails)?;
    Ok(MemorySink::new(alloc, fails, if most == Some(0) { None } else { most }))
}

// what comes of a setting with these texts in `m.sv` and `m.c`, where they are there
fn check(
    rt: &impl Abort,
    alloc: Global,
    setting: Setting,
    sv: Option<&str>,
    c: Option<&str>,
    came: Came,
) -> Result<(), Fail> {
    let words = texts(alloc, setting.words)?;
    check_words(rt, alloc, &words, setting, sv, c, came)
}

// what comes of these words is status 1 and this line
pub(crate) fn check_line(
    rt: &impl Abort,
    alloc: Global,
    words: &'static [&'static str],
    sv: Option<&str>,
    c: Option<&str>,
    line: &'static str,
) -> Result<(), Fail> {
    check(rt, alloc, Setting { words, ..ADD }, sv, c, (1, "", line))
}

// the same with these words in place of the setting's
fn check_words(
    rt: &impl Abort,
    alloc: Global,
    words: &Vec<String>,
    setting: Setting,
    sv: Option<&str>,
    c: Option<&str>,
    came: Came,
) -> Result<(), Fail> {
    let mut files = MemoryFiles::new(alloc, Vec::from_slice(alloc, setting.fetches)?);
    if let Some(text) = sv {
        add_file(alloc, &mut files, "m.sv", text)?;
    }
    if let Some(text) = c {
        add_file(alloc, &mut files, "m.c", text)?;
    }
    let (answer, out, err) = answer_of(alloc, words, setting, files)?;
    let (status, printed, explained) = came;
    assert_eq!(rt; answer.status, status, "{:?} {sv:?} {c:?}", setting.words);
    assert_eq!(rt;
        out.bytes(),
        printed.as_bytes(),
        "{:?} {sv:?} {c:?}",
        setting.words
    );
    assert_eq!(rt;
        err.bytes(),
        explained.as_bytes(),
        "{:?} {sv:?} {c:?}",
        setting.words
    );
    Ok(())
}

fn add_file(alloc: Global, files: &mut MemoryFiles, name: &str, text: &str) -> Result<(), Fail> {
    files.add(
        String::from_str(alloc, name)?,
        Vec::from_slice(alloc, text.as_bytes())?,
    )?;
    Ok(())
}

// the answer to these words and files, and both sinks
pub(crate) fn answer_of(
    alloc: Global,
    words: &Vec<String>,
    setting: Setting,
    mut files: MemoryFiles,
) -> Result<(Answer, MemorySink, MemorySink), Fail> {
    let mut out = sink(alloc, setting.outs, setting.most)?;
    let mut err = sink(alloc, setting.errs, setting.most)?;
    let mut steps = Steps::new(PlainLedger::new());
    let answer = dpirun(alloc, words, &mut files, &mut out, &mut err, &mut steps);
    Ok((answer, out, err))
}

/// Words that are no command: there are none, or one of them doesn't end in `.sv` or `.c`, or begins
/// with `-`.
const BAD_WORDS: &[&[&str]] = &[
    &[],
    &[""],
    &["m"],
    &["m.svh"],
    &["m.sv", "m.C"],
    &["m.sv", "m.c", "m.h"],
    &["-m.sv", "m.c"],
    &["m.sv", "-m.c"],
    &["--", "m.sv", "m.c"],
    &["m.sv", "m.c", "-"],
];

#[test]
fn other_words_are_bad_words(rt: HostRuntime) -> Result<(), Fail> {
    for &words in BAD_WORDS {
        check(
            &rt,
            rt.alloc(),
            Setting { words, ..ADD },
            Some(SV),
            Some(C),
            (2, "", "dpirun: bad words\n"),
        )?;
    }
    Ok(())
}

// what comes of so many words `m.sv`
fn check_many(rt: &impl Abort, alloc: Global, count: usize, came: Came) -> Result<(), Fail> {
    let mut words = Vec::new(alloc);
    for _ in 0..count {
        words.push(String::from_str(alloc, "m.sv")?)?;
    }
    check_words(rt, alloc, &words, ADD, Some(""), None, came)
}

#[test]
fn a_command_has_at_most_a_thousand_files(rt: HostRuntime) -> Result<(), Fail> {
    check_many(&rt, rt.alloc(), 1000, (1, "", "m.sv:1:1: NotBuilt\n"))?;
    check_many(&rt, rt.alloc(), 1001, (2, "", "dpirun: bad words\n"))
}

/// Both actuals, both operands, and what is printed or where the sum traps. The actuals are the
/// 32-bit signed values of their digits, so 4294967295 is -1 and 2147483648 is -2147483648.
const SUMS: &[(&str, &str, &str, &str, Came)] = &[
    ("2", "3", "a", "b", (0, "5\n", "")),
    ("2", "3", "b", "a", (0, "5\n", "")),
    ("2", "3", "a", "a", (0, "4\n", "")),
    ("2", "3", "b", "b", (0, "6\n", "")),
    ("0", "4294967295", "a", "b", (0, "-1\n", "")),
    ("2147483648", "0", "a", "b", (0, "-2147483648\n", "")),
    (
        "2147483647",
        "4294967295",
        "a",
        "b",
        (0, "2147483646\n", ""),
    ),
    (
        "2147483647",
        "1",
        "a",
        "b",
        (3, "", "m.c:1:34: trap SignedOverflow\n"),
    ),
    (
        "2147483648",
        "4294967295",
        "a",
        "b",
        (3, "", "m.c:1:34: trap SignedOverflow\n"),
    ),
];

#[test]
fn a_sum_is_printed_or_traps_at_its_plus(rt: HostRuntime) -> Result<(), Fail> {
    for &(left, right, first, second, came) in SUMS {
        let call = format!(in rt.alloc();
            "module m; import \"DPI-C\" function int add(input int a, \
            input int b); initial $display(\"%0d\", add({left},{right})); endmodule"
        )?;
        let body = format!(in rt.alloc();
            "int add(int a, int b) {{ return {first} + {second}; }}"
        )?;
        check(
            &rt,
            rt.alloc(),
            ADD,
            Some(call.as_str()),
            Some(body.as_str()),
            came,
        )?;
    }
    Ok(())
}

/// SystemVerilog files that break no rule and aren't of the form: nothing, a module alone, a second
/// module, another actual, another format, and names that aren't free.
const OTHER_SV: &[&str] = &[
    "",
    "module m; endmodule",
    "module m; import \"DPI-C\" function int add(input int a, input int b); initial $display(\"%0d\", add(2,3)); endmodule module n; endmodule",
    "module m; import \"DPI-C\" function int add(input int a, input int b); initial $display(\"%0d\", add(2,-3)); endmodule",
    "module m; import \"DPI-C\" function int add(input int a, input int b); initial $display(\"%d\", add(2,3)); endmodule",
    "module svLeft; import \"DPI-C\" function int add(input int a, input int b); initial $display(\"%0d\", add(2,3)); endmodule",
    "module m; import \"DPI-C\" function int add(input int printf, input int b); initial $display(\"%0d\", add(2,3)); endmodule",
];

/// The same of C: another operator, a number for an operand, parentheses, a second function, a
/// local, and a name that isn't free.
const OTHER_C: &[&str] = &[
    "int add(int a, int b) { return a * b; }",
    "int add(int a, int b) { return a + 1; }",
    "int add(int a, int b) { return (a + b); }",
    "int add(int a, int b) { return a + b; } int one(void) { return 1; }",
    "int add(int a, int b) { int c = a; return b + c; }",
    "int add(int a, int module) { return a + module; }",
];

/// Files without a token, which aren't one of SystemVerilog and then one of C.
const OTHER_WORDS: &[(&[&str], &str)] = &[
    (&["m.sv"], "m.sv:1:1: NotBuilt\n"),
    (&["m.c"], "m.c:1:1: NotBuilt\n"),
    (&["m.c", "m.sv"], "m.c:1:1: NotBuilt\n"),
    (&["m.sv", "m.c", "m.c"], "m.sv:1:1: NotBuilt\n"),
    (&["m.sv", "m.sv"], "m.sv:1:1: NotBuilt\n"),
];

#[test]
fn files_of_another_form_are_not_built(rt: HostRuntime) -> Result<(), Fail> {
    for &sv in OTHER_SV {
        check(
            &rt,
            rt.alloc(),
            ADD,
            Some(sv),
            Some(C),
            (1, "", "m.sv:1:1: NotBuilt\n"),
        )?;
    }
    for &c in OTHER_C {
        check(
            &rt,
            rt.alloc(),
            ADD,
            Some(SV),
            Some(c),
            (1, "", "m.sv:1:1: NotBuilt\n"),
        )?;
    }
    for &(words, line) in OTHER_WORDS {
        check(
            &rt,
            rt.alloc(),
            Setting { words, ..ADD },
            Some(""),
            Some(""),
            (1, "", line),
        )?;
    }
    Ok(())
}

/// The files in the order of the words, and the line: `break` outside a loop is S20 and C15 at the
/// keyword, a closing label that isn't the opened name S7 at the label, and a `return` without a
/// value in a function that gives one C16 at the keyword. S rules come before C rules, and in a file
/// the first token counts.
const BROKEN: &[(&[(&str, &str)], &str)] = &[
    (
        &[
            ("m.sv", "module m;\ninitial begin\n  break;\nend\nendmodule"),
            ("m.c", ""),
        ],
        "m.sv:3:3: S20\n",
    ),
    (
        &[("m.sv", ""), ("m.c", "void f(void) {\n  break;\n}")],
        "m.c:2:3: C15\n",
    ),
    (
        &[
            ("m.sv", "module m; initial break; endmodule"),
            ("m.c", "void f(void) { break; }"),
        ],
        "m.sv:1:19: S20\n",
    ),
    (
        &[
            ("m.c", "void f(void) { break; }"),
            ("m.sv", "module m; initial break; endmodule"),
        ],
        "m.sv:1:19: S20\n",
    ),
    (
        &[
            ("m.c", "void f(void) { break; }"),
            ("m.sv", "module m; endmodule"),
        ],
        "m.c:1:16: C15\n",
    ),
    (
        &[
            ("a.sv", "module a; endmodule : a"),
            ("b.sv", "module b; endmodule : a"),
        ],
        "b.sv:1:23: S7\n",
    ),
    (
        &[
            ("a.c", "int f(void) { return 1; }"),
            ("a.sv", "module a; endmodule"),
            ("b.c", "int g(void) { return; }"),
        ],
        "b.c:1:15: C16\n",
    ),
    (
        &[
            ("a.sv", "module a; initial break; endmodule : b"),
            ("b.sv", "module b; endmodule : a"),
        ],
        "a.sv:1:19: S20\n",
    ),
    (
        &[
            (
                "m.sv",
                "module m; import \"DPI-C\" function int add(input int a, input int b); \
                initial $display(\"%0d\", add(2,3)); endmodule : add",
            ),
            ("m.c", C),
        ],
        "m.sv:1:117: S7\n",
    ),
];

#[test]
fn the_first_broken_rule_is_named_where_it_is_broken(rt: HostRuntime) -> Result<(), Fail> {
    for &(texts, line) in BROKEN {
        let mut words = Vec::new(rt.alloc());
        let mut files = MemoryFiles::new(rt.alloc(), Vec::new(rt.alloc()));
        for (name, text) in texts {
            words.push(String::from_str(rt.alloc(), name)?)?;
            add_file(rt.alloc(), &mut files, name, text)?;
        }
        let (answer, out, err) = answer_of(rt.alloc(), &words, ADD, files)?;
        assert_eq!(rt; answer.status, 1, "{texts:?}");
        assert_eq!(rt; out.bytes().len(), 0, "{texts:?}");
        assert_eq!(rt; err.bytes(), line.as_bytes(), "{texts:?}");
    }
    Ok(())
}

/// SystemVerilog files that are refused, by the rules of tokens (IEEE 1800-2017, clause 5) and by
/// the grammar: a byte that no token has, a number with a letter behind its `_` and one that is too
/// large, a string and a comment without an end; a delay, a keyword for a name, and the end of the
/// file, which stands behind the last byte.
const REFUSED_SV: &[(&str, &str)] = &[
    ("\n\n  $time", "m.sv:3:3: BadByte\n"),
    ("module m; endmodule \u{1}", "m.sv:1:21: BadByte\n"),
    (
        "module m; int a = 12_ab; endmodule",
        "m.sv:1:19: BadNumber\n",
    ),
    (
        "module m; int a = 4294967296; endmodule",
        "m.sv:1:19: BadNumber\n",
    ),
    (
        "module m; import \"DPI-C\nendmodule",
        "m.sv:1:18: Unclosed\n",
    ),
    ("module m;\n/* endmodule", "m.sv:2:1: Unclosed\n"),
    ("module m; initial #5; endmodule", "m.sv:1:19: Syntax\n"),
    ("module int; endmodule", "m.sv:1:8: Syntax\n"),
    ("module m;\n", "m.sv:2:1: Syntax\n"),
    ("module m;", "m.sv:1:10: Syntax\n"),
    ("module m; endmodule endmodule", "m.sv:1:21: Syntax\n"),
    (
        "module m; initial if (a) ; else if (b) ; else ; else ; endmodule",
        "m.sv:1:49: Syntax\n",
    ),
    ("module // a\r\n\tm ( ; endmodule", "m.sv:2:6: Syntax\n"),
];

/// The same of C (ISO C, 6.4): a `$`, another escape, a define of a keyword, a number with an 8
/// behind a 0, a comment without an end; a parenthesis that isn't closed, a keyword for a name,
/// `long` alone, and the end of the file.
const REFUSED_C: &[(&str, &str)] = &[
    ("int $x;", "m.c:1:5: BadByte\n"),
    ("char c = '\\q';", "m.c:1:11: BadByte\n"),
    ("int x;\n#define int 1\n", "m.c:2:1: BadByte\n"),
    ("int x = 08;", "m.c:1:9: BadNumber\n"),
    ("int x; /* y", "m.c:1:8: Unclosed\n"),
    ("int f(void) { return (1; }", "m.c:1:24: Syntax\n"),
    (
        "int add(int while, int b) { return b + b; }",
        "m.c:1:13: Syntax\n",
    ),
    (
        "long add(int a, int b) { return a + b; }",
        "m.c:1:6: Syntax\n",
    ),
    (
        "int add(int a, int b) { return a + b; } int",
        "m.c:1:44: Syntax\n",
    ),
    ("int f(void) {\r\n", "m.c:2:1: Syntax\n"),
    ("int x = ( char ) ;", "m.c:1:18: Syntax\n"),
];

#[test]
fn a_file_is_refused_at_its_first_fault(rt: HostRuntime) -> Result<(), Fail> {
    for &(sv, line) in REFUSED_SV {
        check(&rt, rt.alloc(), ADD, Some(sv), None, (1, "", line))?;
    }
    for &(c, line) in REFUSED_C {
        check(&rt, rt.alloc(), ADD, Some(SV), Some(c), (1, "", line))?;
    }
    Ok(())
}

// a text with so many parentheses around a number
fn nested(alloc: Global, before: &str, depth: usize, after: &str) -> Result<String, Fail> {
    let mut text = String::from_str(alloc, before)?;
    for _ in 0..depth {
        text.push_str("(")?;
    }
    text.push_str("1")?;
    for _ in 0..depth {
        text.push_str(")")?;
    }
    text.push_str(after)?;
    Ok(text)
}

/// How many parentheses, and what comes of them behind the column 18 of the SystemVerilog file and
/// 8 of the C file: the one that opens level 25 is refused.
const NESTED: [(usize, &str, &str); 3] = [
    (24, "m.sv:1:1: NotBuilt\n", "m.sv:1:1: NotBuilt\n"),
    (25, "m.sv:1:43: TooDeep\n", "m.c:1:33: TooDeep\n"),
    (26, "m.sv:1:43: TooDeep\n", "m.c:1:33: TooDeep\n"),
];

#[test]
fn level_25_is_too_deep(rt: HostRuntime) -> Result<(), Fail> {
    for (depth, of_sv, of_c) in NESTED {
        let sv = nested(rt.alloc(), "module m; int a = ", depth, "; endmodule")?;
        check(
            &rt,
            rt.alloc(),
            ADD,
            Some(sv.as_str()),
            Some(C),
            (1, "", of_sv),
        )?;
        let c = nested(rt.alloc(), "int x = ", depth, ";")?;
        check(
            &rt,
            rt.alloc(),
            ADD,
            Some(""),
            Some(c.as_str()),
            (1, "", of_c),
        )?;
    }
    Ok(())
}

/// The words, the texts that are there, the fetches that fail, and the answer: the first file that
/// can't be read is named, and a file that is refused hides the ones after it.
const FAULTS: &[(&[&str], Option<&str>, Option<&str>, &[u64], Came)] = &[
    (
        &["m.sv", "m.c"],
        None,
        None,
        &[],
        (7, "", "dpirun: cannot read m.sv\n"),
    ),
    (
        &["m.sv", "m.c"],
        None,
        Some(C),
        &[],
        (7, "", "dpirun: cannot read m.sv\n"),
    ),
    (
        &["m.sv", "m.c"],
        Some(SV),
        None,
        &[],
        (7, "", "dpirun: cannot read m.c\n"),
    ),
    (
        &["m.sv", "m.c"],
        Some("module"),
        None,
        &[],
        (1, "", "m.sv:1:7: Syntax\n"),
    ),
    (
        &["m.c", "n.sv", "m.sv"],
        Some("module"),
        Some(C),
        &[],
        (7, "", "dpirun: cannot read n.sv\n"),
    ),
    (
        &["m.sv", "m.c"],
        Some(SV),
        Some(C),
        &[1],
        (7, "", "dpirun: cannot read m.sv\n"),
    ),
    (
        &["m.sv", "m.c"],
        Some(SV),
        Some(C),
        &[2],
        (7, "", "dpirun: cannot read m.c\n"),
    ),
    (
        &["m.sv", "m.c", "m.sv"],
        Some(SV),
        Some(C),
        &[3],
        (7, "", "dpirun: cannot read m.sv\n"),
    ),
    (
        &["m.sv", "m.c", "m.sv"],
        Some(SV),
        Some("int"),
        &[3],
        (1, "", "m.c:1:4: Syntax\n"),
    ),
];

#[test]
fn a_file_that_is_not_read_is_named(rt: HostRuntime) -> Result<(), Fail> {
    for &(words, sv, c, fetches, came) in FAULTS {
        let setting = Setting {
            words,
            fetches,
            ..ADD
        };
        check(&rt, rt.alloc(), setting, sv, c, came)?;
    }
    Ok(())
}

/// The words, the writes to both sinks that fail, the most bytes of one write (0: no limit), and
/// what came: nothing that was taken is lost, and the last line is tried once.
const WRITES: &[(&[&str], &[u64], &[u64], usize, Came)] = &[
    (&["m.sv", "m.c"], &[], &[], 1, (0, "5\n", "")),
    (
        &["m.sv", "m.c"],
        &[1],
        &[],
        0,
        (8, "", "dpirun: cannot write\n"),
    ),
    (
        &["m.sv", "m.c"],
        &[2],
        &[],
        1,
        (8, "5", "dpirun: cannot write\n"),
    ),
    (&["m.sv", "m.c"], &[1], &[1], 0, (8, "", "")),
    (&["m.sv", "m.c"], &[1], &[8], 1, (8, "", "dpirun:")),
    (&["m"], &[], &[], 1, (2, "", "dpirun: bad words\n")),
    (&["m"], &[], &[1], 0, (8, "", "dpirun: cannot write\n")),
    (&["m"], &[], &[4], 1, (8, "", "dpidpirun: cannot write\n")),
];

#[test]
fn a_sink_that_fails_keeps_what_it_took(rt: HostRuntime) -> Result<(), Fail> {
    for &(words, outs, errs, most, came) in WRITES {
        let most = if most == 0 { None } else { Some(most) };
        check(
            &rt,
            rt.alloc(),
            Setting {
                words,
                outs,
                errs,
                most,
                ..ADD
            },
            Some(SV),
            Some(C),
            came,
        )?;
    }
    Ok(())
}

// the SystemVerilog file with blanks behind it, up to so many bytes
fn padded(alloc: Global, bytes: usize) -> Result<String, Fail> {
    let mut text = String::from_str(alloc, SV)?;
    for _ in SV.len()..bytes {
        text.push_str(" ")?;
    }
    Ok(text)
}

#[test]
fn a_file_of_a_mebibyte_is_read(rt: HostRuntime) -> Result<(), Fail> {
    let full = padded(rt.alloc(), 1_048_576)?;
    check(
        &rt,
        rt.alloc(),
        ADD,
        Some(full.as_str()),
        Some(C),
        (0, "5\n", ""),
    )
}

#[test]
fn a_longer_file_is_too_long(rt: HostRuntime) -> Result<(), Fail> {
    let long = padded(rt.alloc(), 1_048_577)?;
    let text = long.as_str();
    check(
        &rt,
        rt.alloc(),
        ADD,
        Some(text),
        None,
        (1, "", "m.sv:1:1: TooLong\n"),
    )?;
    check(
        &rt,
        rt.alloc(),
        ADD,
        Some(SV),
        Some(text),
        (1, "", "m.c:1:1: TooLong\n"),
    )
}
