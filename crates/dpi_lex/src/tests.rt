//! Texts with the tokens or the fault that the rules of each language give them.

use crate::{Kind, LexFault, Tokens, c_tokens, line_column_of, sv_tokens};
use std::process::Abort;
use std::test::Fail;

/// Texts of SystemVerilog with their tokens, kind, start and end, counted by hand.
const SV_ACCEPTED: &[(&[u8], &[(Kind, u32, u32)])] = &[
    (b"", &[]),
    (b" \t\r\n", &[]),
    (b"m_1 a$b", &[(Kind::Word, 0, 3), (Kind::Word, 4, 7)]),
    (b"$displayx", &[(Kind::Word, 0, 8), (Kind::Word, 8, 9)]),
    (b"$write$finish", &[(Kind::Word, 0, 6), (Kind::Word, 6, 13)]),
    (b"4294967295", &[(Kind::Number, 0, 10)]),
    (b"1__0", &[(Kind::Number, 0, 4)]),
    (b"12ab", &[(Kind::Number, 0, 2), (Kind::Word, 2, 4)]),
    (b"8'h_f", &[(Kind::Number, 0, 5)]),
    (b"8'hf_", &[(Kind::Number, 0, 5)]),
    (b"8'dx_", &[(Kind::Number, 0, 5)]),
    (b"1_6'h0", &[(Kind::Number, 0, 6)]),
    (b"08'h0", &[(Kind::Number, 0, 5)]),
    (b"1024'sBzZ?", &[(Kind::Number, 0, 10)]),
    (
        b"8'Sd5",
        &[(Kind::Number, 0, 1), (Kind::Sign, 1, 2), (Kind::Word, 2, 5)],
    ),
    (b"'X", &[(Kind::Sign, 0, 1), (Kind::Word, 1, 2)]),
    (b"'hx", &[(Kind::Number, 0, 3)]),
    (b"'so7", &[(Kind::Number, 0, 4)]),
    (
        b"'0'1'x'z",
        &[
            (Kind::Number, 0, 2),
            (Kind::Number, 2, 4),
            (Kind::Number, 4, 6),
            (Kind::Number, 6, 8),
        ],
    ),
    (b"'01", &[(Kind::Number, 0, 2), (Kind::Number, 2, 3)]),
    (b"4'b1?0", &[(Kind::Number, 0, 6)]),
    (
        b"8'd1?2",
        &[
            (Kind::Number, 0, 4),
            (Kind::Sign, 4, 5),
            (Kind::Number, 5, 6),
        ],
    ),
    (b"8'd?", &[(Kind::Number, 0, 4)]),
    (b"64'd18446744073709551615", &[(Kind::Number, 0, 24)]),
    (b"<<<=", &[(Kind::Sign, 0, 3), (Kind::Sign, 3, 4)]),
    (
        b"'{'(",
        &[(Kind::Sign, 0, 2), (Kind::Sign, 2, 3), (Kind::Sign, 3, 4)],
    ),
    (
        b"!==^~&",
        &[(Kind::Sign, 0, 3), (Kind::Sign, 3, 5), (Kind::Sign, 5, 6)],
    ),
    (
        b"+:-:++#@",
        &[
            (Kind::Sign, 0, 2),
            (Kind::Sign, 2, 4),
            (Kind::Sign, 4, 6),
            (Kind::Sign, 6, 7),
            (Kind::Sign, 7, 8),
        ],
    ),
    (
        b"/=/ /",
        &[(Kind::Sign, 0, 2), (Kind::Sign, 2, 3), (Kind::Sign, 4, 5)],
    ),
    (b"a/**/b", &[(Kind::Word, 0, 1), (Kind::Word, 5, 6)]),
    (b"/*/*/a", &[(Kind::Word, 5, 6)]),
    (b"/*\n*/ // b\na", &[(Kind::Word, 11, 12)]),
    (b"//", &[]),
    (b"//\xff\0\n;", &[(Kind::Sign, 5, 6)]),
    (b"`timescalefoo /*\na", &[(Kind::Word, 17, 18)]),
    (b"a\n`timescale", &[(Kind::Word, 0, 1)]),
    (b"\"\"\"a+\"", &[(Kind::Text, 0, 2), (Kind::Text, 2, 6)]),
    (b"\"\\n\\t\\\\\\\"\"", &[(Kind::Text, 0, 10)]),
    (b"\"\xff\0\"", &[(Kind::Text, 0, 4)]),
    (b"\"//\"", &[(Kind::Text, 0, 4)]),
];

/// Texts of SystemVerilog with the fault at which reading stops.
const SV_REFUSED: &[(&[u8], LexFault)] = &[
    (b"$x", LexFault::BadByte { place: 0 }),
    (b"a $", LexFault::BadByte { place: 2 }),
    (b"\xff", LexFault::BadByte { place: 0 }),
    (b"a\\", LexFault::BadByte { place: 1 }),
    (b" `timescale", LexFault::BadByte { place: 1 }),
    (b"`timescal", LexFault::BadByte { place: 0 }),
    (b" 4294967296", LexFault::BadNumber { place: 1 }),
    (b"1_", LexFault::BadNumber { place: 0 }),
    (b"12_ab", LexFault::BadNumber { place: 0 }),
    (b"8'h_", LexFault::BadNumber { place: 0 }),
    (b"8'h", LexFault::BadNumber { place: 0 }),
    (b"; 'bit", LexFault::BadNumber { place: 2 }),
    (b"8'd1x", LexFault::BadNumber { place: 0 }),
    (b"8'dxx", LexFault::BadNumber { place: 0 }),
    (b"8'd_?", LexFault::BadNumber { place: 0 }),
    (b"0'h0", LexFault::BadNumber { place: 0 }),
    (b"1025'h0", LexFault::BadNumber { place: 0 }),
    (b"99999999999'b1", LexFault::BadNumber { place: 0 }),
    (b"1_'h0", LexFault::BadNumber { place: 0 }),
    (b"2'b2", LexFault::BadNumber { place: 0 }),
    (b"8'hg", LexFault::BadNumber { place: 0 }),
    (
        b"64'd18446744073709551616",
        LexFault::BadNumber { place: 0 },
    ),
    (b"\"ab\\q\"", LexFault::BadByte { place: 3 }),
    (b"\"a\\\n\"", LexFault::BadByte { place: 2 }),
    (b"\"a\\", LexFault::BadByte { place: 2 }),
    (b"f \"ab", LexFault::Unclosed { place: 2 }),
    (b"\"a\n\\q\"", LexFault::Unclosed { place: 0 }),
    (b"\"\\\"", LexFault::Unclosed { place: 0 }),
    (b"x/*a*", LexFault::Unclosed { place: 1 }),
    (b"/*/", LexFault::Unclosed { place: 0 }),
];

/// Texts of C with their tokens.
const C_ACCEPTED: &[(&[u8], &[(Kind, u32, u32)])] = &[
    (b"", &[]),
    (b" \t\r\n", &[]),
    (b"m_1 x", &[(Kind::Word, 0, 3), (Kind::Word, 4, 5)]),
    (b"0", &[(Kind::Number, 0, 1)]),
    (b"0x1Full", &[(Kind::Number, 0, 7)]),
    (b"017u", &[(Kind::Number, 0, 4)]),
    (b"12LLU", &[(Kind::Number, 0, 5)]),
    (b"9223372036854775807", &[(Kind::Number, 0, 19)]),
    (b"9223372036854775808ll", &[(Kind::Number, 0, 21)]),
    (b"18446744073709551615u", &[(Kind::Number, 0, 21)]),
    (b"0XffffFFFFffffFFFF", &[(Kind::Number, 0, 18)]),
    (b"01777777777777777777777", &[(Kind::Number, 0, 23)]),
    (
        b"1.5",
        &[
            (Kind::Number, 0, 1),
            (Kind::Sign, 1, 2),
            (Kind::Number, 2, 3),
        ],
    ),
    (b"12_3", &[(Kind::Number, 0, 2), (Kind::Word, 2, 4)]),
    (
        b"'a' '\"'",
        &[(Kind::Character, 0, 3), (Kind::Character, 4, 7)],
    ),
    (
        b"'\\n''\\''",
        &[(Kind::Character, 0, 4), (Kind::Character, 4, 8)],
    ),
    (
        b"'\\0''\\\\'",
        &[(Kind::Character, 0, 4), (Kind::Character, 4, 8)],
    ),
    (
        b"'\xff''\0'",
        &[(Kind::Character, 0, 3), (Kind::Character, 3, 6)],
    ),
    (b"\"\\n\\t\\\\\\'\\\"\\0\"", &[(Kind::Text, 0, 14)]),
    (b"\"'/*\"", &[(Kind::Text, 0, 5)]),
    (b"#include <x>\na", &[(Kind::Word, 13, 14)]),
    (b"#includefoo /*\n;", &[(Kind::Sign, 15, 16)]),
    (b"#define N 5", &[(Kind::Define, 0, 11)]),
    (b"#define\t N\r-0x1F //c", &[(Kind::Define, 0, 16)]),
    (b"#define N 5/*c*/", &[(Kind::Define, 0, 11)]),
    (
        b"#define printf 1\n;",
        &[(Kind::Define, 0, 16), (Kind::Sign, 17, 18)],
    ),
    (
        b"a\n#define N 5 \r\n",
        &[(Kind::Word, 0, 1), (Kind::Define, 2, 13)],
    ),
    (
        b"->-->",
        &[(Kind::Sign, 0, 2), (Kind::Sign, 2, 4), (Kind::Sign, 4, 5)],
    ),
    (b"<<=>>=", &[(Kind::Sign, 0, 3), (Kind::Sign, 3, 6)]),
    (b"===", &[(Kind::Sign, 0, 2), (Kind::Sign, 2, 3)]),
    (
        b"?:[]",
        &[
            (Kind::Sign, 0, 1),
            (Kind::Sign, 1, 2),
            (Kind::Sign, 2, 3),
            (Kind::Sign, 3, 4),
        ],
    ),
    (b"x/**/y//z", &[(Kind::Word, 0, 1), (Kind::Word, 5, 6)]),
    (b"/*#\n*//", &[(Kind::Sign, 6, 7)]),
    (
        b"int x;",
        &[(Kind::Word, 0, 3), (Kind::Word, 4, 5), (Kind::Sign, 5, 6)],
    ),
];

/// Texts of C with the fault at which reading stops.
const C_REFUSED: &[(&[u8], LexFault)] = &[
    (b"$x", LexFault::BadByte { place: 0 }),
    (b"a@", LexFault::BadByte { place: 1 }),
    (b"`", LexFault::BadByte { place: 0 }),
    (b"a #", LexFault::BadByte { place: 2 }),
    (b" #include", LexFault::BadByte { place: 1 }),
    (b" #define N 5", LexFault::BadByte { place: 1 }),
    (b"#", LexFault::BadByte { place: 0 }),
    (b"#define int 5", LexFault::BadByte { place: 0 }),
    (b"#define NULL 5", LexFault::BadByte { place: 0 }),
    (b"#define N", LexFault::BadByte { place: 0 }),
    (b"#define N -", LexFault::BadByte { place: 0 }),
    (b"#define N - 1", LexFault::BadByte { place: 0 }),
    (b"#define N x", LexFault::BadByte { place: 0 }),
    (b"#define N5", LexFault::BadByte { place: 0 }),
    (b"#defineN 5", LexFault::BadByte { place: 0 }),
    (b"#define N 5 ;", LexFault::BadByte { place: 0 }),
    (b"#define N 5/", LexFault::BadByte { place: 0 }),
    (b"#define N 08 ;", LexFault::BadNumber { place: 10 }),
    (b"#define N -08", LexFault::BadNumber { place: 11 }),
    (b";\n#define N 0x", LexFault::BadNumber { place: 12 }),
    (b"int x = 08;", LexFault::BadNumber { place: 8 }),
    (b"0x", LexFault::BadNumber { place: 0 }),
    (b"0xg", LexFault::BadNumber { place: 0 }),
    (b"1lL", LexFault::BadNumber { place: 0 }),
    (b"1l", LexFault::BadNumber { place: 0 }),
    (b"1uu", LexFault::BadNumber { place: 0 }),
    (b"12ab", LexFault::BadNumber { place: 0 }),
    (b"0b1", LexFault::BadNumber { place: 0 }),
    (b"9223372036854775808", LexFault::BadNumber { place: 0 }),
    (b"18446744073709551616u", LexFault::BadNumber { place: 0 }),
    (b"0x10000000000000000", LexFault::BadNumber { place: 0 }),
    (b"''", LexFault::BadByte { place: 0 }),
    (b"'ab'", LexFault::BadByte { place: 0 }),
    (b"'a", LexFault::BadByte { place: 0 }),
    (b"'", LexFault::BadByte { place: 0 }),
    (b"'\n'", LexFault::BadByte { place: 0 }),
    (b"'\\q'", LexFault::BadByte { place: 1 }),
    (b"'\\q", LexFault::BadByte { place: 1 }),
    (b"'\\n", LexFault::BadByte { place: 0 }),
    (b"'\\\n", LexFault::BadByte { place: 1 }),
    (b"'\\", LexFault::BadByte { place: 1 }),
    (b"\"\\x\"", LexFault::BadByte { place: 1 }),
    (b"\"a\\\n\"", LexFault::BadByte { place: 2 }),
    (b"f \"ab", LexFault::Unclosed { place: 2 }),
    (b"\"a\n\"", LexFault::Unclosed { place: 0 }),
    (b"x/*a*", LexFault::Unclosed { place: 1 }),
];

/// Places of `"ab\n\nc"` with their line and column.
const PLACES: &[(u32, (u32, u32))] = &[
    (0, (1, 1)),
    (2, (1, 3)),
    (3, (2, 1)),
    (4, (3, 1)),
    (5, (3, 2)),
    (1, (1, 2)),
];

fn expect_tokens(rt: &impl Abort, tokens: &Tokens, text: &[u8], want: &[(Kind, u32, u32)]) {
    assert!(rt; tokens.len() as usize == want.len(), "{text:?}");
    for i in 0..tokens.len() {
        let token = tokens.get(i);
        let (kind, start, end) = want[i as usize];
        assert!(rt;
            token.kind == kind && token.start == start && token.end == end,
            "{text:?}"
        );
        assert!(rt; tokens.place(i) == start, "{text:?}");
        assert!(rt; start <= end && end as usize <= text.len());
        assert!(rt;
            tokens.bytes(i) == &text[start as usize..end as usize],
            "{text:?}"
        );
    }
    assert!(rt;
        tokens.place(tokens.len()) as usize == text.len(),
        "{text:?}"
    );
    assert!(rt; tokens.is_empty() == want.is_empty(), "{text:?}");
}

#[test]
fn texts_have_the_tokens_of_their_language(rt: HostRuntime) -> Result<(), Fail> {
    for &(text, want) in SV_ACCEPTED {
        assert!(rt; text.len() <= 1_048_576);
        expect_tokens(&rt, &sv_tokens(rt.alloc(), text)?, text, want);
    }
    for &(text, want) in C_ACCEPTED {
        assert!(rt; text.len() <= 1_048_576);
        expect_tokens(&rt, &c_tokens(rt.alloc(), text)?, text, want);
    }
    Ok(())
}

#[test]
fn the_first_fault_is_named(rt: HostRuntime) {
    for &(text, fault) in SV_REFUSED {
        assert!(rt; text.len() <= 1_048_576);
        assert!(rt;
            sv_tokens(rt.alloc(), text).err() == Some(fault),
            "{text:?}"
        );
    }
    for &(text, fault) in C_REFUSED {
        assert!(rt; text.len() <= 1_048_576);
        assert!(rt; c_tokens(rt.alloc(), text).err() == Some(fault), "{text:?}");
    }
}

#[test]
fn lines_and_columns_count_from_one(rt: HostRuntime) -> Result<(), Fail> {
    let tokens = sv_tokens(rt.alloc(), b"ab\n\nc")?;
    for &(place, want) in PLACES {
        assert!(rt; place <= 5);
        assert!(rt; line_column_of(b"ab\n\nc", place) == want, "{place}");
        assert!(rt; tokens.line_column(place) == want, "{place}");
    }
    Ok(())
}
