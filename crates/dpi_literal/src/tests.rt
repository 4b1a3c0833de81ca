//! Tokens with what they stand for, by IEEE 1800-2017, 5.7 and 5.9, and ISO C 6.4.4.

use crate::{
    CConstant, NumberForm, NumberKind, NumberType, c_character, c_define_name, c_define_value,
    c_number, read_back, sv_decimal, sv_form, sv_known, sv_value, text_of,
};
use dpi_bits::Bit;
use std::test::Fail;

/// A number with its width, whether it's signed, has an x or z digit, has a size, and its kind.
const FORMS: &[(&[u8], u32, bool, bool, bool, NumberKind)] = &[
    (b"42", 32, true, false, false, NumberKind::Plain),
    (b"1_000", 32, true, false, false, NumberKind::Plain),
    (b"8'hff", 8, false, false, true, NumberKind::Based),
    (b"8'shff", 8, true, false, true, NumberKind::Based),
    (b"'hx", 32, false, true, false, NumberKind::Based),
    (b"'sd7", 32, true, false, false, NumberKind::Based),
    (b"1_6'b1_0Z0", 16, false, true, true, NumberKind::Based),
    (b"1'bx0", 1, false, true, true, NumberKind::Based),
    (b"1024'd1", 1024, false, false, true, NumberKind::Based),
    (b"08'o0", 8, false, false, true, NumberKind::Based),
    (b"'1", 1, false, false, false, NumberKind::Fill),
    (b"'x", 1, false, true, false, NumberKind::Fill),
];

#[test]
fn numbers_tell_their_form(rt: HostRuntime) {
    for &(bytes, width, signed, four, sized, kind) in FORMS {
        let form = NumberForm {
            width,
            signed,
            four,
            sized,
            kind,
        };
        assert_eq!(rt; sv_form(bytes), form, "{bytes:?}");
    }
}

/// A number with its bits, the highest first.
const BITS: &[(&[u8], &[u8])] = &[
    (b"5", b"00000000000000000000000000000101"),
    (b"4294967295", b"11111111111111111111111111111111"),
    (b"4'b1?x0", b"1zx0"),
    (b"8'hxf", b"xxxx1111"),
    (b"12'hXf", b"xxxxxxxx1111"),
    (b"12'hzf", b"zzzzzzzz1111"),
    (b"12'hf", b"000000001111"),
    (b"8'h?", b"zzzzzzzz"),
    (b"3'hf", b"111"),
    (b"4'hAb", b"1011"),
    (b"6'o7_1", b"111001"),
    (b"8'o7", b"00000111"),
    (b"8'b_1", b"00000001"),
    (b"4'dx", b"xxxx"),
    (b"4'd?_", b"zzzz"),
    (b"4'd18", b"0010"),
    (b"1'bx0", b"0"),
    (b"'0", b"0"),
    (b"'1", b"1"),
    (b"'z", b"z"),
];

fn letter(bit: Bit) -> u8 {
    match bit {
        Bit::Zero => b'0',
        Bit::One => b'1',
        Bit::Z => b'z',
        Bit::X => b'x',
    }
}

#[test]
fn numbers_have_their_bits(rt: HostRuntime) -> Result<(), Fail> {
    for &(bytes, bits) in BITS {
        let value = sv_value(rt.alloc(), bytes)?;
        let mut letters = Vec::new(rt.alloc());
        for i in 0..value.width() {
            letters.push(letter(value.bit(value.width() - 1 - i)))?;
        }
        assert_eq!(rt; letters.as_slice(), bits, "{bytes:?}");
    }
    Ok(())
}

/// A number with its value, where its bits are known and it fits in 64 bits.
const KNOWN: &[(&[u8], Option<i64>)] = &[
    (b"42", Some(42)),
    (b"4294967295", Some(-1)),
    (b"8'hff", Some(255)),
    (b"8'shff", Some(-1)),
    (b"8'sh7f", Some(127)),
    (b"'1", Some(1)),
    (b"'z", None),
    (b"8'b1x", None),
    (b"1'bx0", Some(0)),
    (b"200'd5", Some(5)),
    (b"64'h7fff_ffff_ffff_ffff", Some(i64::MAX)),
    (b"64'h8000_0000_0000_0000", None),
    (b"64'sh8000_0000_0000_0000", Some(i64::MIN)),
];

#[test]
fn known_numbers_have_a_value(rt: HostRuntime) -> Result<(), Fail> {
    for &(bytes, value) in KNOWN {
        assert_eq!(rt; sv_known(rt.alloc(), bytes)?, value, "{bytes:?}");
    }
    let wide = b"130'sh3_ffff_ffff_ffff_ffff_ffff_ffff_ffff_ffff";
    assert_eq!(rt; sv_known(rt.alloc(), wide)?, Some(-1));
    Ok(())
}

/// Bytes with their value, where they are a plain decimal number.
const DECIMALS: &[(&[u8], Option<u32>)] = &[
    (b"0", Some(0)),
    (b"1_0", Some(10)),
    (b"4294967295", Some(4_294_967_295)),
    (b"4294967296", None),
    (b"1_", None),
    (b"8'd1", None),
    (b"", None),
];

#[test]
fn plain_decimals_have_a_value(rt: HostRuntime) {
    for &(bytes, value) in DECIMALS {
        assert_eq!(rt; sv_decimal(bytes), value, "{bytes:?}");
    }
}

/// A number of C with its type and value (ISO C 6.4.4.1, the table at paragraph 5).
const C_NUMBERS: &[(&[u8], NumberType, i128)] = &[
    (b"0", NumberType::Int, 0),
    (b"2147483647", NumberType::Int, 2_147_483_647),
    (b"2147483648", NumberType::LongLong, 2_147_483_648),
    (b"0x7fffffff", NumberType::Int, 2_147_483_647),
    (b"0X80000000", NumberType::UnsignedInt, 2_147_483_648),
    (b"037777777777", NumberType::UnsignedInt, 4_294_967_295),
    (b"0x100000000", NumberType::LongLong, 4_294_967_296),
    (
        b"0xffffffffffffffff",
        NumberType::UnsignedLongLong,
        18_446_744_073_709_551_615,
    ),
    (b"017", NumberType::Int, 15),
    (b"1u", NumberType::UnsignedInt, 1),
    (b"4294967296U", NumberType::UnsignedLongLong, 4_294_967_296),
    (b"1ll", NumberType::LongLong, 1),
    (b"0x1LL", NumberType::LongLong, 1),
    (
        b"9223372036854775808ll",
        NumberType::UnsignedLongLong,
        9_223_372_036_854_775_808,
    ),
    (b"1ull", NumberType::UnsignedLongLong, 1),
    (b"1LLU", NumberType::UnsignedLongLong, 1),
];

#[test]
fn numbers_of_c_have_the_first_type_that_holds_them(rt: HostRuntime) {
    for &(bytes, of, value) in C_NUMBERS {
        assert_eq!(rt; c_number(bytes), CConstant { of, value }, "{bytes:?}");
    }
}

/// A character with its value as an `int`.
const CHARACTERS: &[(&[u8], i128)] = &[
    (b"'a'", 97),
    (b"'\"'", 34),
    (b"'\\n'", 10),
    (b"'\\t'", 9),
    (b"'\\0'", 0),
    (b"'\\''", 39),
    (b"'\\\\'", 92),
    (b"'\x7f'", 127),
    (b"'\x80'", -128),
];

#[test]
fn characters_are_signed(rt: HostRuntime) {
    for &(bytes, value) in CHARACTERS {
        let of = NumberType::Int;
        assert_eq!(rt; c_character(bytes), CConstant { of, value }, "{bytes:?}");
    }
}

/// A define with its name, type and value.
const DEFINES: &[(&[u8], &[u8], NumberType, i128)] = &[
    (b"#define A 5", b"A", NumberType::Int, 5),
    (b"#define\tB_1 \t-0x10", b"B_1", NumberType::Int, -16),
    (
        b"#define C 2147483648",
        b"C",
        NumberType::LongLong,
        2_147_483_648,
    ),
    (
        b"#define D -2147483648",
        b"D",
        NumberType::LongLong,
        -2_147_483_648,
    ),
    (
        b"#define E -5u",
        b"E",
        NumberType::UnsignedInt,
        4_294_967_291,
    ),
    (b"#define F -0u", b"F", NumberType::UnsignedInt, 0),
];

#[test]
fn defines_have_a_name_and_a_value(rt: HostRuntime) {
    for &(bytes, name, of, value) in DEFINES {
        assert_eq!(rt; c_define_name(bytes), name, "{bytes:?}");
        assert_eq!(rt; c_define_value(bytes), CConstant { of, value }, "{bytes:?}");
    }
}

/// A string with the bytes that it stands for.
const TEXTS: &[(&[u8], &[u8])] = &[
    (b"\"\"", b""),
    (b"\"ab\"", b"ab"),
    (b"\"a\\nb\\t\"", b"a\nb\t"),
    (b"\"\\\\n\\\"\"", b"\\n\""),
    (b"\"\\0\\'\xff\"", b"\0'\xff"),
];

#[test]
fn strings_stand_for_their_bytes(rt: HostRuntime) -> Result<(), Fail> {
    for &(bytes, text) in TEXTS {
        assert_eq!(rt; text_of(rt.alloc(), bytes)?.as_slice(), text, "{bytes:?}");
    }
    read_back();
    Ok(())
}
