//! Operators whose answers were worked out by hand from ISO C.
use crate::{CBinOp, CUnOp, CValue, OpTrap, binary, convert, unary};
use CBase::{
    Char, Int, LongLong, Short, UnsignedChar, UnsignedInt, UnsignedLongLong, UnsignedShort,
};
use c_base::{CBase, CType};
use c_memory::{CCell, CellType, MemTrap, Memory, Pointer};
use dpi_ports::PlainLedger;
use std::test::Fail;

/// The number of a type by its bits.
fn number(of: CBase, bits: u64) -> CValue {
    CValue {
        of: CType::plain(of),
        cell: CCell::Number(bits),
    }
}

const OVERFLOW: Result<(CBase, u64), OpTrap> = Err(OpTrap::SignedOverflow);

const ZERO_DIVISOR: Result<(CBase, u64), OpTrap> = Err(OpTrap::DivideByZero);

const PAST: Result<(CBase, u64), OpTrap> = Err(OpTrap::ShiftRange);

type Row = (CBase, u64, CBinOp, CBase, u64, Result<(CBase, u64), OpTrap>);

/// Two numbers by type and bits under an operator, and the type and bits that ISO C 6.5 gives.
const NUMBERS: &[Row] = &[
    (Int, 0x8000_0000, CBinOp::Div, Int, 0xffff_ffff, OVERFLOW),
    (Int, 0x8000_0000, CBinOp::Rem, Int, 0xffff_ffff, OVERFLOW),
    (Int, 7, CBinOp::Div, Int, 0, ZERO_DIVISOR),
    (UnsignedInt, 7, CBinOp::Rem, Int, 0, ZERO_DIVISOR),
    (
        Int,
        0xffff_fff9,
        CBinOp::Div,
        Int,
        2,
        Ok((Int, 0xffff_fffd)),
    ),
    (
        Int,
        0xffff_fff9,
        CBinOp::Rem,
        Int,
        2,
        Ok((Int, 0xffff_ffff)),
    ),
    (Int, 7, CBinOp::Rem, Int, 0xffff_fffe, Ok((Int, 1))),
    (Int, 0x7fff_ffff, CBinOp::Add, Int, 1, OVERFLOW),
    (Int, 0x8000_0000, CBinOp::Sub, Int, 1, OVERFLOW),
    (
        UnsignedInt,
        0xffff_ffff,
        CBinOp::Add,
        Int,
        1,
        Ok((UnsignedInt, 0)),
    ),
    (
        UnsignedInt,
        0,
        CBinOp::Sub,
        Int,
        1,
        Ok((UnsignedInt, 0xffff_ffff)),
    ),
    (Char, 100, CBinOp::Add, Char, 100, Ok((Int, 200))),
    (
        UnsignedChar,
        255,
        CBinOp::Add,
        UnsignedChar,
        1,
        Ok((Int, 256)),
    ),
    (Char, 0xff, CBinOp::Add, Char, 1, Ok((Int, 0))),
    (
        UnsignedShort,
        0xffff,
        CBinOp::Mul,
        UnsignedShort,
        0xffff,
        OVERFLOW,
    ),
    (
        Short,
        0x8000,
        CBinOp::Mul,
        Short,
        0x8000,
        Ok((Int, 0x4000_0000)),
    ),
    (Int, 0x1_0000, CBinOp::Mul, Int, 0x8000, OVERFLOW),
    (
        UnsignedInt,
        0x1_0000,
        CBinOp::Mul,
        Int,
        0x1_0001,
        Ok((UnsignedInt, 0x1_0000)),
    ),
    (
        UnsignedLongLong,
        u64::MAX,
        CBinOp::Mul,
        Int,
        0xffff_ffff,
        Ok((UnsignedLongLong, 1)),
    ),
    (LongLong, 1 << 62, CBinOp::Mul, Int, 2, OVERFLOW),
    (LongLong, 1 << 63, CBinOp::Mul, LongLong, 1 << 63, OVERFLOW),
    (LongLong, 1 << 63, CBinOp::Div, Int, 0xffff_ffff, OVERFLOW),
    (
        UnsignedInt,
        0xffff_ffff,
        CBinOp::Add,
        LongLong,
        1,
        Ok((LongLong, 0x1_0000_0000)),
    ),
    (
        UnsignedInt,
        1,
        CBinOp::Greater,
        Int,
        0xffff_ffff,
        Ok((Int, 0)),
    ),
    (Int, 1, CBinOp::Greater, Int, 0xffff_ffff, Ok((Int, 1))),
    (
        LongLong,
        u64::MAX,
        CBinOp::Less,
        UnsignedInt,
        0,
        Ok((Int, 1)),
    ),
    (Char, 0xff, CBinOp::Equal, UnsignedChar, 255, Ok((Int, 0))),
    (
        Int,
        0xffff_ffff,
        CBinOp::Equal,
        UnsignedInt,
        0xffff_ffff,
        Ok((Int, 1)),
    ),
    (Int, 1, CBinOp::Shl, Int, 32, PAST),
    (Int, 0xffff_ffff, CBinOp::Shl, Int, 0xffff_ffff, PAST),
    (Int, 0xffff_ffff, CBinOp::Shl, Int, 1, OVERFLOW),
    (Int, 1, CBinOp::Shl, Int, 31, OVERFLOW),
    (
        UnsignedInt,
        3,
        CBinOp::Shl,
        LongLong,
        31,
        Ok((UnsignedInt, 0x8000_0000)),
    ),
    (LongLong, 1, CBinOp::Shl, Int, 62, Ok((LongLong, 1 << 62))),
    (
        Int,
        0xffff_fffd,
        CBinOp::Shr,
        Int,
        1,
        Ok((Int, 0xffff_fffe)),
    ),
    (UnsignedChar, 0x80, CBinOp::Shr, Int, 7, Ok((Int, 1))),
    (
        Int,
        0xffff_fff0,
        CBinOp::BitAnd,
        LongLong,
        0xff,
        Ok((LongLong, 0xf0)),
    ),
    (Int, 12, CBinOp::BitXor, Int, 10, Ok((Int, 6))),
    (Char, 0x80, CBinOp::BitOr, Int, 1, Ok((Int, 0xffff_ff81))),
    (Int, 2, CBinOp::And, Int, 4, Ok((Int, 1))),
];

#[test]
fn operators_on_numbers_follow_iso_c(rt: HostRuntime) -> Result<(), Fail> {
    let memory: Memory<PlainLedger> = Memory::new(rt.alloc());
    for &(s, a, op, t, b, wanted) in NUMBERS {
        let got = binary(&memory, op, &number(s, a), &number(t, b));
        let wanted = match wanted {
            Ok((of, bits)) => Ok(number(of, bits)),
            Err(trap) => Err(trap),
        };
        assert_eq!(rt; got, wanted, "{s:?} {a} {op:?} {t:?} {b}");
    }
    Ok(())
}

/// A number under a unary operator, and what ISO C 6.5.3.3 gives.
const UNARIES: &[(CUnOp, CBase, u64, Result<(CBase, u64), OpTrap>)] = &[
    (CUnOp::Minus, Int, 0x8000_0000, OVERFLOW),
    (CUnOp::Minus, Char, 0x80, Ok((Int, 128))),
    (CUnOp::Minus, UnsignedInt, 1, Ok((UnsignedInt, 0xffff_ffff))),
    (CUnOp::Complement, UnsignedChar, 0, Ok((Int, 0xffff_ffff))),
    (
        CUnOp::Complement,
        LongLong,
        5,
        Ok((LongLong, 0xffff_ffff_ffff_fffa)),
    ),
    (CUnOp::Plus, Char, 0xff, Ok((Int, 0xffff_ffff))),
    (CUnOp::Not, LongLong, 1 << 32, Ok((Int, 0))),
];

/// A number, another type, and the bits there (ISO C 6.3.1.3).
const CONVERSIONS: &[(CBase, u64, CBase, u64)] = &[
    (Int, 0xffff_ffff, Char, 0xff),
    (Char, 0xff, LongLong, u64::MAX),
    (UnsignedChar, 0xff, Int, 0xff),
    (Int, 300, UnsignedChar, 44),
    (LongLong, 0x1_8000_0000, Int, 0x8000_0000),
    (Int, 0xffff_fffe, UnsignedLongLong, 0xffff_ffff_ffff_fffe),
];

#[test]
fn unary_operators_and_conversions_follow_iso_c(rt: HostRuntime) -> Result<(), Fail> {
    let memory: Memory<PlainLedger> = Memory::new(rt.alloc());
    for &(op, of, bits, wanted) in UNARIES {
        let wanted = match wanted {
            Ok((of, bits)) => Ok(number(of, bits)),
            Err(trap) => Err(trap),
        };
        assert_eq!(rt;
            unary(&memory, op, &number(of, bits)),
            wanted,
            "{op:?} {of:?} {bits}"
        );
    }
    for &(from, bits, to, wanted) in CONVERSIONS {
        let got = convert(&number(from, bits), CType::plain(to));
        assert_eq!(rt; got, number(to, wanted), "{from:?} {bits} {to:?}");
    }
    Ok(())
}

const INT: CellType = CellType::Number {
    bytes: 4,
    signed: true,
};

/// The pointer as a value of type `int *`.
fn pointer(p: Pointer) -> CValue {
    CValue {
        of: CType {
            stars: 1,
            ..CType::plain(Int)
        },
        cell: CCell::Pointer(p),
    }
}

/// The pointer to a cell of the object 1, which has three cells, or 2, which has one.
fn at(serial: u64, offset: u32) -> CValue {
    pointer(Pointer::At { serial, offset })
}

#[test]
fn operators_on_pointers_follow_iso_c(rt: HostRuntime) -> Result<(), Fail> {
    let mut memory: Memory<PlainLedger> = Memory::new(rt.alloc());
    memory.new_object(INT, 3, true, true)?;
    memory.new_object(INT, 1, true, true)?;
    let null = pointer(Pointer::Null);
    let outside = Err(OpTrap::Memory(MemTrap::OutOfBounds));
    let rows = [
        (at(1, 0), CBinOp::Add, number(Int, 3), Ok(at(1, 3))),
        (number(Char, 0xff), CBinOp::Add, at(1, 1), Ok(at(1, 0))),
        (
            at(1, 0),
            CBinOp::Add,
            number(UnsignedLongLong, u64::MAX),
            outside,
        ),
        (at(1, 2), CBinOp::Sub, number(Int, 2), Ok(at(1, 0))),
        (at(1, 0), CBinOp::Sub, number(Int, 1), outside),
        (
            at(1, 1),
            CBinOp::Sub,
            at(1, 3),
            Ok(number(LongLong, u64::MAX - 1)),
        ),
        (at(1, 1), CBinOp::Less, at(1, 3), Ok(number(Int, 1))),
        (
            at(1, 1),
            CBinOp::Less,
            at(2, 0),
            Err(OpTrap::Memory(MemTrap::DifferentObjects)),
        ),
        (
            null,
            CBinOp::Add,
            number(Int, 0),
            Err(OpTrap::Memory(MemTrap::Null)),
        ),
        (null, CBinOp::Equal, number(Int, 0), Ok(number(Int, 1))),
        (at(9, 0), CBinOp::Equal, at(9, 0), Ok(number(Int, 1))),
        (
            at(9, 0),
            CBinOp::GreaterEqual,
            at(9, 0),
            Err(OpTrap::Memory(MemTrap::Dead)),
        ),
        (at(1, 1), CBinOp::NotEqual, at(2, 1), Ok(number(Int, 1))),
        (null, CBinOp::Or, number(Int, 0), Ok(number(Int, 0))),
    ];
    for (a, op, b, wanted) in rows {
        assert_eq!(rt; binary(&memory, op, &a, &b), wanted, "{a:?} {op:?} {b:?}");
    }
    let scope = CType::plain(CBase::Scope);
    assert_eq!(rt; convert(&null, scope).cell, CCell::Scope(None));
    assert_eq!(rt; convert(&at(1, 2), null.of).cell, at(1, 2).cell);
    Ok(())
}
