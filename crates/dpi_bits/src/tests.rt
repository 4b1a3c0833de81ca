//! Worked values, from IEEE 1800-2017 and from plain arithmetic by hand.

ghost use Rattle.std.specs.Prelude.{◌≤◌};

use crate::{Bit, Packed, Word4};
use dpi_ports::NoMemory;
use std::alloc::Global;
use std::process::Abort;
use std::test::Fail;

/// A value with one word.
fn of_word(alloc: Global, width: u32, aval: u32, bval: u32) -> Result<Packed, NoMemory>
    requires least { 1 ≤ width }
    requires most { width ≤ 1024 }
{
    let mut value = Packed::filled(alloc, width, Bit::Zero)?;
    value.set_word(0, Word4 { aval, bval });
    Ok(value)
}

/// A value that writes a number.
fn of_number(alloc: Global, width: u32, number: u64) -> Result<Packed, NoMemory>
    requires least { 1 ≤ width }
    requires most { width ≤ 1024 }
{
    Packed::from_u64(alloc, width, number)
}

/// A value of equal bits.
fn of_bit(alloc: Global, width: u32, bit: Bit) -> Result<Packed, NoMemory>
    requires least { 1 ≤ width }
    requires most { width ≤ 1024 }
{
    Packed::filled(alloc, width, bit)
}

/// The value at another width, signed.
fn widened(alloc: Global, value: &Packed, width: u32) -> Result<Packed, NoMemory>
    requires least { 1 ≤ width }
    requires most { width ≤ 1024 }
{
    value.resize(alloc, width, true)
}

/// The value lowered by a number.
fn lowered(alloc: Global, value: &Packed, by: u64, filled: bool) -> Result<Packed, NoMemory> {
    value.shr(alloc, &of_number(alloc, 32, by)?, filled)
}

/// Each bit of the value inverted.
fn inverted(alloc: Global, value: &Packed) -> Result<Packed, NoMemory> {
    value.not(alloc)
}

/// Two bits of the value.
fn pair_at(alloc: Global, value: &Packed, low: i64) -> Result<Packed, NoMemory> {
    value.part(alloc, low, 2)
}

/// Puts eight bits of a number into the value.
fn put(alloc: Global, value: &mut Packed, low: i64, number: u64) -> Result<(), NoMemory> {
    value.put_part(low, &of_number(alloc, 8, number)?);
    Ok(())
}

/// The lowest word.
fn low_word(value: &Packed) -> Word4 {
    let _ = value.width();
    value.word(0)
}

/// A call on two values of one width.
#[derive(Clone, Copy, Debug, Drop)]
enum Call {
    Part,
    Concat,
    Add,
    Sub,
    Mul,
    Div,
    DivSigned,
    Rem,
    RemSigned,
    Shl,
    Shr,
    ShrSigned,
    Extend,
    Not,
    Negate,
    And,
    Or,
    Xor,
    Merge,
    Ones,
}

/// The answer of a call.
fn answer(
    rt: &impl Abort,
    alloc: Global,
    call: Call,
    a: &Packed,
    b: &Packed,
) -> Result<Packed, NoMemory> {
    assert!(rt; a.width() == b.width() && a.width() <= 64);
    match call {
        Call::Part => a.part(alloc, 2, 4),
        Call::Concat => Packed::concat(alloc, a, b),
        Call::Add => a.add(alloc, b),
        Call::Sub => a.sub(alloc, b),
        Call::Mul => a.mul(alloc, b),
        Call::Div => a.div(alloc, b, false),
        Call::DivSigned => a.div(alloc, b, true),
        Call::Rem => a.rem(alloc, b, false),
        Call::RemSigned => a.rem(alloc, b, true),
        Call::Shl => a.shl(alloc, b),
        Call::Shr => a.shr(alloc, b, false),
        Call::ShrSigned => a.shr(alloc, b, true),
        Call::Extend => a.resize(alloc, 16, true),
        Call::Not => a.not(alloc),
        Call::Negate => a.negate(alloc),
        Call::And => a.and(alloc, b),
        Call::Or => a.or(alloc, b),
        Call::Xor => a.xor(alloc, b),
        Call::Merge => a.merge(alloc, b),
        Call::Ones => Packed::filled(alloc, a.width(), Bit::One),
    }
}

/// A row of worked calls.
type Worked = (Call, u32, u64, u64, u32, u32, u32);

/// A call, the width of its operands, their numbers, and the width and the one word of the
/// answer, worked by hand.
const WORKED: &[Worked] = &[
    (Call::Part, 8, 0x96, 0, 4, 0x5, 0),
    (Call::Concat, 4, 0x5, 0x3, 8, 0x53, 0),
    (Call::Add, 8, 0x96, 0x6a, 8, 0x00, 0),
    (Call::Shl, 8, 0x96, 1, 8, 0x2c, 0),
    (Call::Div, 8, 0x96, 7, 8, 21, 0),
    (Call::Rem, 8, 0x96, 7, 8, 3, 0),
    (Call::DivSigned, 8, 0x96, 7, 8, 0xf1, 0),
    (Call::RemSigned, 8, 0x96, 7, 8, 0xff, 0),
    (Call::Extend, 8, 0x96, 0, 16, 0xff96, 0),
    (Call::Not, 8, 0x96, 0, 8, 0x69, 0),
    (Call::Negate, 8, 0x96, 0, 8, 0x6a, 0),
    (Call::And, 8, 0x96, 0x0f, 8, 0x06, 0),
    (Call::Or, 8, 0x96, 0x0f, 8, 0x9f, 0),
    (Call::Xor, 8, 0x96, 0x0f, 8, 0x99, 0),
    (Call::Merge, 8, 0x96, 0x9e, 8, 0x9e, 0x08),
    (Call::Sub, 8, 0x96, 0x97, 8, 0xff, 0),
    (Call::Mul, 8, 0x96, 3, 8, 0xc2, 0),
    (Call::Shr, 8, 0x96, 1, 8, 0x4b, 0),
    (Call::ShrSigned, 8, 0x96, 1, 8, 0xcb, 0),
    (Call::Ones, 8, 0, 0, 8, 0xff, 0),
    (Call::Div, 8, 0x96, 0, 8, 0xff, 0xff),
    (Call::RemSigned, 8, 0x96, 0, 8, 0xff, 0xff),
    (Call::DivSigned, 8, 0x80, 0xff, 8, 0x80, 0),
    (Call::RemSigned, 8, 7, 0xfe, 8, 1, 0),
    (Call::DivSigned, 8, 7, 0xfe, 8, 0xfd, 0),
    (Call::Shl, 33, 1, 32, 33, 0, 0),
    (Call::Shr, 64, 0x8000_0000_0000_0000, 63, 64, 1, 0),
];

/// Whether a call gives its answer.
fn works(rt: &impl Abort, alloc: Global, row: Worked) -> Result<bool, NoMemory> {
    let (call, width, a, b, wide, aval, bval) = row;
    assert!(rt; 1 <= width && width <= 64);
    let a = of_number(alloc, width, a)?;
    let b = of_number(alloc, width, b)?;
    let found = answer(rt, alloc, call, &a, &b)?;
    Ok(found.width() == wide && low_word(&found) == Word4 { aval, bval })
}

#[test]
fn each_call_gives_the_worked_value(rt: HostRuntime) -> Result<(), Fail> {
    for &row in WORKED {
        assert!(rt; works(&rt, rt.alloc(), row)?, "{row:?}");
    }
    Ok(())
}

/// A width, its number of words, the last word of as many 1s, and their parity.
const WIDTHS: &[(u32, u32, u32, Bit)] = &[
    (1, 1, 0x1, Bit::One),
    (31, 1, 0x7fff_ffff, Bit::One),
    (32, 1, 0xffff_ffff, Bit::Zero),
    (33, 2, 0x1, Bit::One),
    (64, 2, 0xffff_ffff, Bit::Zero),
    (65, 3, 0x1, Bit::One),
    (127, 4, 0x7fff_ffff, Bit::One),
    (128, 4, 0xffff_ffff, Bit::Zero),
    (129, 5, 0x1, Bit::One),
    (1024, 32, 0xffff_ffff, Bit::Zero),
];

/// The last word of as many 1s.
fn last_word(rt: &impl Abort, alloc: Global, width: u32, words: u32) -> Result<Word4, NoMemory> {
    assert!(rt; 1 <= width && width <= 1024 && 1 <= words && words <= 32);
    let ones = of_bit(alloc, width, Bit::One)?;
    assert!(rt; 32 * (words - 1) < ones.width());
    Ok(ones.word(words - 1))
}

/// `&`, `|` and `^` of as many bits.
fn reductions(alloc: Global, width: u32, bit: Bit) -> Result<(Bit, Bit, Bit), NoMemory>
    requires least { 1 ≤ width }
    requires most { width ≤ 1024 }
{
    let bits = of_bit(alloc, width, bit)?;
    Ok((bits.reduce_and(), bits.reduce_or(), bits.reduce_xor()))
}

/// The `&` of all bits of a value that a call gives.
fn all_of(value: Result<Packed, NoMemory>) -> Result<Bit, NoMemory> {
    let value = value?;
    Ok(value.reduce_and())
}

/// Whether as many bits as a row says keep to themselves.
fn keeps(rt: &impl Abort, alloc: Global, row: (u32, u32, u32, Bit)) -> Result<bool, NoMemory> {
    let (width, words, aval, parity) = row;
    assert!(rt; 1 <= width && width <= 1024);
    let last = last_word(rt, alloc, width, words)?;
    let ones = reductions(alloc, width, Bit::One)?;
    let zeros = reductions(alloc, width, Bit::Zero)?;
    Ok(
        last == Word4 { aval, bval: 0 }
            && ones == (Bit::One, Bit::One, parity)
            && zeros == (Bit::Zero, Bit::Zero, Bit::Zero),
    )
}

/// Whether as many 1s are moved and inverted whole.
fn moves(rt: &impl Abort, alloc: Global, width: u32) -> Result<bool, NoMemory> {
    assert!(rt; 1 <= width && width <= 1024);
    let ones = of_bit(alloc, width, Bit::One)?;
    let most = width as u64 - 1;
    let wide = all_of(widened(alloc, &ones, 1024))?;
    let signed = all_of(lowered(alloc, &ones, most, true))?;
    let low = lowered(alloc, &ones, most, false)?.to_u64();
    let none = inverted(alloc, &ones)?.to_u64();
    Ok(wide == Bit::One && signed == Bit::One && low == Some(1) && none == Some(0))
}

#[test]
fn every_width_keeps_to_its_bits(rt: HostRuntime) -> Result<(), Fail> {
    for &row in WIDTHS {
        assert!(rt; keeps(&rt, rt.alloc(), row)?, "{row:?}");
        assert!(rt; moves(&rt, rt.alloc(), row.0)?, "{row:?}");
    }
    Ok(())
}

/// All pairs of states: the first list has four times 0, 1, z and x, the second each of them in
/// turn, the lowest bit first. An operator and its word, by Tables 11-11 to 11-15 and 11-20.
const STATES: &[(Call, u32, u32)] = &[
    (Call::And, 0xeee0, 0xeec0),
    (Call::Or, 0xfffe, 0xdd0c),
    (Call::Xor, 0xffde, 0xffcc),
    (Call::Merge, 0xfffe, 0xffde),
    (Call::Not, 0xff0f, 0xff00),
];

/// Whether a call gives that word for all pairs of states.
fn pairs(rt: &impl Abort, alloc: Global, row: (Call, u32, u32)) -> Result<bool, NoMemory> {
    let (call, aval, bval) = row;
    let a = of_word(alloc, 16, 0xf0f0, 0xff00)?;
    let b = of_word(alloc, 16, 0xaaaa, 0xcccc)?;
    let found = answer(rt, alloc, call, &a, &b)?;
    Ok(found.width() == 16 && low_word(&found) == Word4 { aval, bval })
}

#[test]
fn each_pair_of_states_has_its_answer(rt: HostRuntime) -> Result<(), Fail> {
    for &row in STATES {
        assert!(rt; pairs(&rt, rt.alloc(), row)?, "{row:?}");
    }
    Ok(())
}

/// The word of a, that of b, and what `==`, `===`, `<` and a signed `<` say of them at 4 bits.
const COMPARED: &[(Word4, Word4, (Bit, bool, Bit, Bit))] = &[
    (
        Word4 { aval: 5, bval: 0 },
        Word4 { aval: 5, bval: 0 },
        (Bit::One, true, Bit::Zero, Bit::Zero),
    ),
    (
        Word4 { aval: 5, bval: 0 },
        Word4 { aval: 4, bval: 0 },
        (Bit::Zero, false, Bit::Zero, Bit::Zero),
    ),
    (
        Word4 { aval: 8, bval: 0 },
        Word4 { aval: 7, bval: 0 },
        (Bit::Zero, false, Bit::Zero, Bit::One),
    ),
    (
        Word4 { aval: 9, bval: 0 },
        Word4 { aval: 10, bval: 0 },
        (Bit::Zero, false, Bit::One, Bit::One),
    ),
    (
        Word4 { aval: 5, bval: 8 },
        Word4 { aval: 5, bval: 0 },
        (Bit::X, false, Bit::X, Bit::X),
    ),
    (
        Word4 { aval: 5, bval: 8 },
        Word4 { aval: 4, bval: 0 },
        (Bit::Zero, false, Bit::X, Bit::X),
    ),
    (
        Word4 { aval: 5, bval: 8 },
        Word4 { aval: 5, bval: 8 },
        (Bit::X, true, Bit::X, Bit::X),
    ),
];

/// The answers of `==`, `===`, `<` and a signed `<` at 4 bits, of two words.
fn compared(
    rt: &impl Abort,
    alloc: Global,
    a: Word4,
    b: Word4,
) -> Result<(Bit, bool, Bit, Bit), NoMemory> {
    let a = of_word(alloc, 4, a.aval, a.bval)?;
    let b = of_word(alloc, 4, b.aval, b.bval)?;
    assert!(rt; a.width() == b.width() && a.width() <= 64);
    Ok((
        a.eq4(&b),
        a.case_eq(&b),
        a.less(&b, false),
        a.less(&b, true),
    ))
}

#[test]
fn comparisons_know_unknown_bits(rt: HostRuntime) -> Result<(), Fail> {
    for &(a, b, answers) in COMPARED {
        assert!(rt; compared(&rt, rt.alloc(), a, b)? == answers, "{a:?} {b:?}");
    }
    Ok(())
}

#[test]
fn writes_outside_are_dropped(rt: HostRuntime) -> Result<(), Fail> {
    let alloc = rt.alloc();
    let mut value = of_bit(alloc, 33, Bit::Zero)?;
    put(alloc, &mut value, -1, 0b1011)?;
    put(alloc, &mut value, 31, 0xff)?;
    put(alloc, &mut value, i64::MAX, 0xff)?;
    assert_eq!(rt; value.to_u64(), Some(0x1_8000_0005));
    assert!(rt; 32 < value.width());
    value.set_bit(32, Bit::X);
    assert!(rt; !value.known() && value.to_u64().is_none());
    value.to_two_state();
    assert_eq!(rt; value.to_u64(), Some(0x8000_0005));
    let far = pair_at(alloc, &value, i64::MIN)?;
    assert_eq!(rt; low_word(&far), Word4 { aval: 3, bval: 3 });
    assert!(rt; of_bit(alloc, 65, Bit::One)?.to_u64().is_none());
    Ok(())
}
