//! Accesses whose answers were worked out by hand.
use crate::{CCell, CellType, MemTrap, Memory, Pointer};
use dpi_bits::Word4;
use dpi_ports::{PlainLedger, Steps};
use dpi_shape::{Leaf, Range, Shape};
use std::alloc::Global;
use std::cmp::Ordering;
use std::test::Fail;

const CHAR: CellType = CellType::Number {
    bytes: 1,
    signed: true,
};

const UNSIGNED_CHAR: CellType = CellType::Number {
    bytes: 1,
    signed: false,
};

const SHORT: CellType = CellType::Number {
    bytes: 2,
    signed: true,
};

const INT: CellType = CellType::Number {
    bytes: 4,
    signed: true,
};

const UNSIGNED: CellType = CellType::Number {
    bytes: 4,
    signed: false,
};

const LONG_LONG: CellType = CellType::Number {
    bytes: 8,
    signed: true,
};

const FIVE_BITS: Leaf = Leaf::BitVec {
    range: Range { left: 4, right: 0 },
    signed: false,
};

const BITS_33: Leaf = Leaf::LogicVec {
    range: Range { left: 32, right: 0 },
    signed: false,
};

const TWO: Range = Range { left: 1, right: 0 };

const ALL_ONES: CCell = CCell::Pair(Word4 {
    aval: u32::MAX,
    bval: u32::MAX,
});

const LAST_ONES: CCell = CCell::Pair(Word4 { aval: 1, bval: 1 });

/// Objects 1 to 9: three ints of 0; two chars, read-only; a short without a value; one that has
/// ended; two of `bit [4:0]`; a `logic`; a `logic [32:0]`; a pair without a value; a `long long`.
fn sample(alloc: Global) -> Result<Memory<PlainLedger>, Fail> {
    let mut memory = Memory::new(alloc);
    memory.reserve_objects(9)?;
    memory.new_object(INT, 3, true, true)?;
    memory.new_object(CHAR, 2, false, true)?;
    memory.new_object(SHORT, 1, true, false)?;
    let ended = memory.new_object(CellType::Pointer, 1, true, true)?;
    memory.kill(ended);
    memory.new_shaped(&Shape::new(FIVE_BITS, &[TWO]).ok_or("a shape")?, true)?;
    memory.new_shaped(
        &Shape::new(Leaf::Logic { signed: false }, &[]).ok_or("a shape")?,
        true,
    )?;
    memory.new_shaped(&Shape::new(BITS_33, &[]).ok_or("a shape")?, true)?;
    memory.new_object(CellType::LogicPair, 1, true, false)?;
    memory.new_object(LONG_LONG, 1, true, true)?;
    Ok(memory)
}

/// Pointer, type, and what a load answers. Each refused row breaks every later rule that it can.
const LOADS: &[(Pointer, CellType, Result<CCell, MemTrap>)] = &[
    (Pointer::Null, CHAR, Err(MemTrap::Null)),
    (
        Pointer::At {
            serial: 4,
            offset: 7,
        },
        CHAR,
        Err(MemTrap::Dead),
    ),
    (
        Pointer::At {
            serial: 0,
            offset: 0,
        },
        INT,
        Err(MemTrap::Dead),
    ),
    (
        Pointer::At {
            serial: 10,
            offset: 0,
        },
        INT,
        Err(MemTrap::Dead),
    ),
    (
        Pointer::At {
            serial: u64::MAX,
            offset: u32::MAX,
        },
        INT,
        Err(MemTrap::Dead),
    ),
    (
        Pointer::At {
            serial: 3,
            offset: 1,
        },
        CHAR,
        Err(MemTrap::OutOfBounds),
    ),
    (
        Pointer::At {
            serial: 3,
            offset: 0,
        },
        CHAR,
        Err(MemTrap::TypeMismatch),
    ),
    (
        Pointer::At {
            serial: 1,
            offset: 0,
        },
        CellType::Handle,
        Err(MemTrap::TypeMismatch),
    ),
    (
        Pointer::At {
            serial: 7,
            offset: 0,
        },
        UNSIGNED,
        Err(MemTrap::TypeMismatch),
    ),
    (
        Pointer::At {
            serial: 3,
            offset: 0,
        },
        SHORT,
        Err(MemTrap::Uninitialised),
    ),
    (
        Pointer::At {
            serial: 1,
            offset: 2,
        },
        UNSIGNED,
        Ok(CCell::Number(0)),
    ),
    (
        Pointer::At {
            serial: 2,
            offset: 1,
        },
        CHAR,
        Ok(CCell::Number(0)),
    ),
    (
        Pointer::At {
            serial: 6,
            offset: 0,
        },
        UNSIGNED_CHAR,
        Ok(CCell::Number(0)),
    ),
    (
        Pointer::At {
            serial: 7,
            offset: 1,
        },
        CellType::LogicPair,
        Ok(CCell::Pair(Word4 { aval: 0, bval: 0 })),
    ),
];

#[test]
fn a_load_answers_the_first_trap_or_the_value(rt: HostRuntime) -> Result<(), Fail> {
    let memory = sample(rt.alloc())?;
    let mut steps = Steps::new(PlainLedger::new());
    for &(p, of, wanted) in LOADS {
        assert!(rt; of.is_sized());
        assert_eq!(rt; memory.load(p, of, &mut steps), wanted, "{p:?} {of:?}");
    }
    Ok(())
}

/// Pointer, type, value, and what a load there answers after the store.
const STORES: &[(Pointer, CellType, CCell, Result<CCell, MemTrap>)] = &[
    (Pointer::Null, CHAR, CCell::Number(1), Err(MemTrap::Null)),
    (
        Pointer::At {
            serial: 4,
            offset: 7,
        },
        CHAR,
        CCell::Number(1),
        Err(MemTrap::Dead),
    ),
    (
        Pointer::At {
            serial: 2,
            offset: 2,
        },
        INT,
        CCell::Number(1),
        Err(MemTrap::OutOfBounds),
    ),
    (
        Pointer::At {
            serial: 2,
            offset: 0,
        },
        INT,
        CCell::Number(1),
        Err(MemTrap::TypeMismatch),
    ),
    (
        Pointer::At {
            serial: 2,
            offset: 0,
        },
        CHAR,
        CCell::Number(1),
        Err(MemTrap::ReadOnly),
    ),
    (
        Pointer::At {
            serial: 1,
            offset: 0,
        },
        UNSIGNED,
        CCell::Number(7),
        Ok(CCell::Number(7)),
    ),
    (
        Pointer::At {
            serial: 3,
            offset: 0,
        },
        SHORT,
        CCell::Number(0x1_2345),
        Ok(CCell::Number(0x2345)),
    ),
    (
        Pointer::At {
            serial: 5,
            offset: 0,
        },
        UNSIGNED,
        CCell::Number(0xff),
        Ok(CCell::Number(31)),
    ),
    (
        Pointer::At {
            serial: 5,
            offset: 1,
        },
        UNSIGNED,
        CCell::Number(0x20),
        Ok(CCell::Number(0)),
    ),
    (
        Pointer::At {
            serial: 6,
            offset: 0,
        },
        CellType::Logic,
        CCell::Number(6),
        Ok(CCell::Number(2)),
    ),
    (
        Pointer::At {
            serial: 7,
            offset: 0,
        },
        CellType::LogicPair,
        ALL_ONES,
        Ok(ALL_ONES),
    ),
    (
        Pointer::At {
            serial: 7,
            offset: 1,
        },
        CellType::LogicPair,
        ALL_ONES,
        Ok(LAST_ONES),
    ),
    (
        Pointer::At {
            serial: 8,
            offset: 0,
        },
        CellType::LogicPair,
        LAST_ONES,
        Ok(LAST_ONES),
    ),
    (
        Pointer::At {
            serial: 9,
            offset: 0,
        },
        LONG_LONG,
        CCell::Number(u64::MAX),
        Ok(CCell::Number(u64::MAX)),
    ),
    (
        Pointer::At {
            serial: 9,
            offset: 1,
        },
        LONG_LONG,
        CCell::Number(1),
        Err(MemTrap::OutOfBounds),
    ),
];

#[test]
fn a_store_keeps_the_used_bits_or_answers_the_first_trap(rt: HostRuntime) -> Result<(), Fail> {
    let mut memory = sample(rt.alloc())?;
    let mut steps = Steps::new(PlainLedger::new());
    for &(p, of, cell, wanted) in STORES {
        assert!(rt; of.is_sized());
        assert!(rt; of.fits(cell));
        let stored = memory.store(p, of, cell, &mut steps);
        assert_eq!(rt; stored, wanted.map(|_| ()), "{p:?} {of:?}");
        if stored.is_ok() {
            assert_eq!(rt; memory.load(p, of, &mut steps), wanted, "{p:?} {of:?}");
        }
    }
    assert_eq!(rt;
        memory.load(
            Pointer::At {
                serial: 2,
                offset: 0
            },
            CHAR,
            &mut steps
        ),
        Ok(CCell::Number(0))
    );
    assert_eq!(rt;
        memory.load(
            Pointer::At {
                serial: 1,
                offset: 1
            },
            INT,
            &mut steps
        ),
        Ok(CCell::Number(0))
    );
    Ok(())
}

/// Pointer, member, value, and the pair afterwards; the rows follow one another.
const MEMBERS: &[(Pointer, bool, u32, Result<Word4, MemTrap>)] = &[
    (Pointer::Null, true, 1, Err(MemTrap::Null)),
    (
        Pointer::At {
            serial: 1,
            offset: 0,
        },
        true,
        1,
        Err(MemTrap::TypeMismatch),
    ),
    (
        Pointer::At {
            serial: 8,
            offset: 0,
        },
        true,
        5,
        Ok(Word4 { aval: 5, bval: 0 }),
    ),
    (
        Pointer::At {
            serial: 8,
            offset: 0,
        },
        false,
        6,
        Ok(Word4 { aval: 5, bval: 6 }),
    ),
    (
        Pointer::At {
            serial: 8,
            offset: 0,
        },
        true,
        0,
        Ok(Word4 { aval: 0, bval: 6 }),
    ),
    (
        Pointer::At {
            serial: 7,
            offset: 1,
        },
        false,
        3,
        Ok(Word4 { aval: 0, bval: 1 }),
    ),
];

#[test]
fn a_store_into_a_member_keeps_the_other_one(rt: HostRuntime) -> Result<(), Fail> {
    let mut memory = sample(rt.alloc())?;
    let mut steps = Steps::new(PlainLedger::new());
    for &(p, aval, value, wanted) in MEMBERS {
        let stored = memory.store_member(p, aval, value, &mut steps);
        assert_eq!(rt; stored, wanted.map(|_| ()), "{p:?} {aval}");
        if stored.is_ok() {
            let found = memory.load(p, CellType::LogicPair, &mut steps);
            assert_eq!(rt; found, wanted.map(CCell::Pair), "{p:?} {aval}");
        }
    }
    Ok(())
}

/// Pointer, cells to move, and the place reached.
const MOVES: &[(Pointer, i64, Result<Pointer, MemTrap>)] = &[
    (Pointer::Null, 0, Err(MemTrap::Null)),
    (
        Pointer::At {
            serial: 4,
            offset: 0,
        },
        9,
        Err(MemTrap::Dead),
    ),
    (
        Pointer::At {
            serial: 1,
            offset: 0,
        },
        -1,
        Err(MemTrap::OutOfBounds),
    ),
    (
        Pointer::At {
            serial: 1,
            offset: 0,
        },
        4,
        Err(MemTrap::OutOfBounds),
    ),
    (
        Pointer::At {
            serial: 1,
            offset: 3,
        },
        1,
        Err(MemTrap::OutOfBounds),
    ),
    (
        Pointer::At {
            serial: 1,
            offset: 1,
        },
        i64::MIN,
        Err(MemTrap::OutOfBounds),
    ),
    (
        Pointer::At {
            serial: 1,
            offset: 1,
        },
        i64::MAX,
        Err(MemTrap::OutOfBounds),
    ),
    (
        Pointer::At {
            serial: 1,
            offset: 0,
        },
        3,
        Ok(Pointer::At {
            serial: 1,
            offset: 3,
        }),
    ),
    (
        Pointer::At {
            serial: 1,
            offset: 3,
        },
        -3,
        Ok(Pointer::At {
            serial: 1,
            offset: 0,
        }),
    ),
    (
        Pointer::At {
            serial: 1,
            offset: 3,
        },
        0,
        Ok(Pointer::At {
            serial: 1,
            offset: 3,
        }),
    ),
    (
        Pointer::At {
            serial: 2,
            offset: 1,
        },
        1,
        Ok(Pointer::At {
            serial: 2,
            offset: 2,
        }),
    ),
];

#[test]
fn a_move_stays_in_the_object_or_goes_one_past_it(rt: HostRuntime) -> Result<(), Fail> {
    let memory = sample(rt.alloc())?;
    for &(p, n, wanted) in MOVES {
        assert_eq!(rt; memory.move_by(p, n), wanted, "{p:?} {n}");
    }
    Ok(())
}

/// Two pointers, their order and their difference.
const PAIRS: &[(Pointer, Pointer, Result<(Ordering, i64), MemTrap>)] = &[
    (
        Pointer::Null,
        Pointer::At {
            serial: 4,
            offset: 0,
        },
        Err(MemTrap::Null),
    ),
    (
        Pointer::At {
            serial: 1,
            offset: 0,
        },
        Pointer::Null,
        Err(MemTrap::Null),
    ),
    (
        Pointer::At {
            serial: 1,
            offset: 0,
        },
        Pointer::At {
            serial: 4,
            offset: 0,
        },
        Err(MemTrap::Dead),
    ),
    (
        Pointer::At {
            serial: 4,
            offset: 0,
        },
        Pointer::At {
            serial: 4,
            offset: 0,
        },
        Err(MemTrap::Dead),
    ),
    (
        Pointer::At {
            serial: 1,
            offset: 0,
        },
        Pointer::At {
            serial: 2,
            offset: 0,
        },
        Err(MemTrap::DifferentObjects),
    ),
    (
        Pointer::At {
            serial: 1,
            offset: 0,
        },
        Pointer::At {
            serial: 1,
            offset: 3,
        },
        Ok((Ordering::Less, -3)),
    ),
    (
        Pointer::At {
            serial: 1,
            offset: 2,
        },
        Pointer::At {
            serial: 1,
            offset: 1,
        },
        Ok((Ordering::Greater, 1)),
    ),
    (
        Pointer::At {
            serial: 1,
            offset: 1,
        },
        Pointer::At {
            serial: 1,
            offset: 1,
        },
        Ok((Ordering::Equal, 0)),
    ),
];

#[test]
fn two_pointers_compare_in_one_object_alone(rt: HostRuntime) -> Result<(), Fail> {
    let memory = sample(rt.alloc())?;
    for &(p, q, wanted) in PAIRS {
        assert_eq!(rt; memory.compare(p, q), wanted.map(|w| w.0), "{p:?} {q:?}");
        assert_eq!(rt; memory.difference(p, q), wanted.map(|w| w.1), "{p:?} {q:?}");
    }
    Ok(())
}

#[test]
fn filling_looks_at_no_flag_and_numbers_are_never_used_twice(rt: HostRuntime) -> Result<(), Fail> {
    let mut memory: Memory<PlainLedger> = Memory::new(rt.alloc());
    let mut steps = Steps::new(PlainLedger::new());
    let first = memory.new_object(CHAR, 1, false, false)?;
    memory.set_cell(first, CCell::Number(0x141));
    assert_eq!(rt;
        memory.load(first, CHAR, &mut steps),
        Ok(CCell::Number(0x41))
    );
    memory.kill(first);
    let second = memory.new_object(CHAR, 1, true, true)?;
    assert_eq!(rt;
        (first, second),
        (
            Pointer::At {
                serial: 1,
                offset: 0
            },
            Pointer::At {
                serial: 2,
                offset: 0
            }
        )
    );
    assert_eq!(rt; memory.load(first, CHAR, &mut steps), Err(MemTrap::Dead));
    assert_eq!(rt; (Pointer::null().is_null(), first.is_null()), (true, false));
    Ok(())
}
