//! Chains of three operators over bytes, with the values that their groups have by hand.

ghost use Rattle.std.specs.Prelude.{◌-◌, bit_and, bit_or};
ghost use Rattle.dpi_chain.specs.declared.tests.Sign.TheVariants.{Or, Without, And};

use crate::chain::Chain;
use crate::operator::Operator;
use dpi_ports::NoMemory;
use std::alloc::Global;

/// The bits of either side, those of the left one that the right one hasn't, and those of both.
#[derive(Clone, Copy, Drop)]
enum Sign {
    Or,
    Without,
    And,
}

impl Operator for Sign {
    type Value = u8;

    ghost rank_of = { elim [ Or ↦ 1 | Without ↦ 2 | And ↦ 3 ] };

    ghost joined = { λ s. λ l r. elim s [ Or ↦ bit_or l r | Without ↦ bit_and l (255 - r) | And ↦ bit_and l r ] };

    fn rank(self) -> u32 {
        match self {
            Sign::Or => 1,
            Sign::Without => 2,
            Sign::And => 3,
        }
    }

    fn join(self, _alloc: Global, left: u8, right: u8) -> Result<u8, NoMemory> {
        Ok(match self {
            Sign::Or => left | right,
            Sign::Without => left & !right,
            Sign::And => left & right,
        })
    }
}

fn value_of(alloc: Global, first: u8, rest: &[(Sign, u8)]) -> Result<u8, NoMemory> {
    let mut chain = Chain::new(alloc, first);
    for (sign, operand) in rest {
        chain = chain.with(alloc, *sign, *operand)?;
    }
    chain.value(alloc)
}

/// A first operand, the operators with theirs, and the value.
const ROWS: [(u8, &[(Sign, u8)], u8); 8] = [
    (0b1010, &[], 0b1010),
    (0b1010, &[(Sign::Or, 0b0001)], 0b1011),
    // from the left: what is taken away first stays away
    (
        0b1111,
        &[(Sign::Without, 0b0110), (Sign::Without, 0b0011)],
        0b1000,
    ),
    // `And` before `Or`, on either side
    (0b1000, &[(Sign::Or, 0b0110), (Sign::And, 0b0011)], 0b1010),
    (0b1100, &[(Sign::And, 0b0110), (Sign::Or, 0b0001)], 0b0101),
    // three ranks, rising and falling
    (
        0b0001,
        &[
            (Sign::Or, 0b1110),
            (Sign::Without, 0b0110),
            (Sign::And, 0b0011),
        ],
        0b1101,
    ),
    (
        0b1111,
        &[
            (Sign::And, 0b0111),
            (Sign::Without, 0b0011),
            (Sign::Or, 0b1000),
        ],
        0b1100,
    ),
    // a weaker operator completes both that stand before it
    (
        0b1000,
        &[
            (Sign::Or, 0b0111),
            (Sign::And, 0b0110),
            (Sign::Or, 0b0001),
            (Sign::Without, 0b1111),
        ],
        0b1110,
    ),
];

#[test]
fn chains_group_by_rank_and_from_the_left(rt: HostRuntime) -> Result<(), NoMemory> {
    for (first, rest, value) in ROWS {
        assert_eq!(rt;
            value_of(rt.alloc(), first, rest)?,
            value,
            "{first} {value}"
        );
    }
    Ok(())
}
