//! Words of 32 bits of four states, as C has them (IEEE 1800-2017, H.10.1.2), and the bitwise
//! tables on all bits of a word at once.

ghost use Rattle.std.specs.Prelude.{◌≡◌, ◌-◌, ◌*◌, ◌^◌, ◌<◌, ◌≤◌, ℕ, length};
ghost use Rattle.std.specs.Int.{bit_at};
ghost use Rattle.dpi_bits.specs.Bits.{table_bit};
ghost use Rattle.dpi_bits.specs.Lists.{two_state};
ghost use Rattle.dpi_bits.specs.Words.{bit_in, held, bit_of as spec_bit_of};

use crate::bit::Bit;

/// 32 bits of four states, the lowest first: (aval, bval) is (0,0) for 0, (1,0) for 1, (0,1) for
/// z and (1,1) for x.
#[derive(Clone, Copy, Debug, Default, Drop, PartialEq, Eq)]
pub struct Word4 {
    /// One digit of each bit: 1 for 1 and x.
    pub aval: u32,
    /// The other digit of each bit: 1 for z and x.
    pub bval: u32,
}

/// A bitwise operator of two operands.
#[derive(Clone, Copy, Debug, Drop, PartialEq, Eq)]
pub(crate) enum Table {
    /// `&`.
    And,
    /// `|`.
    Or,
    /// `^`.
    Xor,
    /// The merge of both branches of `?:` under an unknown condition.
    Merge,
}

impl Table {
    /// The operator on each bit of two words.
    pub(crate) fn of_words(self, a: Word4, b: Word4) -> Word4
        ensures { (i : ℕ) → i < 32 → bit_in result i ≡ table_bit self (bit_in a i) (bit_in b i) }
    {
        match self {
            Table::And => and_words(a, b),
            Table::Or => or_words(a, b),
            Table::Xor => xor_words(a, b),
            Table::Merge => merge_words(a, b),
        }
    }
}

fn and_words(a: Word4, b: Word4) -> Word4
    ensures { (i : ℕ) → i < 32 → bit_in result i ≡ table_bit Table.And (bit_in a i) (bit_in b i) }
{
    let not_zero = (a.aval | a.bval) & (b.aval | b.bval);
    Word4 {
        aval: not_zero,
        bval: not_zero & (a.bval | b.bval),
    }
}

fn or_words(a: Word4, b: Word4) -> Word4
    ensures { (i : ℕ) → i < 32 → bit_in result i ≡ table_bit Table.Or (bit_in a i) (bit_in b i) }
{
    let one = without(a.aval, a.bval) | without(b.aval, b.bval);
    let unknown = a.bval | b.bval;
    Word4 {
        aval: one | unknown,
        bval: without(unknown, one),
    }
}

fn xor_words(a: Word4, b: Word4) -> Word4
    ensures { (i : ℕ) → i < 32 → bit_in result i ≡ table_bit Table.Xor (bit_in a i) (bit_in b i) }
{
    let unknown = a.bval | b.bval;
    Word4 {
        aval: (a.aval ^ b.aval) | unknown,
        bval: unknown,
    }
}

fn merge_words(a: Word4, b: Word4) -> Word4
    ensures { (i : ℕ) → i < 32 → bit_in result i ≡ table_bit Table.Merge (bit_in a i) (bit_in b i) }
{
    let unknown = (a.aval ^ b.aval) | a.bval | b.bval;
    Word4 {
        aval: a.aval | unknown,
        bval: unknown,
    }
}

impl Word4 {
    /// 32 equal bits.
    pub(crate) fn filled(bit: Bit) -> Word4
        ensures { (i : ℕ) → i < 32 → bit_in result i ≡ bit }
    {
        let (aval, bval) = match bit {
            Bit::Zero => (0, 0),
            Bit::One => (u32::MAX, 0),
            Bit::Z => (0, u32::MAX),
            Bit::X => (u32::MAX, u32::MAX),
        };
        Word4 { aval, bval }
    }

    /// The bits of this word where the mask has a 1, and of the other where it has a 0.
    pub(crate) fn choose(self, mask: u32, other: Word4) -> Word4
        ensures inside { (i : ℕ) → i < 32 → bit_at mask i ≡ 1 → bit_in result i ≡ bit_in self i }
        ensures outside { (i : ℕ) → i < 32 → bit_at mask i ≡ 0 → bit_in result i ≡ bit_in other i }
    {
        Word4 {
            aval: (self.aval & mask) | without(other.aval, mask),
            bval: (self.bval & mask) | without(other.bval, mask),
        }
    }

    /// The bit at a place of the word.
    pub(crate) fn bit(self, i: u32) -> Bit
        requires { i < 32 }
        ensures { result ≡ bit_in self i }
    {
        bit_of((self.aval >> i) & 1, (self.bval >> i) & 1)
    }
}

/// The bit for which two digits stand.
fn bit_of(aval: u32, bval: u32) -> Bit
    ensures { result ≡ spec_bit_of aval bval }
{
    match (aval == 0, bval == 0) {
        (true, true) => Bit::Zero,
        (false, true) => Bit::One,
        (true, false) => Bit::Z,
        (false, false) => Bit::X,
    }
}

/// The digits of `x` where `y` has a 0.
pub(crate) fn without(x: u32, y: u32) -> u32
    ensures { (i : ℕ) → i < 32 → bit_at result i ≡ bit_at x i - bit_at y i }
{
    x & !y
}

/// The number whose digits in base two are 1 from `low` on and below `high`.
pub(crate) fn ones_between(low: u32, high: u32) -> u32
    requires order { low ≤ high }
    requires within { high ≤ 32 }
    ensures below { (i : ℕ) → i < low → bit_at result i ≡ 0 }
    ensures inside { (i : ℕ) → low ≤ i → i < high → bit_at result i ≡ 1 }
    ensures above { (i : ℕ) → high ≤ i → bit_at result i ≡ 0 }
{
    ((1u64 << high) - (1u64 << low)) as u32
}

/// Turns x and z into 0 in each word.
pub(crate) fn clear_unknown(words: &mut [Word4])
    ensures { (i : ℕ) → i < 32 * length words.old
        → held words.new i ≡ two_state (held words.old i) }
{
    for j in 0..words.len() {
        let word = words[j];
        words[j] = Word4 {
            aval: without(word.aval, word.bval),
            bval: 0,
        };
    }
}

/// The operator on each bit of two lists of words, left in the first.
pub(crate) fn combine(table: Table, words: &mut [Word4], other: &[Word4])
    requires { length words.old ≡ length other.now }
    ensures { (i : ℕ) → i < 32 * length words.old
        → held words.new i ≡ table_bit table (held words.old i) (held other.now i) }
{
    for j in 0..words.len() {
        words[j] = table.of_words(words[j], other[j]);
    }
}

/// The word itself, whose two numbers are known to have 32 digits.
pub(crate) fn fitting(word: Word4) -> Word4
    ensures word { result ≡ word }
    ensures aval { result.aval < 2 ^ 32 }
    ensures bval { result.bval < 2 ^ 32 }
{
    Word4 {
        aval: word.aval,
        bval: word.bval,
    }
}
