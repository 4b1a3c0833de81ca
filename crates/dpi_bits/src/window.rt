//! Runs of 32 bits that begin at any bit, which parts, shifts and extensions are made of.

ghost use Rattle.std.specs.Prelude.{◌≡◌, ◌+◌, ◌-◌, ◌*◌, ◌<◌, ◌≤◌, ℕ, length, pos, slice_index_or, IfOk, IsOk};
ghost use Rattle.std.specs.Int.{bit_at};
ghost use Rattle.dpi_bits.specs.declared.bit.Bit.TheVariants.{Zero};
ghost use Rattle.dpi_bits.specs.Words.{bit_in, bits_of, held, blank};
ghost use Rattle.dpi_bits.specs.Parts.{spread};
ghost use Rattle.dpi_bits.specs.Layout.{overlaid, window_from, window_onto};

use crate::bit::Bit;
use crate::packed::Packed;
use crate::word::{Word4, ones_between};
use dpi_ports::NoMemory;
use smallvec::SmallVec;
use std::alloc::Global;

/// Which bits of a list are taken: those from bit `start` on of the list raised by `back` bits,
/// with `outside` wherever there is none.
#[derive(Clone, Copy, Drop)]
pub(crate) struct Window {
    pub(crate) start: u32,
    pub(crate) back: u32,
    pub(crate) outside: Bit,
}

/// How many bits before bit 0 a window may begin.
pub(crate) const BELOW: u32 = 2048;

/// The 32 digits from digit `by` on of two numbers of 32 digits each.
fn slide(low: u32, high: u32, by: u32) -> u32
    requires { by < 32 }
    ensures near { (i : ℕ) → i < 32 → i + by < 32 → bit_at result i ≡ bit_at low (i + by) }
    ensures far { (i : ℕ) → i < 32 → 32 ≤ i + by → bit_at result i ≡ bit_at high (i + by - 32) }
{
    let both = ((high as u64) << 32) | low as u64;
    ((both >> by) & 0xffff_ffff) as u32
}

/// The word of that number, counted from `BELOW` bits before the first; a blank one outside.
pub(crate) fn word_or_blank(words: &[Word4], number: u32) -> Word4
    requires { number < 4096 }
    ensures below { number < 64 → result ≡ blank }
    ensures inside { 64 ≤ number → result ≡ slice_index_or words.now (number - 64) blank }
{
    let first = BELOW / 32;
    if number >= first && ((number - first) as usize) < words.len() {
        words[(number - first) as usize]
    } else {
        Word4 { aval: 0, bval: 0 }
    }
}

/// The 32 bits from bit `at - BELOW` on, those outside of the words 0.
fn run_at(words: &[Word4], at: u32) -> Word4
    requires { at < 65536 }
    ensures below { (i : ℕ) → i < 32 → at + i < 2048 → bit_in result i ≡ Zero }
    ensures inside { (i : ℕ) → i < 32 → 2048 ≤ at + i
        → bit_in result i ≡ held words.now (at + i - 2048) }
{
    let low = word_or_blank(words, at / 32);
    let high = word_or_blank(words, at / 32 + 1);
    Word4 {
        aval: slide(low.aval, high.aval, at % 32),
        bval: slide(low.bval, high.bval, at % 32),
    }
}

impl Window {
    /// The window that begins at bit 0.
    pub(crate) fn whole(outside: Bit) -> Window
        ensures { result ≡ window_from (pos 0) outside }
    {
        Window {
            start: 0,
            back: 0,
            outside,
        }
    }

    /// The window that begins at a bit of a list, which may lie outside of it.
    pub(crate) fn from_bit(low: i64, outside: Bit) -> Window
        ensures { result ≡ window_from low outside }
    {
        let far = low.unsigned_abs().min(1024) as u32;
        if low < 0 {
            Window {
                start: 0,
                back: far,
                outside,
            }
        } else {
            Window {
                start: far,
                back: 0,
                outside,
            }
        }
    }

    /// The window through which a list lies from a bit of another on, which may lie outside.
    pub(crate) fn onto_bit(low: i64) -> Window
        ensures { result ≡ window_onto low }
    {
        let from = Window::from_bit(low, Bit::Zero);
        Window {
            start: from.back,
            back: from.start,
            outside: Bit::Zero,
        }
    }

    /// A mask of the places, among the 32 from bit `skip` on, where the window finds one of so
    /// many bits.
    fn cover(self, bits: u32, skip: u32) -> u32
        requires bits { bits ≤ 1024 }
        requires start { self.start ≤ 2048 }
        requires back { self.back ≤ 2048 }
        requires skip { skip ≤ 1024 }
        ensures before { (i : ℕ) → i < 32 → self.start + (skip + i) < self.back
            → bit_at result i ≡ 0 }
        ensures inside { (i : ℕ) → i < 32 → self.back ≤ self.start + (skip + i)
            → self.start + (skip + i) - self.back < bits → bit_at result i ≡ 1 }
        ensures past { (i : ℕ) → i < 32 → self.back ≤ self.start + (skip + i)
            → bits ≤ self.start + (skip + i) - self.back → bit_at result i ≡ 0 }
    {
        let at = self.start + skip;
        let low = self.back.saturating_sub(at).min(32);
        let high = (bits + self.back).saturating_sub(at).min(32);
        ones_between(low, high)
    }

    /// The 32 bits from bit `skip` on of what the window takes of the first `bits` bits of the
    /// words, and those of `old` where it takes none; past the width they are 0.
    fn over(self, from: &[Word4], bits: u32, skip: u32, width: u32, old: Word4) -> Word4
        requires bits { bits ≤ 1024 }
        requires start { self.start ≤ 2048 }
        requires back { self.back ≤ 2048 }
        requires skip { skip ≤ 1024 }
        requires width { width ≤ 1024 }
        ensures { (i : ℕ) → i < 32
            → bit_in result i
            ≡ overlaid from.now bits self.start self.back width (skip + i) (bit_in old i) }
    {
        let used = width.saturating_sub(skip).min(32);
        run_at(from, self.start + skip + BELOW - self.back)
            .choose(self.cover(bits, skip), old)
            .choose(ones_between(0, used), Word4::filled(Bit::Zero))
    }
}

/// What the window takes of the first `bits` bits of the words, as many as the width.
pub(crate) fn gather(
    alloc: Global,
    from: &[Word4],
    bits: u32,
    window: Window,
    width: u32,
) -> Result<Packed, NoMemory>
    requires bits { bits ≤ 1024 }
    requires start { window.start ≤ 2048 }
    requires back { window.back ≤ 2048 }
    requires least { 1 ≤ width }
    requires most { width ≤ 1024 }
    ensures bits { IfOk result
        (λ r. r ≡ spread (bits_of bits from.now) window.start window.back window.outside width) }
    ensures inline { width ≤ 128 → IsOk result }
{
    let count = width.div_ceil(32);
    let mut words = SmallVec::with_capacity(alloc, count as usize)?;
    let outside = Word4::filled(window.outside);
    for j in 0..count {
        words.push_reserved(window.over(from, bits, 32 * j, width, outside));
    }
    Ok(Packed { width, words })
}

/// Puts what the window takes of the first `bits` bits of the words `from` into a list of so
/// many bits.
pub(crate) fn overlay(words: &mut [Word4], width: u32, from: &[Word4], bits: u32, window: Window)
    requires bits { bits ≤ 1024 }
    requires start { window.start ≤ 2048 }
    requires back { window.back ≤ 2048 }
    requires width { width ≤ 1024 }
    requires count { length words.old ≤ 32 }
    ensures { (i : ℕ) → i < 32 * length words.old
        → held words.new i
        ≡ overlaid from.now bits window.start window.back width i (held words.old i) }
{
    for j in 0..words.len() {
        words[j] = window.over(from, bits, 32 * j as u32, width, words[j]);
    }
}
