//! The bitwise operators (IEEE 1800-2017, 11.4.8).

ghost use Rattle.std.specs.Prelude.{◌≡◌, ◌≤◌, length, map, IfOk, IsOk};
ghost use Rattle.dpi_bits.specs.Bits.{table_bit, not_bit, and_bit, or_bit, xor_bit, merge_bit};
ghost use Rattle.dpi_bits.specs.Lists.{pairwise};

use crate::bit::Bit;
use crate::packed::Packed;
use crate::word::{Table, combine};
use dpi_ports::NoMemory;
use std::alloc::Global;

impl Packed {
    /// `~`: each bit inverted, x for x and z (IEEE 1800-2017, Table 11-15). `NoMemory` comes
    /// only past 128 bits.
    pub fn not(&self, alloc: Global) -> Result<Packed, NoMemory>
        ensures bits { IfOk result (λ r. r ≡ map not_bit self.now) }
        ensures inline { length self.now ≤ 128 → IsOk result }
    {
        let mut inverted = Packed::filled(alloc, self.width(), Bit::One)?;
        inverted.combine_with(Table::Xor, self);
        Ok(inverted)
    }

    /// `&` bit by bit (IEEE 1800-2017, Table 11-11), on values of one width. `NoMemory` comes
    /// only past 128 bits.
    pub fn and(&self, alloc: Global, other: &Packed) -> Result<Packed, NoMemory>
        requires { length self.now ≡ length other.now }
        ensures bits { IfOk result (λ r. r ≡ pairwise and_bit self.now other.now) }
        ensures inline { length self.now ≤ 128 → IsOk result }
    {
        self.combined(alloc, Table::And, other)
    }

    /// `|` bit by bit (IEEE 1800-2017, Table 11-12), on values of one width. `NoMemory` comes
    /// only past 128 bits.
    pub fn or(&self, alloc: Global, other: &Packed) -> Result<Packed, NoMemory>
        requires { length self.now ≡ length other.now }
        ensures bits { IfOk result (λ r. r ≡ pairwise or_bit self.now other.now) }
        ensures inline { length self.now ≤ 128 → IsOk result }
    {
        self.combined(alloc, Table::Or, other)
    }

    /// `^` bit by bit (IEEE 1800-2017, Table 11-13), on values of one width. `NoMemory` comes
    /// only past 128 bits.
    pub fn xor(&self, alloc: Global, other: &Packed) -> Result<Packed, NoMemory>
        requires { length self.now ≡ length other.now }
        ensures bits { IfOk result (λ r. r ≡ pairwise xor_bit self.now other.now) }
        ensures inline { length self.now ≤ 128 → IsOk result }
    {
        self.combined(alloc, Table::Xor, other)
    }

    /// What `?:` gives under an unknown condition, on branches of one width: each bit that is
    /// the same known bit in both, else x (IEEE 1800-2017, Table 11-20). `NoMemory` comes only
    /// past 128 bits.
    pub fn merge(&self, alloc: Global, other: &Packed) -> Result<Packed, NoMemory>
        requires { length self.now ≡ length other.now }
        ensures bits { IfOk result (λ r. r ≡ pairwise merge_bit self.now other.now) }
        ensures inline { length self.now ≤ 128 → IsOk result }
    {
        self.combined(alloc, Table::Merge, other)
    }

    fn combined(&self, alloc: Global, table: Table, other: &Packed) -> Result<Packed, NoMemory>
        requires { length self.now ≡ length other.now }
        ensures bits { IfOk result (λ r. r ≡ pairwise (table_bit table) self.now other.now) }
        ensures inline { length self.now ≤ 128 → IsOk result }
    {
        let mut whole = self.copied(alloc)?;
        whole.combine_with(table, other);
        Ok(whole)
    }

    fn combine_with(&mut self, table: Table, other: &Packed)
        requires { length self.old ≡ length other.now }
        ensures { self.new ≡ pairwise (table_bit table) self.old other.now }
    {
        combine(table, self.words.as_mut_slice(), other.words.as_slice());
    }
}
