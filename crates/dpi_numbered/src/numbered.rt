//! A list whose entries have numbers.
ghost use Rattle.std.specs.Prelude.{◌≡◌, ◌<◌, Some, IfOk, length, slice_get};

use dpi_ports::NoMemory;
use std::marker::Model;

/// A list whose entries are numbered from 0 by 32 bits.
#[derive(Drop)]
pub struct Numbered<T> {
    entries: Vec<T>,
}

impl<T> Model for Numbered<T> {
    ghost use Rattle.std.specs.Prelude.{List, ◌<◌, ◌^◌, length};
    ghost use Rattle.std.specs.Coded.{coded_list};

    ghost Value = { List T };

    ghost coded = { coded_list T.code };

    ghost view = { λ n. n.entries.items };

    ghost invariant = { λ n. length n.entries.items < 2 ^ 32 };
}

impl<T: Drop> Numbered<T> {
    /// The list of these entries. NoMemory where one of them has a number of more than 32 bits.
    pub fn new(entries: Vec<T>) -> Result<Numbered<T>, NoMemory>
        ensures { IfOk result (λ n. n ≡ entries.items) }
    {
        if entries.len() > u32::MAX as usize {
            return Err(NoMemory);
        }
        Ok(Numbered { entries })
    }
}

impl<T> Numbered<T> {
    /// How many entries there are.
    pub fn len(&self) -> u32
        ensures { result ≡ length self.now }
    {
        self.entries.len() as u32
    }

    /// The entry of this number, from 0.
    pub fn get(&self, number: u32) -> &T
        requires { number < length self.now }
        ensures { slice_get self.now number ≡ Some result.now }
    {
        &self.entries[number as usize]
    }

    /// The entries in order.
    pub fn as_slice(&self) -> &[T]
        ensures { result.now ≡ self.now }
    {
        &self.entries
    }
}
