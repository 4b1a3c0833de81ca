//! All live objects, found by their numbers.
ghost use Rattle.std.specs.Prelude.{◌≡◌, ◌^◌, ◌<◌, ◌≤◌, MatchOption};
ghost use Rattle.c_memory.specs.Rows.{AreRising, IsAt, IsAbsent};

use crate::ccell::CCell;
use crate::object::Object;
use dpi_ports::NoMemory;
use slab::Slab;
use std::alloc::Global;
use std::marker::Model;

/// Where the object of a number stands in the slab.
#[derive(Clone, Copy, Debug, PartialEq, Eq)]
pub(crate) struct Row {
    pub(crate) serial: u64,
    pub(crate) key: usize,
}

/// The row of a number, by halving.
fn place_of(rows: &[Row], serial: u64) -> Option<usize>
    requires { AreRising rows.now }
    ensures { MatchOption result (IsAbsent rows.now serial) (IsAt rows.now serial) }
{
    rows.binary_search_by_key(&serial, |row| row.serial).ok()
}

/// The live objects, the rows that find them in rising order of numbers, and the last number given.
#[derive(Drop)]
pub(crate) struct Objects {
    rows: Vec<Row>,
    slab: Slab<Object>,
    given: u64,
}

impl Model for Objects {
    ghost use Rattle.c_memory.specs.Memory.{CMemory};

    ghost Value = { CMemory };

    ghost use Rattle.c_memory.specs.Seen.{seen, IsKept};

    ghost view = { seen };

    ghost invariant = { IsKept };
}

impl Objects {
    ghost use Rattle.std.specs.Prelude.{None, Some, [], ◌∷◌, ◌++◌, ◌+◌, length, slice_set};
    ghost use Rattle.std.specs.Prelude.{IsSome, IfSome, IsTrue, IsOk, IfOk, OnOk, OnErr};
    ghost use Rattle.std.specs.Option.{option_copied};
    ghost use Rattle.c_memory.specs.CellType.{fits};
    ghost use Rattle.c_memory.specs.Memory.{object_at, cells_at, begun, put_at};

    /// No object; number 0 is nobody's.
    pub(crate) fn new(alloc: Global) -> Objects
        ensures { result.objects ≡ None ∷ [] }
    {
        Objects {
            rows: Vec::new(alloc),
            slab: Slab::new(alloc),
            given: 0,
        }
    }

    /// Makes room for so many more objects.
    pub(crate) fn reserve(&mut self, n: u32) -> Result<(), NoMemory>
        ensures room { OnOk result (n ≤ self.new.spare) }
        ensures numbers { OnOk result (length self.new.objects + n ≤ 2 ^ 64) }
        ensures enough { 0 < n → n ≤ self.old.spare → IsOk result }
        ensures objects { self.new.objects ≡ self.old.objects }
        ensures spare { self.old.spare ≤ self.new.spare }
    {
        if u64::MAX - self.given < u64::from(n) {
            return Err(NoMemory);
        }
        self.rows.reserve(n as usize)?;
        self.slab.reserve(n as usize)?;
        Ok(())
    }

    /// The object of this number, if it is alive.
    pub(crate) fn get(&self, serial: u64) -> Option<&Object>
        ensures { option_copied result ≡ object_at self.now serial }
    {
        let place = place_of(&self.rows, serial)?;
        self.slab.get(self.rows[place].key)
    }

    /// Gives the object the next number.
    pub(crate) fn begin(&mut self, object: Object) -> Result<u64, NoMemory>
        ensures number { IfOk result (λ serial. serial ≡ length self.old.objects) }
        ensures objects { OnOk result (self.new.objects ≡ begun self.old object) }
        ensures spare { self.old.spare ≤ self.new.spare + 1 }
        ensures err { OnErr result (self.new.objects ≡ self.old.objects) }
    {
        self.reserve(1)?;
        let serial = self.given + 1;
        let key = self.slab.insert_reserved(object);
        self.rows.push(Row { serial, key }).unwrap();
        self.given = serial;
        Ok(serial)
    }

    /// Writes the used bits of the value into a cell of a live object.
    pub(crate) fn put(&mut self, serial: u64, place: u32, cell: CCell)
        requires inside { place < length (cells_at self.old serial) }
        requires typed { IfSome (object_at self.old serial) (λ o. IsTrue (fits o.of cell)) }
        ensures { self.new ≡ put_at self.old serial place cell }
    {
        if let Some(at) = place_of(&self.rows, serial) {
            self.slab[self.rows[at].key].put(place, cell);
        }
    }

    /// Ends a live object. Its number is never given again.
    pub(crate) fn end(&mut self, serial: u64)
        requires { IsSome (object_at self.old serial) }
        ensures objects { self.new.objects ≡ slice_set self.old.objects serial None }
        ensures spare { self.old.spare ≤ self.new.spare }
    {
        if let Some(at) = place_of(&self.rows, serial) {
            let row = self.rows.remove(at);
            drop(self.slab.remove(row.key));
        }
    }
}
