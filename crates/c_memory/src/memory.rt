//! The memory: making and ending objects.
ghost use Rattle.std.specs.Prelude.{◌≡◌, ◌+◌, ◌^◌, ◌<◌, ◌≤◌, ◌∷◌, [], None, true, length};
ghost use Rattle.std.specs.Prelude.{slice_set, IsOk, IfOk, OnOk, OnErr};

use crate::ccell::CCell;
use crate::cell_type::CellType;
use crate::object::Object;
use crate::objects::Objects;
use crate::pointer::Pointer;
use dpi_ports::{Ledger, NoMemory};
use dpi_shape::Shape;
use std::alloc::Global;
use std::marker::{Model, PhantomData};

/// The memory of C. Contracts see it as the list of all objects by number, None where one has
/// ended, and as the number of objects that can begin without memory. `L` is the ledger of the run.
#[derive(Drop)]
pub struct Memory<L> {
    pub(crate) objects: Objects,
    alloc: Global,
    ledger: PhantomData<L>,
}

impl<L> Model for Memory<L> {
    ghost use Rattle.c_memory.specs.Memory.{CMemory};

    ghost Value = { CMemory };

    ghost view = { λ m. m.objects };
}

impl<L: Ledger> Memory<L> {
    ghost use Rattle.c_memory.specs.Pointer.{serial_of};
    ghost use Rattle.c_memory.specs.CellType.{IsCellType};
    ghost use Rattle.c_memory.specs.Object.{fresh_object};
    ghost use Rattle.c_memory.specs.Memory.{IsStart, CanHold, begun, stored, shaped_object};

    /// A memory without objects. The first one has number 1.
    pub fn new(alloc: Global) -> Memory<L>
        ensures { result.objects ≡ None ∷ [] }
    {
        Memory {
            objects: Objects::new(alloc),
            alloc,
            ledger: PhantomData,
        }
    }

    /// Makes room for `n` more objects, so that their beginning takes no memory. `NoMemory` comes
    /// for want of it, and where fewer numbers are left, since the last one is 2^64 - 1. It doesn't
    /// come where there is room for all of one or more objects already.
    pub fn reserve_objects(&mut self, n: u32) -> Result<(), NoMemory>
        ensures room { OnOk result (n ≤ self.new.spare) }
        ensures numbers { OnOk result (length self.new.objects + n ≤ 2 ^ 64) }
        ensures enough { 0 < n → n ≤ self.old.spare → IsOk result }
        ensures objects { self.new.objects ≡ self.old.objects }
        ensures spare { self.old.spare ≤ self.new.spare }
    {
        self.objects.reserve(n)
    }

    /// A new object of so many cells under the next number, each cell zero or without a value, and
    /// the pointer to its start. `NoMemory` comes for want of it, and where no number is left.
    pub fn new_object(
        &mut self,
        of: CellType,
        cells: u32,
        writable: bool,
        zero: bool,
    ) -> Result<Pointer, NoMemory>
        requires { IsCellType of }
        ensures start { IfOk result (λ p. p ≡ Pointer.At (length self.old.objects) 0) }
        ensures objects { OnOk result (self.new.objects
            ≡ begun self.old (fresh_object of None cells writable zero)) }
        ensures spare { self.old.spare ≤ self.new.spare + 1 }
        ensures err { OnErr result (self.new.objects ≡ self.old.objects) }
    {
        let object = Object::fresh(self.alloc, of, None, cells, writable, zero)?;
        let serial = self.objects.begin(object)?;
        Ok(Pointer::At { serial, offset: 0 })
    }

    /// A new object of the shape's cells under the next number, with C's types for them and the
    /// shape's used bits; each cell is 0 (IEEE 1800-2017, H.7).
    pub fn new_shaped(&mut self, shape: &Shape, writable: bool) -> Result<Pointer, NoMemory>
        ensures start { IfOk result (λ p. p ≡ Pointer.At (length self.old.objects) 0) }
        ensures objects { OnOk result (self.new.objects
            ≡ begun self.old (shaped_object shape.now writable)) }
        ensures spare { self.old.spare ≤ self.new.spare + 1 }
        ensures err { OnErr result (self.new.objects ≡ self.old.objects) }
    {
        let leaf = shape.leaf();
        let of = CellType::of_leaf(leaf);
        let object = Object::fresh(self.alloc, of, Some(leaf), shape.cells(), writable, true)?;
        let serial = self.objects.begin(object)?;
        Ok(Pointer::At { serial, offset: 0 })
    }

    /// Ends the object that starts at `p`. Pointers into it are dead from then on, for good.
    pub fn kill(&mut self, p: Pointer)
        requires { IsStart self.old p }
        ensures objects { self.new.objects ≡ slice_set self.old.objects (serial_of p) None }
        ensures spare { self.old.spare ≤ self.new.spare }
    {
        self.objects.end(p.serial());
    }

    /// Fills a cell, whether or not C may store there: the used bits of the value.
    pub fn set_cell(&mut self, p: Pointer, cell: CCell)
        requires { CanHold self.old p cell }
        ensures { self.new ≡ stored self.old p cell }
    {
        self.objects.put(p.serial(), p.offset(), cell);
    }
}
