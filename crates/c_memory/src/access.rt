//! Loads and stores.
use crate::ccell::{CCell, with_member};
use crate::cell_type::CellType;
use crate::memory::Memory;
use crate::object::Object;
use crate::pointer::Pointer;
use crate::trap::MemTrap;
use dpi_ports::{Ledger, Steps};

impl<L: Ledger> Memory<L> {
    ghost use Rattle.std.specs.Prelude.{◌≡◌, ◌<◌, Some, length, IfOk, OnOk, OnErr, IsTrue};
    ghost use Rattle.std.specs.Result.{result_err};
    ghost use Rattle.c_memory.specs.Pointer.{serial_of, offset_of};
    ghost use Rattle.c_memory.specs.CellType.{IsCellType, fits};
    ghost use Rattle.c_memory.specs.Memory.{object_at, cells_at, value_at, stored, member_stored};
    ghost use Rattle.c_memory.specs.Memory.{first_trap, place_order, load_order, store_order};
    ghost use Rattle.c_memory.specs.Memory.{IsAccessed};

    /// The object that a pointer is inside.
    fn at(&self, p: Pointer) -> Result<&Object, MemTrap>
        ensures traps { result_err result ≡ first_trap (place_order self.now p) }
        ensures object { IfOk result (λ o. object_at self.now (serial_of p) ≡ Some o.now) }
        ensures inside { IfOk result (λ o. offset_of p < length o.now.cells) }
    {
        if p.is_null() {
            return Err(MemTrap::Null);
        }
        let object = self.objects.get(p.serial()).ok_or(MemTrap::Dead)?;
        if object.len() <= p.offset() {
            return Err(MemTrap::OutOfBounds);
        }
        Ok(object)
    }

    /// The value of the cell at `p`, accessed as `of` (ISO C 6.5.3.2). The traps are Null, Dead,
    /// OutOfBounds, TypeMismatch and Uninitialised, and of several the first of these. `steps`
    /// counts cells of banks, so it stays as it is for those of C's own.
    pub fn load(&self, p: Pointer, of: CellType, steps: &mut Steps<L>) -> Result<CCell, MemTrap>
        requires { IsCellType of }
        ensures traps { result_err result ≡ first_trap (load_order self.now p of) }
        ensures value { IfOk result (λ c. value_at self.now p ≡ Some c) }
        ensures typed { IfOk result (λ c. IsTrue (fits of c)) }
        ensures steps { steps.new ≡ steps.old }
    {
        let object = self.at(p)?;
        if !of.is_same(object.of()) {
            return Err(MemTrap::TypeMismatch);
        }
        object.value(p.offset()).ok_or(MemTrap::Uninitialised)
    }

    /// The present value of a cell that may be stored into as `of`, if it has one.
    fn storable(&self, p: Pointer, of: CellType) -> Result<Option<CCell>, MemTrap>
        ensures traps { result_err result ≡ first_trap (store_order self.now p of) }
        ensures value { IfOk result (λ v. value_at self.now p ≡ v) }
        ensures inside { OnOk result (offset_of p < length (cells_at self.now (serial_of p))) }
        ensures typed { OnOk result (IsAccessed self.now p of) }
    {
        let object = self.at(p)?;
        if !of.is_same(object.of()) {
            return Err(MemTrap::TypeMismatch);
        }
        if !object.is_writable() {
            return Err(MemTrap::ReadOnly);
        }
        Ok(object.value(p.offset()))
    }

    /// Stores the used bits of the value into the cell at `p`, accessed as `of` (ISO C 6.5.16). The
    /// traps are Null, Dead, OutOfBounds, TypeMismatch and ReadOnly, and of several the first of
    /// these; a trap changes nothing.
    pub fn store(
        &mut self,
        p: Pointer,
        of: CellType,
        cell: CCell,
        steps: &mut Steps<L>,
    ) -> Result<(), MemTrap>
        requires cell_type { IsCellType of }
        requires typed { IsTrue (fits of cell) }
        ensures traps { result_err result ≡ first_trap (store_order self.old p of) }
        ensures stored { OnOk result (self.new ≡ stored self.old p cell) }
        ensures err { OnErr result (self.new ≡ self.old) }
        ensures steps { steps.new ≡ steps.old }
    {
        self.storable(p, of)?;
        self.objects.put(p.serial(), p.offset(), cell);
        Ok(())
    }

    /// Stores into one member of the pair at `p`, `aval` or else `bval`. The other member stays,
    /// and is 0 where the cell had no value. The traps are those of a store of a pair; a trap
    /// changes nothing.
    pub fn store_member(
        &mut self,
        p: Pointer,
        aval: bool,
        value: u32,
        steps: &mut Steps<L>,
    ) -> Result<(), MemTrap>
        ensures traps { result_err result ≡ first_trap (store_order self.old p CellType.LogicPair) }
        ensures stored { OnOk result (self.new ≡ member_stored self.old p aval value) }
        ensures err { OnErr result (self.new ≡ self.old) }
        ensures steps { steps.new ≡ steps.old }
    {
        let present = self.storable(p, CellType::LogicPair)?;
        self.objects
            .put(p.serial(), p.offset(), with_member(present, aval, value));
        Ok(())
    }
}
