//! Pointer arithmetic and order.
use crate::memory::Memory;
use crate::object::Object;
use crate::pointer::Pointer;
use crate::trap::MemTrap;
use dpi_ports::Ledger;
use std::cmp::Ordering;

impl<L: Ledger> Memory<L> {
    ghost use Rattle.std.specs.Prelude.{◌≡◌, Some, pos, ◌+ℤ◌, ◌-ℤ◌, IfOk};
    ghost use Rattle.std.specs.Result.{result_err};
    ghost use Rattle.std.specs.Ordering.{nat_cmp};
    ghost use Rattle.c_memory.specs.Pointer.{serial_of, offset_of};
    ghost use Rattle.c_memory.specs.Memory.{object_at, first_trap, live_order, move_order};
    ghost use Rattle.c_memory.specs.Memory.{pair_order};

    /// The object of a pointer.
    fn live(&self, p: Pointer) -> Result<&Object, MemTrap>
        ensures traps { result_err result ≡ first_trap (live_order self.now p) }
        ensures object { IfOk result (λ o. object_at self.now (serial_of p) ≡ Some o.now) }
    {
        if p.is_null() {
            return Err(MemTrap::Null);
        }
        self.objects.get(p.serial()).ok_or(MemTrap::Dead)
    }

    /// The pointer `n` cells on, which may be one past the last cell (ISO C 6.5.6). The traps are
    /// Null, Dead and OutOfBounds, and of several the first of these.
    pub fn move_by(&self, p: Pointer, n: i64) -> Result<Pointer, MemTrap>
        ensures traps { result_err result ≡ first_trap (move_order self.now p n) }
        ensures object { IfOk result (λ q. q ≡ Pointer.At (serial_of p) (offset_of q)) }
        ensures offset { IfOk result (λ q. pos (offset_of q) ≡ pos (offset_of p) +ℤ n) }
    {
        let cells = i128::from(self.live(p)?.len());
        let place = i128::from(p.offset()) + i128::from(n);
        if place < 0 || cells < place {
            return Err(MemTrap::OutOfBounds);
        }
        Ok(Pointer::At {
            serial: p.serial(),
            offset: place as u32,
        })
    }

    /// The order of two pointers into one object, by their offsets (ISO C 6.5.8). The traps are
    /// Null, Dead and DifferentObjects, and of several the first of these.
    pub fn compare(&self, p: Pointer, q: Pointer) -> Result<Ordering, MemTrap>
        ensures traps { result_err result ≡ first_trap (pair_order self.now p q) }
        ensures order { IfOk result (λ o. o ≡ nat_cmp (offset_of p) (offset_of q)) }
    {
        self.same_object(p, q)?;
        Ok(p.offset().cmp(&q.offset()))
    }

    /// `p - q` in cells, for two pointers into one object (ISO C 6.5.6). The traps are those of
    /// `compare`.
    pub fn difference(&self, p: Pointer, q: Pointer) -> Result<i64, MemTrap>
        ensures traps { result_err result ≡ first_trap (pair_order self.now p q) }
        ensures value { IfOk result (λ n. n ≡ pos (offset_of p) -ℤ pos (offset_of q)) }
    {
        self.same_object(p, q)?;
        Ok(i64::from(p.offset()) - i64::from(q.offset()))
    }

    /// Looks for what stops the comparison of two pointers.
    fn same_object(&self, p: Pointer, q: Pointer) -> Result<(), MemTrap>
        ensures { result_err result ≡ first_trap (pair_order self.now p q) }
    {
        if p.is_null() || q.is_null() {
            return Err(MemTrap::Null);
        }
        self.live(p)?;
        self.live(q)?;
        if p.serial() != q.serial() {
            return Err(MemTrap::DifferentObjects);
        }
        Ok(())
    }
}
