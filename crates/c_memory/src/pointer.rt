//! Pointers of C.
ghost use Rattle.std.specs.Prelude.{◌≡◌};
ghost use Rattle.c_memory.specs.Pointer.{is_null, serial_of, offset_of};

/// A pointer of C: null, or a cell of an object by the object's number and an offset in cells from
/// its start (ISO C 6.3.2.3, 6.5.6). The offset may be one past the last cell.
#[derive(Clone, Copy, Debug, PartialEq, Eq)]
pub enum Pointer {
    /// The null pointer.
    Null,
    /// A place in an object.
    At { serial: u64, offset: u32 },
}

impl Pointer {
    /// The null pointer.
    pub fn null() -> Pointer
        ensures { result ≡ Pointer.Null }
    {
        Pointer::Null
    }

    /// Whether this is the null pointer.
    pub fn is_null(&self) -> bool
        ensures { result ≡ is_null self.now }
    {
        matches!(self, Pointer::Null)
    }

    /// The number of the object, or 0 for null.
    pub(crate) fn serial(self) -> u64
        ensures { result ≡ serial_of self }
    {
        match self {
            Pointer::Null => 0,
            Pointer::At { serial, .. } => serial,
        }
    }

    /// The offset in cells, or 0 for null.
    pub(crate) fn offset(self) -> u32
        ensures { result ≡ offset_of self }
    {
        match self {
            Pointer::Null => 0,
            Pointer::At { offset, .. } => offset,
        }
    }
}
