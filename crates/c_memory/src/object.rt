//! One object, as the memory keeps it.
ghost use Rattle.std.specs.Prelude.{◌≡◌, ◌<◌, length, IfOk, slice_index_or, None, IsTrue};

use crate::ccell::CCell;
use crate::cell_type::CellType;
use dpi_ports::NoMemory;
use dpi_shape::Leaf;
use std::alloc::Global;
use std::marker::Model;

/// Where the cells of an object stand.
#[derive(Drop)]
pub(crate) enum Cells {
    /// In the object itself.
    Own(Vec<Option<CCell>>),
}

/// A list of cells of one type. Contracts see it as a `CObject`.
#[derive(Drop)]
pub(crate) struct Object {
    of: CellType,
    writable: bool,
    leaf: Option<Leaf>,
    cells: Cells,
}

impl Model for Object {
    ghost use Rattle.c_memory.specs.Object.{CObject, IsObject};

    ghost Value = { CObject };

    ghost use Rattle.c_memory.specs.Kept.{seen};

    ghost view = { seen };

    ghost invariant = { λ o. IsObject (seen o) };
}

impl Object {
    ghost use Rattle.c_memory.specs.CellType.{IsCellType, fits};
    ghost use Rattle.c_memory.specs.Object.{fresh_object, used, with_value, IsTyped};

    /// An object of so many cells, each zero or each without a value.
    pub(crate) fn fresh(
        alloc: Global,
        of: CellType,
        leaf: Option<Leaf>,
        cells: u32,
        writable: bool,
        zero: bool,
    ) -> Result<Object, NoMemory>
        requires { IsCellType of }
        ensures { IfOk result (λ o. o ≡ fresh_object of leaf cells writable zero) }
    {
        let cell = if zero { Some(of.zero()) } else { None };
        Ok(Object {
            of,
            writable,
            leaf,
            cells: Cells::Own(vec![in alloc; cell; cells as usize]?),
        })
    }

    /// The type of its cells.
    pub(crate) fn of(&self) -> CellType
        ensures { result ≡ self.now.of }
    {
        self.of
    }

    /// Whether C may store into it.
    pub(crate) fn is_writable(&self) -> bool
        ensures { result ≡ self.now.writable }
    {
        self.writable
    }

    /// How many cells it has.
    pub(crate) fn len(&self) -> u32
        ensures { result ≡ length self.now.cells }
    {
        match &self.cells {
            Cells::Own(cells) => cells.len() as u32,
        }
    }

    /// The value in a cell, if it has one.
    pub(crate) fn value(&self, place: u32) -> Option<CCell>
        requires { place < length self.now.cells }
        ensures value { result ≡ slice_index_or self.now.cells place None }
        ensures typed { IsTyped self.now.of result }
    {
        match &self.cells {
            Cells::Own(cells) => cells[place as usize],
        }
    }

    /// The used bits of a cell.
    fn used(&self, place: u32) -> u64
        ensures { result ≡ used self.now place }
    {
        match self.leaf {
            None => self.of.all_bits(),
            Some(Leaf::Logic { .. }) => 3,
            Some(leaf) => leaf.mask(u64::from(place) % leaf.cells()),
        }
    }

    /// Writes the used bits of the value into a cell.
    pub(crate) fn put(&mut self, place: u32, cell: CCell)
        requires inside { place < length self.old.cells }
        requires typed { IsTrue (fits self.old.of cell) }
        ensures { self.new ≡ with_value self.old place cell }
    {
        let bits = self.used(place);
        match &mut self.cells {
            Cells::Own(cells) => cells[place as usize] = Some(cell.masked(bits)),
        }
    }
}
