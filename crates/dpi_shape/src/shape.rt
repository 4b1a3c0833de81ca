//! A leaf with its unpacked dimensions: cells, places, layouts.
ghost use Rattle.std.specs.Prelude.{◌≡◌, ◌≤◌};
ghost use Rattle.dpi_shape.specs.Dims.{IsShape, ranges_of};

use super::dims::{Dims, all_alike, cells_within};
use super::leaf::Leaf;
use super::range::Range;

/// The most bits of an element.
pub const MOST_WIDTH: u64 = 1024;

/// The most cells of an array.
pub const MOST_CELLS: u32 = 65_536;

/// The most unpacked dimensions.
pub const MOST_DIMS: usize = 3;

/// A leaf and at most three ranges of unpacked dimensions, within the limits on width and cells.
#[derive(Clone, Copy, Debug, PartialEq, Eq)]
pub struct Shape {
    leaf: Leaf,
    dims: Dims,
    ghost sized: { IsShape leaf (ranges_of dims) },
}

impl Shape {
    ghost use Rattle.std.specs.Prelude.{◌<◌, ◌-◌, ◌*◌, ◌↔◌, None, Some, IsTrue};
    ghost use Rattle.std.specs.Prelude.{IsSome, IfSome, length, drop, slice_get, ◌==◌};
    ghost use Rattle.std.specs.Prelude.{if◌then◌else◌};
    ghost use Rattle.dpi_shape.specs.Dims.{dims_by};
    ghost use Rattle.dpi_shape.specs.Leaf.{width, element_cells, cell_bytes, mask};
    ghost use Rattle.dpi_shape.specs.Shape.{leaf_of, dims_of, form_of, cells_of, first_cell, HasRoom};
    ghost use Rattle.dpi_shape.specs.Shape.{AreIndices, NamesAlone, IsPartAfter, IsSameLayout};
    ghost use Rattle.dpi_shape.specs.Shape.{mask_of};

    /// The shape of this leaf and these ranges. None exactly where there are more than three
    /// ranges, an element has more than 1,024 bits, or the array more than 65,536 cells.
    pub fn new(leaf: Leaf, dims: &[Range]) -> Option<Shape>
        ensures limits { IsSome result ↔ IsShape leaf dims.now }
        ensures leaf_kept { IfSome result (λ s. leaf_of s ≡ leaf) }
        ensures dims_kept { IfSome result (λ s. dims_of s ≡ dims.now) }
        ensures form { IfSome result (λ s. dims_by dims.now ≡ Some (form_of s)) }
    {
        let kept = Dims::from_slice(dims)?;
        if leaf.width() > MOST_WIDTH {
            return None;
        }
        cells_within(leaf.cells(), dims, u64::from(MOST_CELLS))?;
        Some(Shape { leaf, dims: kept })
    }

    /// What one element is.
    pub fn leaf(&self) -> Leaf
        ensures { result ≡ leaf_of self.now }
    {
        self.leaf
    }

    /// The number of unpacked dimensions, at most 3 (`svDimensions`, IEEE 1800-2017, H.12.2).
    pub fn dims(&self) -> u32
        ensures { result ≡ length (dims_of self.now) }
    {
        self.dims.as_slice().len() as u32
    }

    /// The range of an unpacked dimension, counted from 1. None exactly where `d` is 0 or past the
    /// dimensions.
    pub fn range(&self, d: u32) -> Option<Range>
        ensures { result ≡ (if d == 0 then None else slice_get (dims_of self.now) (d - 1)) }
    {
        if d == 0 {
            return None;
        }
        self.dims.as_slice().get(d as usize - 1).copied()
    }

    /// The bits of one element, at most 1,024.
    pub fn width(&self) -> u32
        ensures { result ≡ width (leaf_of self.now) }
    {
        self.leaf.width() as u32
    }

    /// The cells of one element.
    pub fn words(&self) -> u32
        ensures { result ≡ element_cells (leaf_of self.now) }
    {
        self.leaf.cells() as u32
    }

    /// The cells of all elements, at most 65,536.
    pub fn cells(&self) -> u32
        ensures { result ≡ cells_of self.now }
    {
        cells_within(
            self.leaf.cells(),
            self.dims.as_slice(),
            u64::from(MOST_CELLS),
        )
        .unwrap() as u32
    }

    /// The bytes of all cells in C.
    pub fn bytes(&self) -> u32
        ensures { result ≡ cells_of self.now * cell_bytes (leaf_of self.now) }
    {
        self.cells() * self.leaf.cell_bytes()
    }

    /// The used bits of a cell, counted from 0 over the whole array: those of `a` and, in four
    /// states, of `b`.
    pub fn mask_at(&self, cell: u32) -> u64
        requires { cell < cells_of self.now }
        ensures { result ≡ mask_of self.now cell }
    {
        self.leaf.mask(u64::from(cell) % self.leaf.cells())
    }
    /// The first cell, in natural order, of the element that the indices name, or of the sub-array
    /// where there are fewer of them than dimensions. None exactly where an index is outside its
    /// range. Two lists of as many indices never name the same cell (IEEE 1800-2017, H.7, H.12).
    pub fn cell_at(&self, indices: &[i32]) -> Option<u32>
        requires { length indices.now ≤ length (dims_of self.now) }
        ensures inside { IsSome result ↔ AreIndices self.now indices.now }
        ensures value { result ≡ first_cell self.now indices.now }
        ensures room { IfSome result (HasRoom self.now (length indices.now)) }
        ensures alone { IfSome result (NamesAlone self.now indices.now) }
    {
        let ranges = self.dims.as_slice();
        let mut stride = u64::from(self.cells());
        let mut cell = 0;
        for (place, index) in indices.iter().enumerate() {
            let range = ranges[place];
            stride /= range.size();
            cell += u64::from(range.element(*index)?) * stride;
        }
        Some(cell as u32)
    }

    /// The shape of what `n` indices name. The cells of the whole are those of the place that the
    /// indices name, plus the cell in there.
    pub fn sub(&self, n: u32) -> Shape
        requires { n ≤ length (dims_of self.now) }
        ensures leaf_kept { leaf_of result ≡ leaf_of self.now }
        ensures dims_left { dims_of result ≡ drop n (dims_of self.now) }
        ensures places { IsPartAfter self.now n result }
    {
        let left = &self.dims.as_slice()[n as usize..];
        Shape {
            leaf: self.leaf,
            dims: Dims::from_slice(left).unwrap(),
        }
    }

    /// Whether both lay out their cells alike, so that the cells of the one can stand for those of
    /// the other: equal widths, states and cells of an element, equal sizes, and equal directions
    /// in dimensions of two indices and more.
    pub fn same_layout(&self, other: &Shape) -> bool
        ensures { IsTrue result ↔ IsSameLayout self.now other.now }
    {
        self.leaf.width() == other.leaf.width()
            && self.leaf.is_four_state() == other.leaf.is_four_state()
            && self.leaf.cells() == other.leaf.cells()
            && all_alike(self.dims.as_slice(), other.dims.as_slice())
    }
}
