//! At most three ranges, kept without memory.
ghost use Rattle.std.specs.Prelude.{◌≡◌, ℕ, ◌≤◌, ◌↔◌, ◌*◌, IsSome, IfSome, SomeIff, length};
ghost use Rattle.std.specs.Prelude.{IsTrue};
ghost use Rattle.std.specs.List.{AllZip};
ghost use Rattle.dpi_shape.specs.Range.{IsAlike};
ghost use Rattle.dpi_shape.specs.Dims.{ranges_of, dims_by, elements};

use super::range::Range;

/// The ranges of the unpacked dimensions, the first one first.
#[derive(Clone, Copy, Debug, PartialEq, Eq)]
pub enum Dims {
    /// No dimension: one element.
    Zero,
    /// One dimension.
    One([Range; 1]),
    /// Two dimensions.
    Two([Range; 2]),
    /// Three dimensions.
    Three([Range; 3]),
}

impl Dims {
    /// These ranges, or None where there are more than three.
    pub fn from_slice(ranges: &[Range]) -> Option<Dims>
        ensures room { IsSome result ↔ (length ranges.now ≤ 3) }
        ensures value { IfSome result (λ d. ranges_of d ≡ ranges.now) }
        ensures form { result ≡ dims_by ranges.now }
    {
        match ranges {
            [] => Some(Dims::Zero),
            [a] => Some(Dims::One([*a])),
            [a, b] => Some(Dims::Two([*a, *b])),
            [a, b, c] => Some(Dims::Three([*a, *b, *c])),
            _ => None,
        }
    }

    /// The ranges in order.
    pub fn as_slice(&self) -> &[Range]
        ensures { result.now ≡ ranges_of self.now }
    {
        match self {
            Dims::Zero => &[],
            Dims::One(ranges) => ranges,
            Dims::Two(ranges) => ranges,
            Dims::Three(ranges) => ranges,
        }
    }
}

/// The cells of an array with these ranges, where an element has `each` of them, or None where they
/// are more than `most`.
pub fn cells_within(each: u64, ranges: &[Range], most: u64) -> Option<u64>
    requires room { each ≤ most }
    requires fits { most ≤ 65536 }
    ensures { SomeIff result (elements ranges.now * each ≤ most) (elements ranges.now * each) }
{
    let mut cells = each;
    for range in ranges {
        cells *= range.size();
        if cells > most {
            return None;
        }
    }
    Some(cells)
}

/// Whether two lists have as many ranges, each like the other's in its place.
pub fn all_alike(a: &[Range], b: &[Range]) -> bool
    ensures { IsTrue result ↔ AllZip IsAlike a.now b.now }
{
    match (a, b) {
        ([], []) => true,
        ([r, more @ ..], [q, others @ ..]) => r.is_alike(*q) && all_alike(more, others),
        _ => false,
    }
}
