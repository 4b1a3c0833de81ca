//! Unpacked dimensions (IEEE 1800-2017, 7.4.2).
ghost use Rattle.std.specs.Prelude.{◌≡◌, flat_map};
ghost use Rattle.dpi_rules.specs.Least.{noted};
ghost use Rattle.sv_shapes.specs.Dimensions as spec;

use crate::bounds::{SHAPE_RULE, note_bounds, range_between};
use dpi_literal::sv_decimal;
use dpi_rules::{Violation, note};
use dpi_shape::{MOST_CELLS, Range};
use sv_tree::{Dimension, Number};

/// The range of a dimension `[n]` by its number.
fn counted(number: Option<u32>) -> Option<Range>
    ensures { result ≡ spec.counted number }
{
    match number {
        Some(n) if n > 0 && n <= MOST_CELLS => Some(Range {
            left: 0,
            right: n as i32 - 1,
        }),
        _ => None,
    }
}

/// The range of a dimension; `[n]` is `[0:n-1]` (7.4.2). None where a bound has no value, or n of
/// `[n]` isn't a plain decimal number from 1 to 65,536.
pub fn dimension_range(dimension: &Dimension) -> Option<Range>
    ensures { result ≡ spec.dimension_range dimension.now }
{
    match dimension {
        Dimension::Range(_, left, right) => range_between(left, right),
        Dimension::Size(_, number) => counted(sv_decimal(number.bytes.as_slice())),
    }
}

/// The `[` of a dimension.
pub(crate) fn bracket(dimension: &Dimension) -> u32
    ensures { result ≡ spec.bracket dimension.now }
{
    match dimension {
        Dimension::Range(token, _, _) => *token,
        Dimension::Size(token, _) => *token,
    }
}

/// Notes rule 8 at the `[` of a dimension `[n]` without a range.
fn note_size(file: u32, token: u32, number: &Number, found: &mut Option<Violation>)
    ensures { found.new ≡ noted found.old (spec.size_violations file token number.now) }
{
    if counted(sv_decimal(number.bytes.as_slice())).is_none() {
        let violation = Violation {
            file,
            token,
            rule: SHAPE_RULE,
        };
        note(found, violation);
    }
}

/// Notes rule 8 where a dimension has no range: at the number of each bound without a value, or at
/// the `[` of `[n]`.
pub fn note_dimension(file: u32, dimension: &Dimension, found: &mut Option<Violation>)
    ensures { found.new ≡ noted found.old (spec.dimension_violations file dimension.now) }
{
    match dimension {
        Dimension::Range(_, left, right) => note_bounds(file, left, right, found),
        Dimension::Size(token, number) => note_size(file, *token, number, found),
    }
}

/// Notes what each dimension breaks by itself: see `note_dimension`.
pub fn note_dimensions(file: u32, dimensions: &[Dimension], found: &mut Option<Violation>)
    ensures { found.new ≡ noted found.old (flat_map (spec.dimension_violations file) dimensions.now) }
{
    for dimension in dimensions {
        note_dimension(file, dimension, found);
    }
}

/// The `[` of the first dimension with which a limit is passed, where there is room for so many
/// dimensions and an element has so many cells. A dimension without a range takes room, and ends
/// the search: what it breaks itself stands before what those behind it pass.
pub(crate) fn limit_token(room: usize, cells: u64, dimensions: &[Dimension]) -> Option<u32>
    ensures { result ≡ spec.limit_token room cells dimensions.now }
{
    match dimensions {
        [] => None,
        [first, more @ ..] => match dimension_range(first) {
            None if room > 0 => None,
            None => Some(bracket(first)),
            Some(range) => {
                let cells = cells as u128 * range.size() as u128;
                if room > 0 && cells <= MOST_CELLS as u128 {
                    limit_token(room - 1, cells as u64, more)
                } else {
                    Some(bracket(first))
                }
            }
        },
    }
}

/// Notes rule 8 at the token, if there is one.
pub(crate) fn note_limit(file: u32, token: Option<u32>, found: &mut Option<Violation>)
    ensures { found.new ≡ noted found.old (spec.limit_violations file token) }
{
    if let Some(token) = token {
        let violation = Violation {
            file,
            token,
            rule: SHAPE_RULE,
        };
        note(found, violation);
    }
}
