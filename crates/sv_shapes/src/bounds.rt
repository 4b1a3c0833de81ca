//! Bounds of ranges, dimensions and part selects (IEEE 1800-2017, 6.9.1 and 7.4).
ghost use Rattle.std.specs.Prelude.{◌≡◌};
ghost use Rattle.dpi_rules.specs.Least.{noted};
ghost use Rattle.sv_shapes.specs.Bounds as spec;

use dpi_literal::sv_decimal;
use dpi_rules::{Violation, note};
use dpi_shape::Range;
use sv_tree::Bound;

/// The rule on shapes.
pub(crate) const SHAPE_RULE: u8 = 8;

/// The number, if it is one of 32 signed bits.
fn positive(number: Option<u32>) -> Option<i32>
    ensures { result ≡ spec.positive number }
{
    match number {
        Some(n) if n <= i32::MAX as u32 => Some(n as i32),
        _ => None,
    }
}

/// The number behind a `-`, if that is one of 32 signed bits.
fn negative(number: Option<u32>) -> Option<i32>
    ensures { result ≡ spec.negative number }
{
    match number {
        Some(n) if n <= 1 << 31 => Some((0 - n as i64) as i32),
        _ => None,
    }
}

/// The value of a bound. None where its number isn't plain decimal, or the value isn't one of 32
/// signed bits.
pub fn bound_value(bound: &Bound) -> Option<i32>
    ensures { result ≡ spec.bound_value bound.now }
{
    let number = sv_decimal(bound.number.bytes.as_slice());
    if bound.negative {
        negative(number)
    } else {
        positive(number)
    }
}

/// Notes rule 8 at the number of a bound that has no value.
pub fn note_bound(file: u32, bound: &Bound, found: &mut Option<Violation>)
    ensures { found.new ≡ noted found.old (spec.bound_violations file bound.now) }
{
    if bound_value(bound).is_none() {
        let violation = Violation {
            file,
            token: bound.number.token,
            rule: SHAPE_RULE,
        };
        note(found, violation);
    }
}

/// The range from one bound to the other. None where either has no value.
pub(crate) fn range_between(left: &Bound, right: &Bound) -> Option<Range>
    ensures { result ≡ spec.range_between left.now right.now }
{
    match (bound_value(left), bound_value(right)) {
        (Some(left), Some(right)) => Some(Range { left, right }),
        _ => None,
    }
}

/// Notes rule 8 at the number of each bound that has no value.
pub(crate) fn note_bounds(file: u32, left: &Bound, right: &Bound, found: &mut Option<Violation>)
    ensures { found.new ≡ noted found.old (spec.bounds_violations file left.now right.now) }
{
    note_bound(file, left, found);
    note_bound(file, right, found);
}
