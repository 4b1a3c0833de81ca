//! Assignments, which group from the right (ISO C 6.5.16).
ghost use Rattle.std.specs.Prelude.{◌≡◌};
ghost use Rattle.dpi_rules.specs.Least.{noted};
ghost use Rattle.c_judge.specs.Judge as spec;

use c_tree::AssignOperator;
use c_typing::{Operand, Place, assignment};
use dpi_rules::Violation;

/// An assigning operator, and the part behind it.
#[derive(Clone, Copy, Debug, PartialEq, Eq, Drop)]
pub struct Side {
    /// The number of the operator.
    pub token: u32,
    /// The number of the part's first token.
    pub first: u32,
    /// The operator.
    pub operator: AssignOperator,
    /// What the part is.
    pub value: Option<Operand>,
}

/// The part that stands last: the first one, where no other follows.
fn last_value(first: Option<Operand>, sides: &[Side]) -> Option<Operand>
    ensures { result ≡ spec.last_value first sides.now }
{
    match sides {
        [] => first,
        [.., side] => side.value,
    }
}

/// One assignment of the file.
fn one_assigned(
    file: u32,
    before: Option<Operand>,
    side: Side,
    right: Option<Operand>,
    found: &mut Option<Violation>,
) -> Option<Operand>
    ensures value { result ≡ (spec.one_assigned file before side right).value }
    ensures found { found.new ≡ noted found.old (spec.one_assigned file before side right).found }
{
    let place = Place {
        file,
        token: side.token,
    };
    let at = Place {
        file,
        token: side.first,
    };
    assignment(place, at, side.operator, before, right, found)
}

/// An operand and what is assigned to it by the operators behind it: the value of the last part is
/// assigned to the one before it, and so on. None where an assignment breaks a rule or a part has
/// no type (ISO C 6.5.16).
pub fn grouped(
    file: u32,
    first: Option<Operand>,
    sides: &[Side],
    found: &mut Option<Violation>,
) -> Option<Operand>
    ensures value { result ≡ (spec.grouped file first sides.now).value }
    ensures found { found.new ≡ noted found.old (spec.grouped file first sides.now).found }
{
    let mut value = last_value(first, sides);
    let mut left = sides.len();
    while left > 0 {
        left -= 1;
        let before = last_value(first, &sides[..left]);
        value = one_assigned(file, before, sides[left], value, found);
    }
    value
}
