//! Assignments, assignment operators, `++` and `--` (IEEE 1800-2017, 10.4, 11.4.1, 11.4.2 and 7.6).
ghost use Rattle.std.specs.Prelude.{◌≡◌, [], ◌∷◌};
ghost use Rattle.dpi_rules.specs.Least.{noted};
ghost use Rattle.sv_contexts.specs.Assignments as spec;
ghost use Rattle.sv_typing.specs.Types.{range_left};

use dpi_rules::{Violation, note};
use dpi_shape::{Leaf, Range, Shape};
use sv_tree::{AssignOperator, BinaryOperator};
use sv_typing::{Binary, ExprType, Operand, is_signed, note_reached, operated, range_left};

/// The rule on arrays that don't fit each other.
const ARRAY_RULE: u8 = 14;

/// The rule on values of another kind.
const KINDS_RULE: u8 = 17;

/// Whether elements have one width, the same states and one sign.
pub(crate) fn are_elements_equal(a: Leaf, b: Leaf) -> bool
    ensures { result ≡ spec.are_elements_equal a b }
{
    a.width() == b.width()
        && (a.is_four_state() == b.is_four_state() && is_signed(a) == is_signed(b))
}

/// Whether two dimensions are there and have as many indices.
fn is_size_equal(a: Option<Range>, b: Option<Range>) -> bool
    ensures { result ≡ spec.is_size_equal a b }
{
    match (a, b) {
        (Some(a), Some(b)) => a.size() == b.size(),
        (None, None) => true,
        _ => false,
    }
}

/// Whether the dimension of that number is left in both, of as many indices, or in neither.
fn is_alike(a: &Shape, taken: u32, b: &Shape, gone: u32, step: u32) -> bool
    ensures { result ≡ spec.is_size_equal (range_left a.now taken step) (range_left b.now gone step) }
{
    is_size_equal(range_left(a, taken, step), range_left(b, gone, step))
}

/// Whether as many dimensions are left, each of as many indices.
fn are_sizes_equal(a: &Shape, taken: u32, b: &Shape, gone: u32) -> bool
    ensures { result ≡ spec.are_sizes_equal a.now taken b.now gone }
{
    is_alike(a, taken, b, gone, 0)
        && (is_alike(a, taken, b, gone, 1) && is_alike(a, taken, b, gone, 2))
}

fn is_fitting(a: &Shape, taken: u32, b: &Shape, gone: u32) -> bool
    ensures { result ≡ spec.is_fitting a.now taken b.now gone }
{
    are_elements_equal(a.leaf(), b.leaf()) && are_sizes_equal(a, taken, b, gone)
}

/// Notes rule 14 at a value whose elements or sizes differ from those of its target.
pub(crate) fn note_fitted(file: u32, token: u32, fits: bool, found: &mut Option<Violation>)
    ensures { found.new ≡ noted found.old (spec.fitted file token fits) }
{
    if !fits {
        let violation = Violation {
            file,
            token,
            rule: ARRAY_RULE,
        };
        note(found, violation);
    }
}

/// Notes rule 17.
pub(crate) fn note_kinds(file: u32, token: u32, found: &mut Option<Violation>)
    ensures { found.new ≡ noted found.old (spec.kinds_broken file token ∷ []) }
{
    let violation = Violation {
        file,
        token,
        rule: KINDS_RULE,
    };
    note(found, violation);
}

/// Notes what a value violates where it is assigned to what has this type.
fn note_stored(
    file: u32,
    token: u32,
    target: ExprType,
    value: Operand,
    found: &mut Option<Violation>,
)
    ensures { found.new ≡ noted found.old (spec.stored file token target value) }
{
    match (target, value.of) {
        (ExprType::Bits { width, .. }, ExprType::Bits { width: own, .. }) => {
            note_reached(width.max(own), value.reach, found);
        }
        (ExprType::Text, ExprType::Text) => {}
        (ExprType::Chandle, ExprType::Chandle) => {}
        (
            ExprType::Array { shape, taken },
            ExprType::Array {
                shape: other,
                taken: gone,
            },
        ) => {
            note_fitted(file, token, is_fitting(&shape, taken, &other, gone), found);
        }
        _ => note_kinds(file, token, found),
    }
}

/// Notes what a value violates where it is assigned to what has this type: by `=`, as an initialiser,
/// a `return` value, an actual or a part of a pattern. The token is the first one of the value. Packed
/// bits are evaluated at the wider of both sides, so rule 16 is noted at the first arithmetic that a
/// width past 64 bits reaches. Rule 14 is noted at the token where two arrays differ in the number of
/// dimensions, the indices of one, or the width, the states or the sign of an element; rule 17 where
/// the kinds differ. Where either side has no type, nothing is noted.
pub fn note_assigned(
    file: u32,
    token: u32,
    target: Option<ExprType>,
    value: Option<Operand>,
    found: &mut Option<Violation>,
)
    ensures { found.new ≡ noted found.old (spec.assigned file token target value) }
{
    if let Some(target) = target {
        if let Some(value) = value {
            note_stored(file, token, target, value, found);
        }
    }
}

fn computing(operator: AssignOperator) -> BinaryOperator
    ensures { result ≡ spec.computing operator }
{
    match operator {
        AssignOperator::Add => BinaryOperator::Plus,
        AssignOperator::Subtract => BinaryOperator::Minus,
        AssignOperator::Multiply => BinaryOperator::Star,
        AssignOperator::Divide => BinaryOperator::Slash,
        AssignOperator::Remainder => BinaryOperator::Percent,
        AssignOperator::And => BinaryOperator::And,
        AssignOperator::Or => BinaryOperator::Or,
        AssignOperator::Xor => BinaryOperator::Xor,
        AssignOperator::ShiftLeft => BinaryOperator::ShiftLeft,
        AssignOperator::ShiftRight => BinaryOperator::ShiftRight,
    }
}

/// Notes what an assignment operator violates, by its token: what the operator that it computes would
/// violate between the target and the value. Where either has no type, nothing is noted.
pub fn note_computed(
    file: u32,
    token: u32,
    operator: AssignOperator,
    target: Option<Operand>,
    value: Option<Operand>,
    found: &mut Option<Violation>,
)
    ensures { found.new ≡ noted found.old (spec.computed file token operator target value) }
{
    let operator = computing(operator);
    let _whole = operated(
        Binary {
            file,
            token,
            operator,
        },
        target,
        value,
        found,
    );
}

/// Notes what `++` or `--` violates, by its token: what adding or subtracting a 1 of the operand's own
/// type would violate. Where the operand has no type, nothing is noted.
pub fn note_stepped(file: u32, token: u32, target: Option<Operand>, found: &mut Option<Violation>)
    ensures { found.new ≡ noted found.old (spec.stepped file token target) }
{
    let operator = BinaryOperator::Plus;
    let _whole = operated(
        Binary {
            file,
            token,
            operator,
        },
        target,
        target,
        found,
    );
}
