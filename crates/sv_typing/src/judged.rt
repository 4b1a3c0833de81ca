//! Contexts: what a whole of some width makes of the arithmetic inside it.
ghost use Rattle.std.specs.Prelude.{◌≡◌};
ghost use Rattle.dpi_rules.specs.Least.{noted};
ghost use Rattle.sv_typing.specs.Judged as spec;

use crate::types::{ExprType, Operand};
use dpi_rules::{Violation, note};

/// The rule on operands of a kind that their operator doesn't take.
const KIND_RULE: u8 = 15;

/// The rule on arithmetic, orderings and decimals past 64 bits.
const WIDTH_RULE: u8 = 16;

/// The widest arithmetic, in bits.
pub(crate) const MOST_BITS: u32 = 64;

pub(crate) fn kind_broken(file: u32, token: u32) -> Violation
    ensures { result ≡ spec.kind_broken file token }
{
    Violation {
        file,
        token,
        rule: KIND_RULE,
    }
}

/// Rule 16 at a token.
pub fn width_broken(file: u32, token: u32) -> Violation
    ensures { result ≡ spec.width_broken file token }
{
    Violation {
        file,
        token,
        rule: WIDTH_RULE,
    }
}

/// Notes what a context of so many bits comes to: past 64, the least violation of rule 16 among the
/// arithmetic that it reaches.
pub fn note_reached(width: u32, reach: Option<Violation>, found: &mut Option<Violation>)
    ensures { found.new ≡ noted found.old (spec.reached width reach) }
{
    if let Some(violation) = reach {
        if width > MOST_BITS {
            note(found, violation);
        }
    }
}

/// A whole of this type, of so many bits, whose operands are so reached; `outer` is what a wider
/// context reaches in turn. None where it is past 64 bits and comes to something.
pub(crate) fn sized(
    width: u32,
    reach: Option<Violation>,
    of: ExprType,
    outer: Option<Violation>,
    found: &mut Option<Violation>,
) -> Option<Operand>
    ensures value { result ≡ (spec.sized width reach of outer).value }
    ensures found { found.new ≡ noted found.old (spec.sized width reach of outer).found }
{
    match reach {
        Some(violation) if width > MOST_BITS => {
            note(found, violation);
            None
        }
        _ => Some(Operand { of, reach: outer }),
    }
}
