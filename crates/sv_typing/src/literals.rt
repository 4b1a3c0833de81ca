//! Numbers, strings and `null` (IEEE 1800-2017, 5.7, 5.9 and 6.14).
ghost use Rattle.std.specs.Prelude.{◌≡◌};
ghost use Rattle.sv_typing.specs.Literals as spec;

use crate::types::{ExprType, Operand};
use dpi_literal::sv_form;

/// What a number is, by its bytes: packed bits of its size, 32 without one, and 1 for a fill, which
/// takes the width of its context.
pub fn number_operand(bytes: &[u8]) -> Operand
    ensures { result ≡ spec.number_operand bytes.now }
{
    let form = sv_form(bytes);
    Operand {
        of: ExprType::Bits {
            width: form.width,
            signed: form.signed,
            four: form.four,
        },
        reach: None,
    }
}

/// What a string is.
pub fn text_operand() -> Operand
    ensures { result ≡ spec.text_operand }
{
    Operand {
        of: ExprType::Text,
        reach: None,
    }
}

/// What `null` is: of the kind chandle.
pub fn null_operand() -> Operand
    ensures { result ≡ spec.null_operand }
{
    Operand {
        of: ExprType::Chandle,
        reach: None,
    }
}
