//! Constants: numbers, characters, strings and `NULL` (ISO C 6.4.4 and 6.4.5).
ghost use Rattle.std.specs.Prelude.{◌≡◌};
ghost use Rattle.c_typing.specs.Operands as spec;

use crate::operand::{Form, Operand, plain_value};
use crate::pointers::pointer_to;
use c_base::{CBase, CType};
use dpi_literal::{NumberType, c_number};

/// The base that a number's type is.
pub fn base_of_number(of: NumberType) -> CBase
    ensures { result ≡ spec.base_of_number of }
{
    match of {
        NumberType::Int => CBase::Int,
        NumberType::UnsignedInt => CBase::UnsignedInt,
        NumberType::LongLong => CBase::LongLong,
        NumberType::UnsignedLongLong => CBase::UnsignedLongLong,
    }
}

/// A number token by its bytes: of the first type that holds it (ISO C 6.4.4.1). One of value 0, in
/// any base and with any suffix, stands for null too.
pub fn number(bytes: &[u8]) -> Operand
    ensures { result ≡ spec.number bytes.now }
{
    let number = c_number(bytes);
    let form = if number.value == 0 {
        Form::Zero
    } else {
        Form::Value
    };
    Operand {
        of: CType::plain(base_of_number(number.of)),
        form,
    }
}

/// A define, or one of the constants of `svdpi.h`: a number of the type, which never stands for
/// null, whatever its value.
pub fn constant(of: NumberType) -> Operand
    ensures { result ≡ spec.constant of }
{
    plain_value(base_of_number(of))
}

/// A character, which is an `int` (ISO C 6.4.4.4). One of value 0 doesn't stand for null.
pub fn character() -> Operand
    ensures { result ≡ spec.character }
{
    plain_value(CBase::Int)
}

/// A string, a `char *` (ISO C 6.4.5).
pub fn text() -> Operand
    ensures { result ≡ spec.text }
{
    Operand::value(pointer_to(CType::plain(CBase::Char), false))
}

/// `NULL`, a `void *` that converts to opaque types too (ISO C 7.19).
pub fn null() -> Operand
    ensures { result ≡ spec.null }
{
    Operand {
        of: pointer_to(CType::plain(CBase::Void), false),
        form: Form::Null,
    }
}
