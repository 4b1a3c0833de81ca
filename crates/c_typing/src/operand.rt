//! Operands: what an expression without a violation is to the rules on types.
ghost use Rattle.std.specs.Prelude.{◌≡◌};
ghost use Rattle.c_typing.specs.Operands as spec;

use crate::pointers::pointer_to;
use c_base::{CBase, CType};

/// An expression without a violation: its type, and what may be done with it.
#[derive(Clone, Copy, Debug, PartialEq, Eq)]
pub struct Operand {
    /// Its type; an array's is the pointer to its first cell (ISO C 6.3.2.1).
    pub of: CType,
    /// What it names or stands for.
    pub form: Form,
}

/// What an expression names or stands for, parentheses aside.
#[derive(Clone, Copy, Debug, PartialEq, Eq)]
pub enum Form {
    /// A value that is none of the others.
    Value,
    /// A number token of value 0, which converts to pointers and to opaque types.
    Zero,
    /// `NULL`, which converts to them too.
    Null,
    /// An array, by its name.
    Array,
    /// An object, and whether it may be stored into.
    Object(bool),
    /// A member of an object that is a pair, and whether it may be stored into.
    Member(bool),
}

impl Operand {
    /// A value of the type.
    pub fn value(of: CType) -> Operand
        ensures { result ≡ spec.value of }
    {
        Operand {
            of,
            form: Form::Value,
        }
    }

    /// An object of the type, const or not.
    pub fn object(of: CType, constant: bool) -> Operand
        ensures { result ≡ spec.object of constant }
    {
        Operand {
            of,
            form: Form::Object(!constant),
        }
    }

    /// An array, by the type of its cells and whether they are const: the pointer to the first one
    /// (ISO C 6.3.2.1). It is no object that can be stored into, and `&` doesn't take it.
    pub fn array(of: CType, constant: bool) -> Operand
        ensures { result ≡ spec.array of constant }
    {
        Operand {
            of: pointer_to(of, constant),
            form: Form::Array,
        }
    }

    /// Whether this is a number of value 0 or NULL, which stand for the null pointer and the null
    /// of an opaque type (ISO C 6.3.2.3).
    pub(crate) fn is_null(self) -> bool
        ensures { result ≡ spec.is_null self }
    {
        matches!(self.form, Form::Zero | Form::Null)
    }

    /// Whether this is an object or a member of one (ISO C 6.3.2.1).
    pub(crate) fn is_object(self) -> bool
        ensures { result ≡ spec.is_object self }
    {
        matches!(self.form, Form::Object(_) | Form::Member(_))
    }

    /// Whether this is a member of an object.
    pub(crate) fn is_member(self) -> bool
        ensures { result ≡ spec.is_member self }
    {
        matches!(self.form, Form::Member(_))
    }

    /// Whether this is an object that may be stored into.
    pub(crate) fn is_writable(self) -> bool
        ensures { result ≡ spec.is_writable self }
    {
        match self.form {
            Form::Object(writable) | Form::Member(writable) => writable,
            _ => false,
        }
    }
}

/// A value of a base.
pub(crate) fn plain_value(base: CBase) -> Operand
    ensures { result ≡ spec.plain_value base }
{
    Operand::value(CType::plain(base))
}
