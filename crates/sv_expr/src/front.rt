//! What a first token says of an expression.

ghost use Rattle.std.specs.Prelude.{◌≡◌};
ghost use Rattle.sv_expr.specs.Front as spec;

use sv_tree::{BinaryOperator, Class, UnaryOperator};

/// What wraps an expression in parentheses.
#[derive(Clone, Copy)]
pub enum Wrap {
    /// Nothing else.
    Group,
    /// `$signed` before them.
    Signed,
    /// `$unsigned` before them.
    Unsigned,
}

/// What a first token says of an operand without prefixes.
#[derive(Clone, Copy)]
pub enum Front {
    /// It is a number.
    Number,
    /// It is a string.
    Text,
    /// It is `null`.
    Null,
    /// It begins with a name.
    Name,
    /// It is wrapped in parentheses.
    Wrapped(Wrap),
    /// It begins with a `{`.
    Braces,
    /// There is none.
    Other,
}

/// What a first token of this class says.
pub fn front_of(class: Option<Class>) -> Front
    ensures { result ≡ spec.front_of class }
{
    match class {
        Some(Class::Number) => Front::Number,
        Some(Class::Text) => Front::Text,
        Some(Class::Null) => Front::Null,
        Some(Class::Name) => Front::Name,
        Some(Class::OpenParen) => Front::Wrapped(Wrap::Group),
        Some(Class::ToSigned) => Front::Wrapped(Wrap::Signed),
        Some(Class::ToUnsigned) => Front::Wrapped(Wrap::Unsigned),
        Some(Class::OpenBrace) => Front::Braces,
        _ => Front::Other,
    }
}

/// Whether a token of this class is a prefix.
pub fn begins_prefix(class: Option<Class>) -> bool
    ensures { result ≡ spec.is_prefix class }
{
    UnaryOperator::of(class).is_some()
}

/// Whether a token of this class stands between operands.
pub fn begins_term(class: Option<Class>) -> bool
    ensures { result ≡ spec.is_operator class }
{
    BinaryOperator::of(class).is_some()
}

/// Whether an expression begins with a token of this class.
pub fn begins_expr(class: Option<Class>) -> bool
    ensures { result ≡ spec.is_start class }
{
    match front_of(class) {
        Front::Other => begins_prefix(class),
        _ => true,
    }
}
