//! What a first token says of an expression.

ghost use Rattle.std.specs.Prelude.{◌≡◌};
ghost use Rattle.dpi_grammar.specs.Parser.{first};
ghost use Rattle.c_expr.specs.Front as spec;

use c_cursor::Cursor;
use c_tree::{AssignOperator, BinaryOperator, Class, UnaryOperator};

/// Whether an operator between operands comes next (ISO C 6.5.5 to 6.5.14).
pub fn begins_term(tokens: &Cursor<'_>) -> bool
    ensures { result ≡ spec.begins_term (first tokens.now.rest) }
{
    BinaryOperator::of(tokens.class()).is_some()
}

/// Whether an operator that assigns comes next (6.5.16).
pub fn begins_assignment(tokens: &Cursor<'_>) -> bool
    ensures { result ≡ spec.begins_assignment (first tokens.now.rest) }
{
    AssignOperator::of(tokens.class()).is_some()
}

/// Whether a suffix begins here (6.5.2).
pub fn begins_suffix(tokens: &Cursor<'_>) -> bool
    ensures { result ≡ spec.begins_suffix (first tokens.now.rest) }
{
    matches!(
        tokens.class(),
        Some(Class::OpenBracket | Class::Dot | Class::Arrow | Class::Increment | Class::Decrement)
    )
}

/// Whether an operand without prefixes and parentheses begins here (6.5.1).
fn begins_plain(tokens: &Cursor<'_>) -> bool
    ensures { result ≡ spec.begins_plain (first tokens.now.rest) }
{
    matches!(
        tokens.class(),
        Some(Class::Name | Class::Number | Class::Character | Class::Text | Class::Null)
    )
}

/// Whether a prefix begins here, or an expression in parentheses (6.5.3, 6.5.4).
pub fn begins_lead(tokens: &Cursor<'_>) -> bool
    ensures { result ≡ spec.begins_lead (first tokens.now.rest) }
{
    tokens.sees(Class::OpenParen) || UnaryOperator::of(tokens.class()).is_some()
}

/// Whether an expression begins here (6.5).
pub fn begins_expr(tokens: &Cursor<'_>) -> bool
    ensures { result ≡ spec.begins_expr (first tokens.now.rest) }
{
    begins_lead(tokens) || begins_plain(tokens)
}
