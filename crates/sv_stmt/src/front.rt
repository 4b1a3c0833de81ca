//! What a first token says of a statement.

ghost use Rattle.std.specs.Prelude.{◌≡◌};
ghost use Rattle.dpi_grammar.specs.Parser.{first};
ghost use Rattle.sv_stmt.specs.Front as spec;

use sv_cursor::Cursor;
use sv_expr::begins_expr;
use sv_tree::{Class, ShowKind, StepOperator};

/// Whether a statement begins with a token of this class (IEEE 1800-2017, A.6.4).
pub fn begins_statement(class: Option<Class>) -> bool
    ensures { result ≡ spec.is_statement class }
{
    matches!(
        class,
        Some(
            Class::Semicolon
                | Class::Begin
                | Class::If
                | Class::Case
                | Class::While
                | Class::Repeat
                | Class::Forever
                | Class::For
                | Class::Return
                | Class::Break
                | Class::Continue
                | Class::Disable
                | Class::Finish
                | Class::Display
                | Class::Write
                | Class::Void
                | Class::Name
        )
    )
}

/// Whether `$display` or `$write` comes next.
pub fn begins_show(tokens: &Cursor<'_>) -> bool
    ensures { result ≡ spec.begins_show (first tokens.now.rest) }
{
    ShowKind::of(tokens.class()).is_some()
}

/// Whether `++` or `--` comes next.
pub fn begins_step(tokens: &Cursor<'_>) -> bool
    ensures { result ≡ spec.begins_step (first tokens.now.rest) }
{
    StepOperator::of(tokens.class()).is_some()
}

/// Whether an item of a `case` comes next (12.5).
pub fn begins_item(tokens: &Cursor<'_>) -> bool
    ensures { result ≡ spec.begins_item (first tokens.now.rest) }
{
    tokens.sees(Class::Default) || begins_expr(tokens.class())
}
