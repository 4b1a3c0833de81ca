//! What a first token says of a statement or a declaration.

ghost use Rattle.std.specs.Prelude.{◌≡◌};
ghost use Rattle.dpi_grammar.specs.Parser.{first};
ghost use Rattle.c_parse.specs.Front as spec;

use c_cursor::Cursor;
use c_expr::begins_expr;
use c_tree::{Class, StoreKind};
use c_types::begins_type;

/// A statement that opens a level with its first token.
#[derive(Clone, Copy)]
pub enum Nest {
    /// `{`
    Block,
    /// `if`
    If,
    /// `while`
    While,
    /// `do`
    Do,
    /// `for`
    For,
}

/// What a first token says of a statement.
#[derive(Clone, Copy)]
pub enum Front {
    /// `;`
    Empty,
    /// It opens a level.
    Nested(Nest),
    /// `return`
    Return,
    /// `break`
    Break,
    /// `continue`
    Continue,
    /// Nothing but an expression can begin so.
    Expr,
}

/// What a first token of this class says.
pub fn front_of(class: Option<Class>) -> Front
    ensures { result ≡ spec.front_of class }
{
    match class {
        Some(Class::Semicolon) => Front::Empty,
        Some(Class::Return) => Front::Return,
        Some(Class::Break) => Front::Break,
        Some(Class::Continue) => Front::Continue,
        Some(Class::OpenBrace) => Front::Nested(Nest::Block),
        Some(Class::If) => Front::Nested(Nest::If),
        Some(Class::While) => Front::Nested(Nest::While),
        Some(Class::Do) => Front::Nested(Nest::Do),
        Some(Class::For) => Front::Nested(Nest::For),
        _ => Front::Expr,
    }
}

/// Whether a statement that is no expression begins so.
fn is_marked(front: Front) -> bool
    ensures { result ≡ spec.is_marked front }
{
    !matches!(front, Front::Expr)
}

/// Whether a statement begins here (ISO C 6.8).
fn begins_stmt(tokens: &Cursor<'_>) -> bool
    ensures { result ≡ spec.begins_stmt (first tokens.now.rest) }
{
    is_marked(front_of(tokens.class())) || begins_expr(tokens)
}

/// Whether `static` or `extern` stands here (6.7.1).
pub fn begins_store(tokens: &Cursor<'_>) -> bool
    ensures { result ≡ spec.begins_store (first tokens.now.rest) }
{
    StoreKind::of(tokens.class()).is_some()
}

/// Whether a declaration of variables begins here (6.7).
pub fn begins_variables(tokens: &Cursor<'_>) -> bool
    ensures { result ≡ spec.begins_variables (first tokens.now.rest) }
{
    begins_store(tokens) || begins_type(tokens)
}

/// Whether a part of a block begins here (6.8.2).
pub fn begins_part(tokens: &Cursor<'_>) -> bool
    ensures { result ≡ spec.begins_part (first tokens.now.rest) }
{
    begins_variables(tokens) || begins_stmt(tokens)
}

/// Whether an external declaration begins here (6.9, 6.10.3).
pub fn begins_external(tokens: &Cursor<'_>) -> bool
    ensures { result ≡ spec.begins_external (first tokens.now.rest) }
{
    tokens.sees(Class::Define) || begins_variables(tokens)
}

/// Whether a size begins here (6.7.6.2).
pub fn begins_size(tokens: &Cursor<'_>) -> bool
    ensures { result ≡ spec.begins_size (first tokens.now.rest) }
{
    tokens.sees(Class::Number) || tokens.sees(Class::Name)
}
