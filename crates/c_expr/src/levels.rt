//! Levels that are left.

ghost use Rattle.std.specs.Prelude.{◌≡◌, ◌<◌, MatchResult, Some, None};
ghost use Rattle.c_expr.specs.Reading as spec;

use c_cursor::Cursor;
use dpi_grammar::Stop;

/// One level less, or that only trees of too many levels go on with the next token.
pub fn enter(tokens: &Cursor<'_>, depth: u32) -> Result<u32, Stop>
    ensures { MatchResult result
        (λ inner. (inner < depth) × (spec.inside depth ≡ Some (spec.readers inner)))
        (λ stop. (stop ≡ Stop.TooDeep tokens.now.place) × (spec.inside depth ≡ None)) }
{
    if depth == 0 {
        return Err(tokens.too_deep());
    }
    Ok(depth - 1)
}
