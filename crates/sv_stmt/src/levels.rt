//! Levels that are left.

ghost use Rattle.std.specs.Prelude.{◌≡◌, ◌<◌, MatchResult, Some, None};
ghost use Rattle.sv_stmt.specs.ReadingVariables as variables;
ghost use Rattle.sv_stmt.specs.ReadingStatements as spec;

use dpi_grammar::Stop;
use sv_cursor::Cursor;

/// One level less, or that the next token opens a level too many.
pub fn enter(tokens: &Cursor<'_>, depth: u32) -> Result<u32, Stop>
    ensures { MatchResult result
        (λ inner. (inner < depth) × (variables.patterns depth ≡ Some (variables.init inner)) × (spec.nested depth ≡ Some (inner, spec.statement inner)))
        (λ stop. (stop ≡ Stop.TooDeep tokens.now.place) × (variables.patterns depth ≡ None) × (spec.nested depth ≡ None)) }
{
    if depth == 0 {
        return Err(tokens.too_deep());
    }
    Ok(depth - 1)
}
