//! What stands in headers of functions and tasks: lifetimes and what a function gives
//! (IEEE 1800-2017, 13.3, 13.4).

ghost use Rattle.dpi_grammar.specs.Parser.{Reads};
ghost use Rattle.sv_parse.specs.Headers as spec;

use dpi_grammar::Stop;
use std::alloc::Global;
use sv_cursor::Cursor;
use sv_tree::{Class, Life, Lifetime, Outcome};
use sv_types::data_type;

/// The word of a lifetime.
fn lifetime(tokens: &mut Cursor<'_>) -> Result<Lifetime, Stop>
    ensures { Reads (spec.lifetime tokens.old) result tokens.new }
{
    match Lifetime::of(tokens.class()) {
        Some(lifetime) => {
            tokens.skip();
            Ok(lifetime)
        }
        None => Err(tokens.refuse()),
    }
}

/// A lifetime (13.3.1, 13.4.2).
// life = "automatic" | "static"
#[tactic(auto, unfolding(crate::specs::Headers::life))]
fn life(tokens: &mut Cursor<'_>) -> Result<Life, Stop>
    ensures { Reads (spec.life tokens.old) result tokens.new }
{
    let token = tokens.place();
    let lifetime = lifetime(tokens)?;
    Ok(Life { token, lifetime })
}

/// A lifetime where one begins.
pub(crate) fn optional_life(tokens: &mut Cursor<'_>) -> Result<Option<Life>, Stop>
    ensures { Reads (spec.optional_life tokens.old) result tokens.new }
{
    if Lifetime::of(tokens.class()).is_none() {
        return Ok(None);
    }
    Ok(Some(life(tokens)?))
}

/// What a function gives (13.4.1).
// type | "void"
#[tactic(auto, unfolding(crate::specs::Headers::outcome, crate::specs::Headers::void))]
pub(crate) fn outcome(alloc: Global, tokens: &mut Cursor<'_>) -> Result<Outcome, Stop>
    ensures { Reads (spec.outcome tokens.old) result tokens.new }
{
    if tokens.sees(Class::Void) {
        let token = tokens.place();
        tokens.expect(Class::Void)?;
        return Ok(Outcome::Void(token));
    }
    let kind = data_type(alloc, tokens)?;
    Ok(Outcome::Data(kind))
}
