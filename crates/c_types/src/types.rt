//! Types (ISO C 6.7.2, 6.7.3, 6.7.6.1).

ghost use Rattle.std.specs.Prelude.{◌≡◌, []};
ghost use Rattle.dpi_grammar.specs.Parser.{Reads, first};
ghost use Rattle.c_types.specs.Reading as spec;

use c_cursor::Cursor;
use c_tree::{BaseRest, BaseWord, CType, Class, Star};
use dpi_grammar::Stop;
use sqlite_items::Items;
use std::alloc::Global;

/// Whether a type begins here.
pub fn begins_type(tokens: &Cursor<'_>) -> bool
    ensures { result ≡ spec.begins_type (first tokens.now.rest) }
{
    tokens.sees(Class::Const) || BaseWord::of(tokens.class()).is_some()
}

/// The number of a `const`.
#[tactic(auto, unfolding(crate::specs::Reading::constant))]
fn constant(tokens: &mut Cursor<'_>) -> Result<u32, Stop>
    ensures { Reads (spec.constant tokens.old) result tokens.new }
{
    let token = tokens.place();
    tokens.expect(Class::Const)?;
    Ok(token)
}

/// The numbers of the `const` that come next.
// "const"*
fn constants(alloc: Global, tokens: &mut Cursor<'_>) -> Result<Items<u32>, Stop>
    ensures { Reads (spec.constants tokens.old) result tokens.new }
{
    let mut found = Items::new(alloc);
    for _turn in 0..tokens.left() {
        if !tokens.sees(Class::Const) {
            return Ok(found);
        }
        found.push(constant(tokens)?)?;
    }
    Ok(found)
}

/// The next word of a base, and what the base goes on with behind it, where one may come next.
fn word_next(rest: BaseRest, tokens: &Cursor<'_>) -> Option<(BaseWord, BaseRest)>
    ensures { result ≡ spec.word_next rest (first tokens.now.rest) }
{
    let word = BaseWord::of(tokens.class())?;
    let next = rest.behind(word)?;
    Some((word, next))
}

/// The words of a base, where it may end here.
fn base_end(
    rest: BaseRest,
    found: Items<BaseWord>,
    tokens: &Cursor<'_>,
) -> Result<Items<BaseWord>, Stop>
    ensures { Reads (spec.base_end rest found tokens.now) result tokens.now }
{
    if rest.may_end() {
        Ok(found)
    } else {
        Err(tokens.refuse())
    }
}

/// The words of a base (6.7.2).
// base
fn base(alloc: Global, tokens: &mut Cursor<'_>) -> Result<Items<BaseWord>, Stop>
    ensures { Reads (spec.base tokens.old) result tokens.new }
{
    let mut found = Items::new(alloc);
    let mut rest = BaseRest::Whole;
    for _turn in 0..4u32 {
        let Some((word, next)) = word_next(rest, tokens) else {
            return base_end(rest, found, tokens);
        };
        tokens.skip();
        found.push(word)?;
        rest = next;
    }
    base_end(rest, found, tokens)
}

/// A type.
// type = "const"* base "const"*
#[tactic(auto, unfolding(crate::specs::Reading::type_name))]
pub fn type_name(alloc: Global, tokens: &mut Cursor<'_>) -> Result<CType, Stop>
    ensures { Reads (spec.type_name tokens.old) result tokens.new }
{
    let token = tokens.place();
    let before = constants(alloc, tokens)?;
    let base = base(alloc, tokens)?;
    let behind = constants(alloc, tokens)?;
    Ok(CType {
        token,
        before,
        base,
        behind,
    })
}

/// A star, with the `const` behind it.
// "*" "const"*
#[tactic(auto, unfolding(crate::specs::Reading::star))]
fn star(alloc: Global, tokens: &mut Cursor<'_>) -> Result<Star, Stop>
    ensures { Reads (spec.star tokens.old) result tokens.new }
{
    let token = tokens.place();
    tokens.expect(Class::Star)?;
    let constants = constants(alloc, tokens)?;
    Ok(Star { token, constants })
}

/// The stars behind a type.
// stars = ("*" "const"*)*
pub fn stars(alloc: Global, tokens: &mut Cursor<'_>) -> Result<Items<Star>, Stop>
    ensures { Reads (spec.stars tokens.old) result tokens.new }
{
    let mut found = Items::new(alloc);
    for _turn in 0..tokens.left() {
        if !tokens.sees(Class::Star) {
            return Ok(found);
        }
        found.push(star(alloc, tokens)?)?;
    }
    Ok(found)
}
