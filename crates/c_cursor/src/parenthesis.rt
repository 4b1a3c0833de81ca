//! Which token opens a level.

ghost use Rattle.std.specs.Prelude.{◌≡◌, slice_get};
ghost use Rattle.dpi_lex.specs.Words.{words_of};
ghost use Rattle.dpi_grammar.specs.Faults.{is_late, opener};
ghost use Rattle.c_cursor.specs.Reading.{late};

use crate::cursor::class_of_token;
use c_tree::Class;
use dpi_lex::Tokens;

/// Whether the token of that number is a `(`.
#[tactic(auto, using(crate::proofs::Places::late_there), unfolding(c_tree::specs::Classes::is_class))]
fn is_parenthesis(tokens: &Tokens, place: u32) -> bool
    ensures { result ≡ is_late late (slice_get (words_of tokens.now) place) }
{
    match class_of_token(tokens, place) {
        Some(class) => class == Class::OpenParen,
        None => false,
    }
}

/// The token that opens the level that shows at that token: the `(` right before it, where there is
/// one, and else that token itself.
///
/// A `(` is known for a parenthesis, which opens a level, by the token behind it alone (ISO C 6.5.1,
/// 6.5.4). No token right behind a `(` opens a level that shows at that token: that of a second `(`
/// shows one token later.
#[tactic(auto, using(crate::proofs::Places::opener_behind))]
pub fn opener(tokens: &Tokens, shows: u32) -> u32
    ensures { result ≡ opener late (words_of tokens.now) shows }
{
    if shows > 0 && is_parenthesis(tokens, shows - 1) {
        return shows - 1;
    }
    shows
}
