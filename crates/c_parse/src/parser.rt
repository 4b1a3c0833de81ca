//! From the tokens of a file to its tree.

ghost use Rattle.dpi_lex.specs.Words.{words_of};
ghost use Rattle.c_parse.specs.Answer.{IsAnswer};

use crate::fault::ParseFault;
use crate::file::whole;
use c_cursor::{Cursor, opener};
use c_tree::CFile;
use dpi_grammar::Stop;
use dpi_lex::Tokens;
use std::alloc::Global;

/// How many levels a tree may have.
const MAX_LEVELS: u32 = 24;

/// The one tree of at most 24 levels whose tokens these are (ISO C 6.5 to 6.9).
///
/// `ParseFault::Syntax` names the first token with which no tree of any number of levels goes on;
/// `ParseFault::TooDeep` the token that opens a level too many, where trees of more levels go on
/// with the first token with which none of at most 24 does. That is this token itself or, where it
/// stands right behind a `(`, that `(`. The tree takes memory, and `ParseFault::NoMemory` says that
/// some was wanting.
#[tactic(auto, using(crate::proofs::Answers::refused))]
pub fn parse(alloc: Global, tokens: &Tokens) -> Result<CFile, ParseFault>
    ensures answer { IsAnswer (words_of tokens.now) result }
{
    let mut rest = Cursor::new(tokens);
    match whole(alloc, &mut rest, MAX_LEVELS) {
        Ok(file) => Ok(file),
        Err(Stop::Syntax(token)) => Err(ParseFault::Syntax { token }),
        Err(Stop::TooDeep(shows)) => Err(ParseFault::TooDeep {
            token: opener(tokens, shows),
        }),
        Err(Stop::Memory) => Err(ParseFault::NoMemory),
    }
}
