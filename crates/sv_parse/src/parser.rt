//! A file's tree, or the first token that doesn't fit.

ghost use Rattle.std.specs.Prelude.{◌≡◌, length, IfErr};
ghost use Rattle.dpi_lex.specs.Words.{words_of};
ghost use Rattle.sv_parse.specs.Answer.{IsAnswer, IsWithin};

use crate::modules::whole_file;
use dpi_grammar::Stop;
use dpi_lex::Tokens;
use std::alloc::Global;
use sv_cursor::Cursor;
use sv_tree::SvFile;
use thiserror::Error;

/// How many levels a file may have.
const MAX_LEVELS: u32 = 24;

/// Why a file has no tree. Tokens count from 0, and the end of the file counts as one.
#[derive(Clone, Copy, Debug, PartialEq, Eq, Error)]
pub enum ParseFault {
    /// The tokens before this one begin a file, and none goes on with this one.
    #[error("unexpected token")]
    Syntax {
        /// The number of the token.
        token: u32,
    },
    /// This token opens level 25: only files of more than 24 levels go on with it.
    #[error("nested too deeply")]
    TooDeep {
        /// The number of the token.
        token: u32,
    },
    /// No memory was found.
    #[error("out of memory")]
    NoMemory,
}

impl From<Stop> for ParseFault {
    ghost use Rattle.std.specs.Prelude.{◌≡◌};
    ghost use Rattle.sv_parse.specs.Faults.{fault_of};

    ghost from_gives = { λ stop fault. fault ≡ fault_of stop };

    fn from(stop: Stop) -> ParseFault {
        match stop {
            Stop::Syntax(token) => ParseFault::Syntax { token },
            Stop::TooDeep(token) => ParseFault::TooDeep { token },
            Stop::Memory => ParseFault::NoMemory,
        }
    }
}

/// The tree of a file (A.1.2): the only one that has these tokens, where there is one of at most
/// 24 levels.
///
/// `ParseFault::Syntax` names the first token with which no file goes on, and `ParseFault::TooDeep`
/// the token that opens a level too many. It takes memory for the tree, and
/// `ParseFault::NoMemory` says that none was found.
pub fn parse(alloc: Global, tokens: &Tokens) -> Result<SvFile, ParseFault>
    ensures answer { IsAnswer (words_of tokens.now) result }
    ensures within { IfErr result (IsWithin (length tokens.now.tokens)) }
{
    let mut cursor = Cursor::new(tokens);
    Ok(whole_file(alloc, &mut cursor, MAX_LEVELS)?)
}
