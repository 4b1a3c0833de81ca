//! Where and why a file is refused.

ghost use Rattle.std.specs.Prelude.{◌≡◌, ◌≤◌, length};
ghost use Rattle.dpi_lex.specs.Lexed.{IsText};
ghost use Rattle.dpi_lex.specs.Place.{line_of, column_of};
ghost use Rattle.dpi_lex.specs.Words.{place_of};
ghost use Rattle.dpirun.specs.Faults.{code_bytes};

use dpi_lex::{Tokens, line_column_of};

/// Why a file is refused. The first two stand for a text, the next two for the first place where no
/// token begins, the last two for a token.
#[derive(Clone, Copy, Debug, PartialEq, Eq)]
pub enum Code {
    /// It has more than 1,048,576 bytes.
    TooLong,
    /// A byte at which no token begins, or that a string can't hold.
    BadByte,
    /// A number that breaks a rule of its form or is past its limit.
    BadNumber,
    /// A string or a comment without its end.
    Unclosed,
    /// A token with which no file of the grammar goes on.
    Syntax,
    /// A token that opens level 25.
    TooDeep,
}

impl Code {
    /// How the code is printed.
    pub fn bytes(self) -> &'static [u8]
        ensures { result.now ≡ code_bytes self }
    {
        match self {
            Code::TooLong => b"TooLong",
            Code::BadByte => b"BadByte",
            Code::BadNumber => b"BadNumber",
            Code::Unclosed => b"Unclosed",
            Code::Syntax => b"Syntax",
            Code::TooDeep => b"TooDeep",
        }
    }
}

/// Why a file is refused, and where.
#[derive(Clone, Copy, Debug, PartialEq, Eq)]
pub struct Refusal {
    /// The line, from 1.
    pub line: u32,
    /// The column, from 1, in bytes.
    pub column: u32,
    /// Why.
    pub code: Code,
}

impl Refusal {
    /// The refusal of a text that is too long: it stands at the first byte.
    pub fn too_long() -> Refusal
        ensures { result ≡ record { line = 1; column = 1; code = Code.TooLong } }
    {
        Refusal {
            line: 1,
            column: 1,
            code: Code::TooLong,
        }
    }

    /// The refusal of a text at a place, in bytes from 0; a place past the end is the end.
    pub fn at(text: &[u8], place: u32, code: Code) -> Refusal
        requires { IsText text.now }
        ensures line { result.line ≡ line_of text.now place }
        ensures column { result.column ≡ column_of text.now place }
        ensures code { result.code ≡ code }
    {
        let (line, column) = line_column_of(text, place.min(text.len() as u32));
        Refusal { line, column, code }
    }

    /// The refusal of a token, by its number from 0; the end of the file counts as a token.
    pub fn at_token(tokens: &Tokens, token: u32, code: Code) -> Refusal
        requires { token ≤ length tokens.now.tokens }
        ensures line { result.line ≡ line_of tokens.now.text (place_of tokens.now token) }
        ensures column { result.column ≡ column_of tokens.now.text (place_of tokens.now token) }
        ensures code { result.code ≡ code }
    {
        let (line, column) = tokens.line_column(tokens.place(token));
        Refusal { line, column, code }
    }
}
