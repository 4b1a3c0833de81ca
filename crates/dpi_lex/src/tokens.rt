//! A text with its tokens.

ghost use Rattle.std.specs.Prelude.{◌≡◌, ◌==◌, ◌<◌, ◌≤◌, length, slice_get, Some, IsSomeAnd, IfOk};
ghost use Rattle.std.specs.Prelude.{IfErr};
ghost use Rattle.dpi_lex.specs.Lexed.{IsText, AreSpans, IsInside};
ghost use Rattle.dpi_lex.specs.declared.fault.LexFault.TheVariants.{NoMemory};
ghost use Rattle.dpi_lex.specs.Words.{words_of, place_of};
ghost use Rattle.dpi_lex.specs.Place.{line_of, column_of};

use crate::fault::LexFault;
use crate::place::line_column_of;
use crate::token::Token;
use std::alloc::Global;
use std::marker::Model;

/// A text and its tokens, which rise from its beginning to its end and share no byte.
#[derive(Drop)]
pub struct Tokens {
    text: Vec<u8>,
    tokens: Vec<Token>,
}

impl Model for Tokens {
    ghost use Rattle.dpi_lex.specs.Lexed.{Lexed, IsText, AreSpans};
    ghost use Rattle.std.specs.Prelude.{length};

    ghost Value = { Lexed };

    ghost view = { λ t. record { text = t.text.items; tokens = t.tokens.items } };

    ghost invariant = { λ t. IsText t.text.items
        × AreSpans 0 (length t.text.items) t.tokens.items };
}

impl Tokens {
    /// A copy of the text, with tokens that are its own.
    pub(crate) fn new(alloc: Global, text: &[u8], tokens: Vec<Token>) -> Result<Tokens, LexFault>
        requires text { IsText text.now }
        requires tokens { AreSpans 0 (length text.now) tokens.items }
        ensures ok { IfOk result (λ t. t ≡ record { text = text.now; tokens = tokens.items }) }
        ensures err { IfErr result (λ fault. fault ≡ NoMemory) }
    {
        let text = Vec::from_slice(alloc, text).map_err(|_| LexFault::NoMemory)?;
        Ok(Tokens { text, tokens })
    }

    /// How many tokens the text has.
    pub fn len(&self) -> u32
        ensures count { result ≡ length self.now.tokens }
        ensures spans { AreSpans 0 (length self.now.text) self.now.tokens }
        ensures bound { result ≤ 1048576 }
    {
        self.tokens.len() as u32
    }

    /// Whether the text has no token.
    pub fn is_empty(&self) -> bool
        ensures { result ≡ (length self.now.tokens == 0) }
    {
        self.tokens.is_empty()
    }

    /// The token of that number, from 0.
    pub fn get(&self, i: u32) -> Token
        requires { i < length self.now.tokens }
        ensures token { slice_get self.now.tokens i ≡ Some result }
        ensures kind { IsSomeAnd (slice_get (words_of self.now) i) (λ w. w.kind ≡ result.kind) }
        ensures inside { IsInside self.now.text result }
    {
        self.tokens[i as usize]
    }

    /// The bytes of the token of that number, from 0. There is at least one.
    pub fn bytes(&self, i: u32) -> &[u8]
        requires { i < length self.now.tokens }
        ensures bytes { IsSomeAnd (slice_get (words_of self.now) i) (λ w. w.bytes ≡ result.now) }
        ensures some { 0 < length result.now }
    {
        let token = self.get(i);
        &self.text[token.start as usize..token.end as usize]
    }

    /// The place, in bytes from 0, where the token of that number begins; the text's length for
    /// the number after the last.
    pub fn place(&self, i: u32) -> u32
        requires { i ≤ length self.now.tokens }
        ensures place { result ≡ place_of self.now i }
        ensures inside { result ≤ length self.now.text }
    {
        if i < self.len() {
            self.get(i).start
        } else {
            self.text.len() as u32
        }
    }

    /// The line and the column of a place of the text, both from 1. A line ends at the byte 10
    /// alone, and a column counts bytes. The place is in bytes from 0, at most the text's length.
    pub fn line_column(&self, place: u32) -> (u32, u32)
        requires { place ≤ length self.now.text }
        ensures line { result.0 ≡ line_of self.now.text place }
        ensures column { result.1 ≡ column_of self.now.text place }
    {
        line_column_of(&self.text, place)
    }
}
