//! Where a parser stands.

ghost use Rattle.std.specs.Prelude.{◌≡◌, ◌+◌, ◌≤◌, length, IfErr, IfOk};
ghost use Rattle.dpi_grammar.specs.Parser.{Reads, first, step, expect};
ghost use Rattle.dpi_grammar.specs.declared.stop.Stop.TheVariants.{Memory};
ghost use Rattle.c_tree.specs.Classes.{class_at, is};
ghost use Rattle.c_cursor.specs.Places.{state_at};
ghost use Rattle.c_cursor.specs.Reading as spec;

use c_tree::{Class, class_of};
use dpi_grammar::Stop;
use dpi_lex::Tokens;
use sqlite_items::Items;
use std::alloc::Global;
use std::marker::Model;

/// A file's tokens that are not read yet, and the class of the first of them.
#[derive(Drop)]
pub struct Cursor<'a> {
    tokens: &'a Tokens,
    place: u32,
    class: Option<Class>,
}

impl<'a> Model for Cursor<'a> {
    ghost use Rattle.dpi_grammar.specs.Parser.{State};
    ghost use Rattle.dpi_lex.specs.Words.{Word};
    ghost use Rattle.c_cursor.specs.Places.{state_at, IsKept};

    ghost Value = { State Word };

    ghost view = { λ c. state_at c.tokens.now c.place };

    ghost invariant = { λ c. IsKept c.tokens.now c.place c.class };
}

/// The class of the token of that number, or None at the end.
#[tactic(auto, using(crate::proofs::Places::class_there, crate::proofs::Places::no_class))]
pub(crate) fn class_of_token(tokens: &Tokens, place: u32) -> Option<Class>
    ensures { result ≡ class_at (first (state_at tokens.now place).rest) }
{
    if place < tokens.len() {
        Some(class_of(tokens.get(place).kind, tokens.bytes(place)))
    } else {
        None
    }
}

impl<'a> Cursor<'a> {
    /// Before the first token of a file.
    pub fn new(tokens: &'a Tokens) -> Cursor<'a>
        ensures { result ≡ state_at tokens.now 0 }
    {
        let _len = tokens.len();
        Cursor {
            tokens,
            place: 0,
            class: class_of_token(tokens, 0),
        }
    }

    /// The class of the next token, or None at the end.
    pub fn class(&self) -> Option<Class>
        ensures { result ≡ class_at (first self.now.rest) }
    {
        self.class
    }

    /// Whether the next token is of that class.
    #[tactic(auto, unfolding(c_tree::specs::Classes::is_class))]
    pub fn sees(&self, class: Class) -> bool
        ensures { result ≡ is class (first self.now.rest) }
    {
        match self.class() {
            Some(next) => class == next,
            None => false,
        }
    }

    /// The number of the next token.
    pub fn place(&self) -> u32
        ensures { result ≡ self.now.place }
    {
        self.place
    }

    /// How many tokens are left.
    pub fn left(&self) -> u32
        ensures count { result ≡ length self.now.rest }
        ensures bound { self.now.place + length self.now.rest ≤ 1048576 }
    {
        self.tokens.len() - self.place
    }

    /// Goes behind the next token; the end stays the end.
    pub fn skip(&mut self)
        ensures { self.new ≡ step self.old }
    {
        if self.place < self.tokens.len() {
            self.place += 1;
            self.class = class_of_token(self.tokens, self.place);
        }
    }

    /// That no tree goes on with the next token.
    pub fn refuse(&self) -> Stop
        ensures { result ≡ Stop.Syntax self.now.place }
    {
        Stop::Syntax(self.place)
    }

    /// That only trees of too many levels go on with the next token.
    pub fn too_deep(&self) -> Stop
        ensures { result ≡ Stop.TooDeep self.now.place }
    {
        Stop::TooDeep(self.place)
    }

    /// Goes behind a token of that class.
    pub fn expect(&mut self, class: Class) -> Result<(), Stop>
        ensures { Reads (expect (is class) self.old) result self.new }
    {
        if !self.sees(class) {
            return Err(self.refuse());
        }
        self.skip();
        Ok(())
    }

    /// Copies the bytes of the next token, where there is one.
    fn bytes(&self, alloc: Global) -> Result<Items<u8>, Stop>
        ensures ok { IfOk result (λ bytes. bytes ≡ spec.bytes_at (first self.now.rest)) }
        ensures err { IfErr result (λ stop. stop ≡ Memory) }
    {
        if self.place < self.tokens.len() {
            return Ok(Items::from_slice(alloc, self.tokens.bytes(self.place))?);
        }
        Ok(Items::new(alloc))
    }

    /// Takes a token of that class, with its bytes.
    pub(crate) fn take(&mut self, alloc: Global, class: Class) -> Result<Items<u8>, Stop>
        ensures { Reads (spec.bytes_of_class class self.old) result self.new }
    {
        if !self.sees(class) {
            return Err(self.refuse());
        }
        let bytes = self.bytes(alloc)?;
        self.skip();
        Ok(bytes)
    }
}
