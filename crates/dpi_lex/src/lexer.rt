//! The tokens of a text, from its beginning to its end.

ghost use Rattle.std.specs.Prelude.{◌≡◌, ◌<◌, ◌≤◌, ◌+◌, ◌||◌, ◌==◌, ◌-◌, [], ◌∷◌, ◌++◌, Ok, Err};
ghost use Rattle.std.specs.Prelude.{length, slice_index, IfOk, IfErr, OnOk};
ghost use Rattle.dpi_lex.specs.declared.fault.LexFault.TheVariants.{NoMemory};
ghost use Rattle.dpi_lex.specs.Languages.{forms_of, sv_lexed, c_lexed};
ghost use Rattle.dpi_lex.specs.Lexed.{IsText, AreSpans};
ghost use Rattle.dpi_lex.specs.Stretches.{front_of, begins_line, stretch_at, fault_place};
ghost use Rattle.dpi_lex.specs.Stretches.{fault_from, lexed, IsPlaced, IsRefusal};

use crate::bytes::bytes_from;
use crate::c_front::c_front;
use crate::fault::LexFault;
use crate::form::{Form, Stretch};
use crate::language::Language;
use crate::sv_front::sv_front;
use crate::token::Token;
use crate::tokens::Tokens;
use std::alloc::Global;

/// Whether a line begins at the place.
fn begins_line(text: &[u8], place: usize) -> bool
    requires { place ≤ length text.now }
    ensures { result ≡ begins_line text.now place }
{
    place == 0 || text[place - 1] == b'\n'
}

/// The longest stretch at the front of the bytes, which begin a line or don't.
fn front(language: Language, begins: bool, rest: &[u8]) -> Stretch
    requires text { IsText rest.now }
    requires some { 0 < length rest.now }
    ensures stretch { result ≡ front_of (forms_of language) begins rest.now }
    ensures placed { IsPlaced result.form }
{
    match language {
        Language::SystemVerilog => sv_front(begins, rest),
        Language::C => c_front(begins, rest),
    }
}

/// The longest stretch from the place on.
fn stretch_at(language: Language, text: &[u8], place: usize) -> Stretch
    requires text { IsText text.now }
    requires place { place < length text.now }
    ensures stretch { result ≡ stretch_at (forms_of language) text.now place }
    ensures some { 0 < result.len }
    ensures within { place + result.len ≤ length text.now }
    ensures placed { IsPlaced result.form }
{
    front(language, begins_line(text, place), bytes_from(text, place))
}

/// A fault whose place counted from `start`.
fn fault_from(start: u32, fault: LexFault) -> LexFault
    requires start { start ≤ 1048576 }
    requires place { fault_place fault ≤ 1048576 }
    ensures { result ≡ fault_from start fault }
{
    match fault {
        LexFault::BadByte { place } => LexFault::BadByte {
            place: start + place,
        },
        LexFault::BadNumber { place } => LexFault::BadNumber {
            place: start + place,
        },
        LexFault::Unclosed { place } => LexFault::Unclosed {
            place: start + place,
        },
        LexFault::NoMemory => LexFault::NoMemory,
    }
}

/// Puts a token behind the others.
fn push(tokens: &mut Vec<Token>, token: Token) -> Result<(), LexFault>
    ensures ok { OnOk result (tokens.new.items ≡ tokens.old.items ++ token ∷ []) }
    ensures err { IfErr result (λ fault. fault ≡ NoMemory) }
{
    tokens.push(token).map_err(|_| LexFault::NoMemory)?;
    Ok(())
}

/// The tokens of a text of the language, or its first fault.
fn tokens_of(alloc: Global, language: Language, text: &[u8]) -> Result<Tokens, LexFault>
    requires { IsText text.now }
    ensures text { IfOk result (λ t. t.text ≡ text.now) }
    ensures tokens { IfOk result (λ t. lexed (forms_of language) text.now ≡ Ok t.tokens) }
    ensures spans { IfOk result (λ t. AreSpans 0 (length t.text) t.tokens) }
    ensures fault { IfErr result (IsRefusal (lexed (forms_of language) text.now)) }
{
    let mut tokens = Vec::new(alloc);
    let mut place = 0;
    while place < text.len() {
        let stretch = stretch_at(language, text, place);
        let start = place as u32;
        place += stretch.len;
        match stretch.form {
            Form::Skipped => {}
            Form::Whole(kind) => {
                let end = place as u32;
                push(&mut tokens, Token { kind, start, end })?;
            }
            Form::Faulty(fault) => return Err(fault_from(start, fault)),
        }
    }
    Tokens::new(alloc, text, tokens)
}

/// The tokens of a text of SystemVerilog (IEEE 1800-2017, clause 5), or its first fault: the first
/// place where no token and nothing that is skipped begins.
///
/// `LexFault::NoMemory` comes where the tokens find no memory; `LexFault::BadByte`,
/// `LexFault::BadNumber` and `LexFault::Unclosed` exactly where the text has that fault.
pub fn sv_tokens(alloc: Global, text: &[u8]) -> Result<Tokens, LexFault>
    requires { IsText text.now }
    ensures text { IfOk result (λ t. t.text ≡ text.now) }
    ensures tokens { IfOk result (λ t. sv_lexed text.now ≡ Ok t.tokens) }
    ensures spans { IfOk result (λ t. AreSpans 0 (length t.text) t.tokens) }
    ensures fault { IfErr result (IsRefusal (sv_lexed text.now)) }
{
    tokens_of(alloc, Language::SystemVerilog, text)
}

/// The tokens of a text of C (ISO C, 6.4), or its first fault: the first place where no token and
/// nothing that is skipped begins.
///
/// `LexFault::NoMemory` comes where the tokens find no memory; `LexFault::BadByte`,
/// `LexFault::BadNumber` and `LexFault::Unclosed` exactly where the text has that fault.
pub fn c_tokens(alloc: Global, text: &[u8]) -> Result<Tokens, LexFault>
    requires { IsText text.now }
    ensures text { IfOk result (λ t. t.text ≡ text.now) }
    ensures tokens { IfOk result (λ t. c_lexed text.now ≡ Ok t.tokens) }
    ensures spans { IfOk result (λ t. AreSpans 0 (length t.text) t.tokens) }
    ensures fault { IfErr result (IsRefusal (c_lexed text.now)) }
{
    tokens_of(alloc, Language::C, text)
}
