//! Fixed forms of files: a list of words, some of which stand for names and numbers.

ghost use Rattle.std.specs.Prelude.{◌≡◌, ◌||◌, map, option_map, length, ◌<◌, All, IfOk, IfSome, IsSome};
ghost use Rattle.dpi_lex.specs.Words.{words_of};
ghost use Rattle.dpirun.specs.Form.{is_name_letter, is_number_letter, fits_word, bytes_at, holes_of};

use crate::literal::value;
use crate::names::is_free;
use dpi_lex::{Kind, Tokens};
use dpi_ports::NoMemory;
use std::alloc::Global;

// a word of one capital letter stands for a name
fn is_name(word: &str) -> bool
    ensures { result ≡ is_name_letter word.now }
{
    matches!(word.as_bytes(), [b'A'..=b'M' | b'O'..=b'Z'])
}

// and an `N` for a number
fn is_number(word: &str) -> bool
    ensures { result ≡ is_number_letter word.now }
{
    matches!(word.as_bytes(), [b'N'])
}

fn is_open(word: &str) -> bool
    ensures { result ≡ (is_name_letter word.now || is_number_letter word.now) }
{
    is_name(word) || is_number(word)
}

fn fits(word: &str, kind: Kind, bytes: &[u8]) -> bool
    ensures { result ≡ fits_word word.now (record { kind = kind; bytes = bytes.now }) }
{
    if is_name(word) {
        kind == Kind::Word && !bytes.starts_with(b"$") && is_free(bytes)
    } else if is_number(word) {
        kind == Kind::Number && value(bytes).is_some()
    } else {
        bytes == word.as_bytes()
    }
}

/// The numbers of the tokens that stand for the names and numbers of a form, in their order, or
/// None where the tokens don't have that form.
///
/// In a form the word `N` stands for a decimal number of at most 4,294,967,295, another single
/// capital letter for a name that is free, and each other word for itself.
pub fn holes(alloc: Global, form: &[&str], tokens: &Tokens) -> Result<Option<Vec<u32>>, NoMemory>
    ensures found { IfOk result (λ found. option_map (λ v. map (bytes_at (words_of tokens.now)) v.items) found
        ≡ holes_of (map (λ word. word.now) form.now) (words_of tokens.now)) }
    ensures inside { IfOk result (λ found. IfSome found (λ v. All (λ i. i < length tokens.now.tokens) v.items)) }
    ensures whole { IfOk result (λ found. IsSome found → length tokens.now.tokens ≡ length form.now) }
{
    if tokens.len() as usize != form.len() {
        return Ok(None);
    }
    let mut found = Vec::new(alloc);
    for (i, word) in form.iter().enumerate() {
        let i = i as u32;
        if !fits(word, tokens.get(i).kind, tokens.bytes(i)) {
            return Ok(None);
        }
        if is_open(word) {
            found.push(i)?;
        }
    }
    Ok(Some(found))
}
