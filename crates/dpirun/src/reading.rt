//! The reading of a file: its text, its tokens and its tree.

ghost use Rattle.std.specs.Prelude.{◌≡◌, ◌≢◌, ◌≤◌, OnOk, IfOk, IfErr, IfSome, IsErrOf};
ghost use Rattle.std.specs.String.{string_bytes};
ghost use Rattle.dpi_grammar.specs.Faults.{IsParsed};
ghost use Rattle.dpi_lex.specs.Lexed.{IsText};
ghost use Rattle.dpi_lex.specs.Stretches as lex;
ghost use Rattle.dpi_lex.specs.Words.{words_of};
ghost use Rattle.dpi_ports.specs.Told.{HasRisen, Holds, HoldsMore};
ghost use Rattle.sv_tree.specs.Items as sv_items;
ghost use Rattle.c_tree.specs.File as c_file;
ghost use Rattle.dpirun.specs.Faults.{lexed_as, most_levels};
ghost use Rattle.dpirun.specs.Readings.{AddsSv, AddsC, Adds};
ghost use Rattle.dpirun.specs.Refusals.{WhenRefused, IsOf, IsOfFile};
ghost use Rattle.dpirun.specs.Shown.{source_shown, sources_shown};
ghost use Rattle.dpirun.specs.Sources.{IsSource};
ghost use Rattle.dpirun.specs.declared.command.Language.TheVariants as languages;
ghost use Rattle.dpirun.specs.declared.reading.ReadFault.TheVariants as faults;

use crate::command::{Language, language_of};
use crate::refusal::{Code, Refusal};
use crate::sources::{Source, Sources};
use c_tree::CFile;
use dpi_lex::{LexFault, Tokens, c_tokens, sv_tokens};
use dpi_ports::{FetchFault, Files, NoMemory};
use std::alloc::Global;
use sv_tree::SvFile;
use thiserror::Error;

/// Why a file isn't accepted.
#[derive(Clone, Copy, Debug, PartialEq, Eq, Error)]
pub enum ReadFault {
    /// It is refused.
    #[error("the file is refused")]
    Refused(Refusal),
    /// Its fetch failed.
    #[error("the file could not be read")]
    Unread,
    /// No memory was found.
    #[error("out of memory")]
    NoMemory,
}

impl From<NoMemory> for ReadFault {
    ghost from_gives = { λ _ e. e ≡ faults.NoMemory };

    fn from(_: NoMemory) -> ReadFault {
        ReadFault::NoMemory
    }
}

// the text of a file, of at most a mebibyte
fn fetched<F: Files>(alloc: Global, files: &mut F, name: &str) -> Result<Vec<u8>, FetchFault>
    ensures ok { IfOk result (λ text. Holds (F.told files.old) name.now text.items) }
    ensures within { IfOk result (λ text. IsText text.items) }
    ensures too_long { IsErrOf result FetchFault.TooLong → HoldsMore (F.told files.old) name.now 1_048_576 }
    ensures unread { IsErrOf result FetchFault.Failed → HasRisen (F.faults files.old) (F.faults files.new) }
    ensures named { IsErrOf result FetchFault.Failed → IfSome (F.last_fault files.new) (λ n. n ≡ name.now) }
    ensures kept { F.told files.new ≡ F.told files.old }
    ensures later { F.faults files.old ≤ F.faults files.new }
{
    let mut text = Vec::new(alloc);
    files.fetch(alloc, name, &mut text)?;
    Ok(text)
}

// the tokens of a text, or its first fault
fn tokens_of(alloc: Global, language: Language, text: &[u8]) -> Result<Tokens, LexFault>
    requires { IsText text.now }
    ensures text { IfOk result (λ l. l.text ≡ text.now) }
    ensures tokens { IfOk result (λ l. lexed_as language text.now ≡ Ok l.tokens) }
    ensures fault { IfErr result (lex.IsRefusal (lexed_as language text.now)) }
{
    match language {
        Language::SystemVerilog => sv_tokens(alloc, text),
        Language::C => c_tokens(alloc, text),
    }
}

// the same, with the line and column of the fault
fn lexed(alloc: Global, language: Language, text: &[u8]) -> Result<Tokens, ReadFault>
    requires { IsText text.now }
    ensures text { IfOk result (λ l. l.text ≡ text.now) }
    ensures tokens { IfOk result (λ l. lexed_as language text.now ≡ Ok l.tokens) }
    ensures refused { IfErr result (WhenRefused (IsOf language text.now)) }
    ensures read { result ≢ Err faults.Unread }
{
    let (code, place) = match tokens_of(alloc, language, text) {
        Ok(tokens) => return Ok(tokens),
        Err(LexFault::BadByte { place }) => (Code::BadByte, place),
        Err(LexFault::BadNumber { place }) => (Code::BadNumber, place),
        Err(LexFault::Unclosed { place }) => (Code::Unclosed, place),
        Err(LexFault::NoMemory) => return Err(ReadFault::NoMemory),
    };
    Err(ReadFault::Refused(Refusal::at(text, place, code)))
}

// the tree of a SystemVerilog file with these tokens
fn sv_parsed(alloc: Global, tokens: &Tokens) -> Result<SvFile, ReadFault>
    requires text { IsText tokens.now.text }
    requires tokens { lexed_as languages.SystemVerilog tokens.now.text ≡ Ok tokens.now.tokens }
    ensures ok { IfOk result (λ tree. IsParsed sv_items.file_told most_levels (words_of tokens.now) tree) }
    ensures refused { IfErr result (WhenRefused (IsOf languages.SystemVerilog tokens.now.text)) }
    ensures read { result ≢ Err faults.Unread }
{
    let (code, token) = match sv_parse::parse(alloc, tokens) {
        Ok(tree) => return Ok(tree),
        Err(sv_parse::ParseFault::Syntax { token }) => (Code::Syntax, token),
        Err(sv_parse::ParseFault::TooDeep { token }) => (Code::TooDeep, token),
        Err(sv_parse::ParseFault::NoMemory) => return Err(ReadFault::NoMemory),
    };
    Err(ReadFault::Refused(Refusal::at_token(tokens, token, code)))
}

// the tree of a C file with these tokens
#[tactic(auto, using(crate::proofs::Readings::refused_within, crate::proofs::Readings::too_deep_within))]
fn c_parsed(alloc: Global, tokens: &Tokens) -> Result<CFile, ReadFault>
    requires text { IsText tokens.now.text }
    requires tokens { lexed_as languages.C tokens.now.text ≡ Ok tokens.now.tokens }
    ensures ok { IfOk result (λ tree. IsParsed c_file.file_told most_levels (words_of tokens.now) tree) }
    ensures refused { IfErr result (WhenRefused (IsOf languages.C tokens.now.text)) }
    ensures read { result ≢ Err faults.Unread }
{
    let refusal = match c_parse::parse(alloc, tokens) {
        Ok(tree) => return Ok(tree),
        Err(c_parse::ParseFault::Syntax { token }) => {
            Refusal::at_token(tokens, token, Code::Syntax)
        }
        Err(c_parse::ParseFault::TooDeep { token }) => {
            Refusal::at_token(tokens, token, Code::TooDeep)
        }
        Err(c_parse::ParseFault::NoMemory) => return Err(ReadFault::NoMemory),
    };
    Err(ReadFault::Refused(refusal))
}

// adds a SystemVerilog file with its tree
fn add_sv(alloc: Global, source: Source, sources: &mut Sources) -> Result<(), ReadFault>
    requires text { IsText source.tokens.text }
    requires tokens { lexed_as languages.SystemVerilog source.tokens.text ≡ Ok source.tokens.tokens }
    ensures ok { OnOk result (AddsSv (source_shown source) (sources_shown sources.old) (sources_shown sources.new)) }
    ensures refused { IfErr result (WhenRefused (IsOf languages.SystemVerilog source.tokens.text)) }
    ensures read { result ≢ Err faults.Unread }
{
    let tree = sv_parsed(alloc, &source.tokens)?;
    sources.add_sv(source, tree)?;
    Ok(())
}

// adds a C file with its tree
fn add_c(alloc: Global, source: Source, sources: &mut Sources) -> Result<(), ReadFault>
    requires text { IsText source.tokens.text }
    requires tokens { lexed_as languages.C source.tokens.text ≡ Ok source.tokens.tokens }
    ensures ok { OnOk result (AddsC (source_shown source) (sources_shown sources.old) (sources_shown sources.new)) }
    ensures refused { IfErr result (WhenRefused (IsOf languages.C source.tokens.text)) }
    ensures read { result ≢ Err faults.Unread }
{
    let tree = c_parsed(alloc, &source.tokens)?;
    sources.add_c(source, tree)?;
    Ok(())
}

// the text of a file, or why there is none
fn text_of<F: Files>(alloc: Global, files: &mut F, name: &str) -> Result<Vec<u8>, ReadFault>
    ensures ok { IfOk result (λ text. Holds (F.told files.old) name.now text.items) }
    ensures within { IfOk result (λ text. IsText text.items) }
    ensures refused { IfErr result (WhenRefused (IsOfFile (F.told files.old) name.now)) }
    ensures unread { IsErrOf result ReadFault.Unread → HasRisen (F.faults files.old) (F.faults files.new) }
    ensures named { IsErrOf result ReadFault.Unread → IfSome (F.last_fault files.new) (λ n. n ≡ name.now) }
    ensures kept { F.told files.new ≡ F.told files.old }
    ensures later { F.faults files.old ≤ F.faults files.new }
{
    match fetched(alloc, files, name) {
        Ok(text) => Ok(text),
        Err(FetchFault::Failed) => Err(ReadFault::Unread),
        Err(FetchFault::TooLong) => Err(ReadFault::Refused(Refusal::too_long())),
        Err(FetchFault::NoMemory) => Err(ReadFault::NoMemory),
    }
}

// fetches a file and reads its tokens
fn read<F: Files>(alloc: Global, files: &mut F, name: &str) -> Result<Source, ReadFault>
    ensures ok { IfOk result (λ s. IsSource (F.told files.old) (source_shown s)) }
    ensures name { IfOk result (λ s. string_bytes s.name ≡ name.now) }
    ensures refused { IfErr result (WhenRefused (IsOfFile (F.told files.old) name.now)) }
    ensures unread { IsErrOf result ReadFault.Unread → HasRisen (F.faults files.old) (F.faults files.new) }
    ensures named { IsErrOf result ReadFault.Unread → IfSome (F.last_fault files.new) (λ n. n ≡ name.now) }
    ensures kept { F.told files.new ≡ F.told files.old }
    ensures later { F.faults files.old ≤ F.faults files.new }
{
    let text = text_of(alloc, files, name)?;
    let tokens = lexed(alloc, language_of(name), &text)?;
    let Ok(name) = String::from_str(alloc, name) else {
        return Err(ReadFault::NoMemory);
    };
    Ok(Source { name, tokens })
}

/// Fetches a file, reads its tokens, which are those of a file of its language's grammar, and adds
/// it with its tree.
///
/// `ReadFault::Refused` comes exactly where the file is too long, has a place where no token
/// begins, or has a token that its grammar refuses, and `ReadFault::Unread` only where the fetch
/// failed, which was counted. After a fault the sources are of no use.
pub fn add<F: Files>(
    alloc: Global,
    files: &mut F,
    name: &str,
    sources: &mut Sources,
) -> Result<(), ReadFault>
    ensures ok { OnOk result (Adds (F.told files.old) name.now (sources_shown sources.old) (sources_shown sources.new)) }
    ensures refused { IfErr result (WhenRefused (IsOfFile (F.told files.old) name.now)) }
    ensures unread { IsErrOf result ReadFault.Unread → HasRisen (F.faults files.old) (F.faults files.new) }
    ensures named { IsErrOf result ReadFault.Unread → IfSome (F.last_fault files.new) (λ n. n ≡ name.now) }
    ensures kept { F.told files.new ≡ F.told files.old }
    ensures later { F.faults files.old ≤ F.faults files.new }
{
    let source = read(alloc, files, name)?;
    match language_of(name) {
        Language::SystemVerilog => add_sv(alloc, source, sources),
        Language::C => add_c(alloc, source, sources),
    }
}
