//! Trees of texts.

use dpi_lex::sv_tokens;
use std::alloc::Global;
use std::process::Abort;
use std::test::Fail;
use sv_parse::parse;
use sv_tree::{Item, SvFile};

/// The tree of a file.
pub fn file(rt: &impl Abort, alloc: Global, text: &[u8]) -> Result<SvFile, Fail> {
    assert!(rt; text.len() <= 1_048_576);
    let tokens = sv_tokens(alloc, text)?;
    Ok(parse(alloc, &tokens)?)
}

/// An item of the first module of a file.
pub fn item(file: &SvFile, number: usize) -> Option<&Item> {
    file.modules.get(0)?.items.get(number)
}
