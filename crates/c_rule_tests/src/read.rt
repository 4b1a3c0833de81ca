//! From texts to trees, and to parts of them.
use c_parse::parse;
use c_tree::{CExpr, CFile, External, Init, Size};
use dpi_lex::c_tokens;
use std::alloc::Global;
use std::process::Abort;

/// The tree of a file.
pub fn file(rt: &impl Abort, alloc: Global, text: &[u8]) -> CFile {
    assert!(rt; text.len() <= 1_048_576);
    let tokens = c_tokens(alloc, text).expect(rt, "a text of tokens");
    parse(alloc, &tokens).expect(rt, "a file")
}

/// The expression with which a variable begins, counted from 0 in the first declaration.
pub fn value(tree: &CFile, number: usize) -> Option<&CExpr> {
    let External::Variables(variables) = tree.externals.get(0)? else {
        return None;
    };
    let initializer = variables.declarators.get(number)?.initializer.as_ref()?;
    match &initializer.value {
        Init::Value(value) => Some(value),
        Init::List(..) => None,
    }
}

/// The size of the first variable.
pub fn size(tree: &CFile) -> Option<&Size> {
    let External::Variables(variables) = tree.externals.get(0)? else {
        return None;
    };
    let array = variables.declarators.get(0)?.array.as_ref()?;
    Some(&array.size)
}
