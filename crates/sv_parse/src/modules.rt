//! Modules and files (IEEE 1800-2017, 23.2, A.1.2).

ghost use Rattle.dpi_grammar.specs.Parser.{Reads};
ghost use Rattle.sv_parse.specs.Reading as spec;

use crate::items::listed_items;
use dpi_grammar::Stop;
use sqlite_items::Items;
use std::alloc::Global;
use sv_cursor::{Cursor, name, optional_label};
use sv_tree::{Class, Module, SvFile};

/// Whether a `(` comes next, which is then read with the `)` behind it.
// ("(" ")")?
#[tactic(auto, unfolding(crate::specs::Reading::parentheses))]
fn parentheses(tokens: &mut Cursor<'_>) -> Result<bool, Stop>
    ensures { Reads (spec.parentheses tokens.old) result tokens.new }
{
    if !tokens.sees(Class::OpenParen) {
        return Ok(false);
    }
    tokens.expect(Class::OpenParen)?;
    tokens.expect(Class::CloseParen)?;
    Ok(true)
}

/// A module (23.2).
// module = "module" name ("(" ")")? ";" item* "endmodule" label?
#[tactic(auto, unfolding(crate::specs::Reading::one_module))]
fn module(alloc: Global, tokens: &mut Cursor<'_>, depth: u32) -> Result<Module, Stop>
    ensures { Reads (spec.one_module depth tokens.old) result tokens.new }
{
    let token = tokens.place();
    tokens.expect(Class::Module)?;
    let name = name(alloc, tokens)?;
    let parentheses = parentheses(tokens)?;
    tokens.expect(Class::Semicolon)?;
    let items = listed_items(alloc, tokens, depth)?;
    tokens.expect(Class::EndModule)?;
    let end = optional_label(alloc, tokens)?;
    Ok(Module {
        token,
        name,
        parentheses,
        items,
        end,
    })
}

/// Modules for as long as one begins.
// module*
fn modules(alloc: Global, tokens: &mut Cursor<'_>, depth: u32) -> Result<Items<Module>, Stop>
    ensures { Reads (spec.modules depth tokens.old) result tokens.new }
{
    let mut found = Items::new(alloc);
    for _turn in 0..tokens.left() {
        if !tokens.sees(Class::Module) {
            return Ok(found);
        }
        found.push(module(alloc, tokens, depth)?)?;
    }
    Ok(found)
}

/// A file, up to its end.
// file = module*
#[tactic(auto, unfolding(crate::specs::Reading::file))]
pub(crate) fn whole_file(alloc: Global, tokens: &mut Cursor<'_>, depth: u32) -> Result<SvFile, Stop>
    ensures { Reads (spec.whole_file depth tokens.old) result tokens.new }
{
    let modules = modules(alloc, tokens, depth)?;
    if tokens.class().is_some() {
        return Err(tokens.refuse());
    }
    Ok(SvFile { modules })
}
