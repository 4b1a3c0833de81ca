//! Items of modules (IEEE 1800-2017, 23.2.4).

ghost use Rattle.std.specs.Prelude.{◌≡◌};
ghost use Rattle.dpi_grammar.specs.Parser.{Reads, first};
ghost use Rattle.sv_parse.specs.Reading as spec;

use crate::exports::export;
use crate::functions::{function, task};
use crate::imports::import;
use dpi_grammar::Stop;
use sqlite_items::Items;
use std::alloc::Global;
use sv_cursor::{Cursor, name};
use sv_stmt::{statement, variables};
use sv_tree::{Class, Item};
use sv_types::begins_data_type;

/// Whether an item begins here.
fn begins_item(tokens: &Cursor<'_>) -> bool
    ensures { result ≡ spec.begins_item (first tokens.now.rest) }
{
    begins_data_type(tokens)
        || tokens.sees(Class::Import)
        || tokens.sees(Class::Export)
        || tokens.sees(Class::Function)
        || tokens.sees(Class::Task)
        || tokens.sees(Class::Initial)
        || tokens.sees(Class::Name)
}

/// An initial block (9.2.1).
// "initial" statement
#[tactic(auto, unfolding(crate::specs::Reading::initial))]
fn initial(alloc: Global, tokens: &mut Cursor<'_>, depth: u32) -> Result<Item, Stop>
    ensures { Reads (spec.initial depth tokens.old) result tokens.new }
{
    let token = tokens.place();
    tokens.expect(Class::Initial)?;
    let statement = statement(alloc, tokens, depth)?;
    Ok(Item::Initial(token, statement))
}

/// An instance of a module (23.3.2).
// name name "(" ")" ";"
#[tactic(auto, unfolding(crate::specs::Reading::instance))]
fn instance(alloc: Global, tokens: &mut Cursor<'_>) -> Result<Item, Stop>
    ensures { Reads (spec.instance tokens.old) result tokens.new }
{
    let module = name(alloc, tokens)?;
    let instance = name(alloc, tokens)?;
    tokens.expect(Class::OpenParen)?;
    tokens.expect(Class::CloseParen)?;
    tokens.expect(Class::Semicolon)?;
    Ok(Item::Instance(module, instance))
}

/// An initial block or an instance.
// "initial" statement | name name "(" ")" ";"
#[tactic(auto, unfolding(crate::specs::Reading::running_item))]
fn running_item(alloc: Global, tokens: &mut Cursor<'_>, depth: u32) -> Result<Item, Stop>
    ensures { Reads (spec.running_item depth tokens.old) result tokens.new }
{
    if tokens.sees(Class::Initial) {
        return initial(alloc, tokens, depth);
    }
    instance(alloc, tokens)
}

/// A function, a task, or what is none of those.
#[tactic(auto, unfolding(crate::specs::Reading::routine_item))]
fn routine_item(alloc: Global, tokens: &mut Cursor<'_>, depth: u32) -> Result<Item, Stop>
    ensures { Reads (spec.routine_item depth tokens.old) result tokens.new }
{
    if tokens.sees(Class::Function) {
        return Ok(Item::Function(function(alloc, tokens, depth)?));
    }
    if tokens.sees(Class::Task) {
        return Ok(Item::Task(task(alloc, tokens, depth)?));
    }
    running_item(alloc, tokens, depth)
}

/// An import, an export, or what is none of those.
#[tactic(auto, unfolding(crate::specs::Reading::foreign_item))]
fn foreign_item(alloc: Global, tokens: &mut Cursor<'_>, depth: u32) -> Result<Item, Stop>
    ensures { Reads (spec.foreign_item depth tokens.old) result tokens.new }
{
    if tokens.sees(Class::Import) {
        return Ok(Item::Import(import(alloc, tokens)?));
    }
    if tokens.sees(Class::Export) {
        return Ok(Item::Export(export(alloc, tokens)?));
    }
    routine_item(alloc, tokens, depth)
}

/// An item.
// item = variables | import | export | function | task | "initial" statement
//      | name name "(" ")" ";"
#[tactic(auto, unfolding(crate::specs::Reading::item))]
fn item(alloc: Global, tokens: &mut Cursor<'_>, depth: u32) -> Result<Item, Stop>
    ensures { Reads (spec.item depth tokens.old) result tokens.new }
{
    if begins_data_type(tokens) {
        return Ok(Item::Variables(variables(alloc, tokens, depth)?));
    }
    foreign_item(alloc, tokens, depth)
}

/// Items for as long as one begins.
// item*
pub(crate) fn listed_items(
    alloc: Global,
    tokens: &mut Cursor<'_>,
    depth: u32,
) -> Result<Items<Item>, Stop>
    ensures { Reads (spec.listed_items depth tokens.old) result tokens.new }
{
    let mut found = Items::new(alloc);
    for _turn in 0..tokens.left() {
        if !begins_item(tokens) {
            return Ok(found);
        }
        found.push(item(alloc, tokens, depth)?)?;
    }
    Ok(found)
}
