//! External declarations, and whole files (ISO C 6.9).

ghost use Rattle.std.specs.Prelude.{[], ◌∷◌};
ghost use Rattle.dpi_grammar.specs.Parser.{Reads, more};
ghost use Rattle.c_parse.specs.Front as front;
ghost use Rattle.c_parse.specs.ReadingFile as spec;

use crate::front::begins_external;
use crate::head::Head;
use crate::levels::enter;
use crate::parameters::parameters;
use crate::statements::block;
use crate::variables::{declarator_behind, more_declarators, stored};
use c_cursor::{Cursor, define, name};
use c_tree::{Body, CFile, Class, External, Function, Variables};
use c_types::{stars, type_name};
use dpi_grammar::Stop;
use sqlite_items::Items;
use std::alloc::Global;

/// The end of a prototype.
// ";"
#[tactic(auto, unfolding(crate::specs::ReadingFile::prototype))]
fn prototype(tokens: &mut Cursor<'_>) -> Result<Body, Stop>
    ensures { Reads (spec.prototype tokens.old) result tokens.new }
{
    let token = tokens.place();
    tokens.expect(Class::Semicolon)?;
    Ok(Body::Prototype(token))
}

/// What stands behind the parameters of a function.
// ";" | block
fn body(alloc: Global, tokens: &mut Cursor<'_>, depth: u32) -> Result<Body, Stop>
    ensures { Reads (spec.body depth tokens.old) result tokens.new }
{
    if tokens.sees(Class::OpenBrace) {
        let inner = enter(tokens, depth)?;
        return Ok(Body::Block(block(alloc, tokens, inner)?));
    }
    prototype(tokens)
}

/// What functions and variables begin with.
// store? type stars id
#[tactic(auto, unfolding(crate::specs::ReadingFile::head))]
fn head(alloc: Global, tokens: &mut Cursor<'_>) -> Result<Head, Stop>
    ensures { Reads (spec.head tokens.old) result tokens.new }
{
    let store = stored(tokens)?;
    let kind = type_name(alloc, tokens)?;
    let stars = stars(alloc, tokens)?;
    let name = name(alloc, tokens)?;
    Ok(Head {
        store,
        kind,
        stars,
        name,
    })
}

/// A function, or a prototype of one, behind what it begins with (6.7.6.3, 6.9.1).
// "(" params ")" (";" | block)
#[tactic(auto, unfolding(crate::specs::ReadingFile::function_behind))]
fn function_behind(
    alloc: Global,
    tokens: &mut Cursor<'_>,
    depth: u32,
    head: Head,
) -> Result<Function, Stop>
    ensures { Reads (spec.function_behind depth head tokens.old) result tokens.new }
{
    let token = tokens.place();
    tokens.expect(Class::OpenParen)?;
    let params = parameters(alloc, tokens)?;
    tokens.expect(Class::CloseParen)?;
    let body = body(alloc, tokens, depth)?;
    Ok(Function {
        store: head.store,
        kind: head.kind,
        stars: head.stars,
        name: head.name,
        token,
        params,
        body,
    })
}

/// Variables, behind what they begin with (6.7).
// ("[" size "]")? ("=" cinit)? ("," cdecl)* ";"
#[tactic(auto, unfolding(crate::specs::ReadingFile::variables_behind))]
fn variables_behind(
    alloc: Global,
    tokens: &mut Cursor<'_>,
    depth: u32,
    head: Head,
) -> Result<Variables, Stop>
    ensures { Reads (spec.variables_behind depth head tokens.old) result tokens.new }
{
    let mut found = Items::new(alloc);
    found.push(declarator_behind(alloc, tokens, depth, head.stars, head.name)?)?;
    let declarators = more_declarators(alloc, tokens, depth, found)?;
    tokens.expect(Class::Semicolon)?;
    Ok(Variables {
        store: head.store,
        kind: head.kind,
        declarators,
    })
}

fn behind_head(
    alloc: Global,
    tokens: &mut Cursor<'_>,
    depth: u32,
    head: Head,
) -> Result<External, Stop>
    ensures { Reads (spec.behind_head depth head tokens.old) result tokens.new }
{
    if tokens.sees(Class::OpenParen) {
        return Ok(External::Function(function_behind(alloc, tokens, depth, head)?));
    }
    Ok(External::Variables(variables_behind(alloc, tokens, depth, head)?))
}

/// A function or variables, known by the token behind the first name.
// store? type stars id "(" params ")" (";" | block) | vardecl
#[tactic(auto, unfolding(crate::specs::ReadingFile::declared))]
fn declared(alloc: Global, tokens: &mut Cursor<'_>, depth: u32) -> Result<External, Stop>
    ensures { Reads (spec.declared depth tokens.old) result tokens.new }
{
    let head = head(alloc, tokens)?;
    behind_head(alloc, tokens, depth, head)
}

/// An external declaration (6.9, 6.10.3).
// external = define | store? type stars id "(" params ")" (";" | block) | vardecl
fn external(alloc: Global, tokens: &mut Cursor<'_>, depth: u32) -> Result<External, Stop>
    ensures { Reads (spec.external depth tokens.old) result tokens.new }
{
    if tokens.sees(Class::Define) {
        return Ok(External::Define(define(alloc, tokens)?));
    }
    declared(alloc, tokens, depth)
}

// external*
fn externals(alloc: Global, tokens: &mut Cursor<'_>, depth: u32) -> Result<Items<External>, Stop>
    ensures { Reads (more front.begins_external (spec.external depth) [] tokens.old) result tokens.new }
{
    let mut found = Items::new(alloc);
    for _turn in 0..tokens.left() {
        if !begins_external(tokens) {
            return Ok(found);
        }
        found.push(external(alloc, tokens, depth)?)?;
    }
    Ok(found)
}

/// A file.
// file = external*
#[tactic(auto, unfolding(crate::specs::ReadingFile::file))]
fn file(alloc: Global, tokens: &mut Cursor<'_>, depth: u32) -> Result<CFile, Stop>
    ensures { Reads (spec.file depth tokens.old) result tokens.new }
{
    let externals = externals(alloc, tokens, depth)?;
    Ok(CFile { externals })
}

/// A file, and then the end of the tokens.
#[tactic(auto, unfolding(crate::specs::ReadingFile::whole))]
pub fn whole(alloc: Global, tokens: &mut Cursor<'_>, depth: u32) -> Result<CFile, Stop>
    ensures { Reads (spec.whole depth tokens.old) result tokens.new }
{
    let file = file(alloc, tokens, depth)?;
    if tokens.class().is_some() {
        return Err(tokens.refuse());
    }
    Ok(file)
}
