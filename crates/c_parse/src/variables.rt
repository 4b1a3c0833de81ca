//! Declarations of variables (ISO C 6.7).

ghost use Rattle.std.specs.Prelude.{[], ◌∷◌};
ghost use Rattle.dpi_grammar.specs.Parser.{Reads, optional};
ghost use Rattle.c_tree.specs.declared.class.Class.TheVariants as classes;
ghost use Rattle.c_tree.specs.Classes.{is};
ghost use Rattle.c_expr.specs.Reading.{expr};
ghost use Rattle.c_parse.specs.ReadingDeclarations as spec;

use crate::front::begins_store;
use crate::sizes::optional_array;
use c_cursor::{Cursor, name};
use c_expr::{expr, exprs};
use c_tree::{Class, Declarator, Init, Initializer, Name, Star, Store, StoreKind, Variables};
use c_types::{stars, type_name};
use dpi_grammar::Stop;
use sqlite_items::Items;
use std::alloc::Global;

/// Where a name is stored.
// "static" | "extern"
#[tactic(auto, unfolding(crate::specs::ReadingDeclarations::store))]
fn store(tokens: &mut Cursor<'_>) -> Result<Store, Stop>
    ensures { Reads (spec.store tokens.old) result tokens.new }
{
    let token = tokens.place();
    match StoreKind::of(tokens.class()) {
        Some(kind) => {
            tokens.skip();
            Ok(Store { token, kind })
        }
        None => Err(tokens.refuse()),
    }
}

/// Where a name is stored, where this is said (6.7.1).
// store?
pub fn stored(tokens: &mut Cursor<'_>) -> Result<Option<Store>, Stop>
    ensures { Reads (spec.stored tokens.old) result tokens.new }
{
    if !begins_store(tokens) {
        return Ok(None);
    }
    Ok(Some(store(tokens)?))
}

/// The expressions that the elements of an array begin with.
// "{" expr,+ "}"
#[tactic(auto, unfolding(crate::specs::ReadingDeclarations::init_list_by))]
fn init_list(alloc: Global, tokens: &mut Cursor<'_>, depth: u32) -> Result<Init, Stop>
    ensures { Reads (spec.init_list_by (expr depth) tokens.old) result tokens.new }
{
    let token = tokens.place();
    tokens.expect(Class::OpenBrace)?;
    let values = exprs(alloc, tokens, depth)?;
    tokens.expect(Class::CloseBrace)?;
    Ok(Init::List(token, values))
}

/// What a variable begins with.
// cinit = expr | "{" expr,+ "}"
fn init(alloc: Global, tokens: &mut Cursor<'_>, depth: u32) -> Result<Init, Stop>
    ensures { Reads (spec.init_by (expr depth) tokens.old) result tokens.new }
{
    if tokens.sees(Class::OpenBrace) {
        return init_list(alloc, tokens, depth);
    }
    Ok(Init::Value(expr(alloc, tokens, depth)?))
}

/// An initialiser (6.7.9).
// "=" cinit
#[tactic(auto, unfolding(crate::specs::ReadingDeclarations::initializer_by))]
fn initializer(alloc: Global, tokens: &mut Cursor<'_>, depth: u32) -> Result<Initializer, Stop>
    ensures { Reads (spec.initializer_by (expr depth) tokens.old) result tokens.new }
{
    let token = tokens.place();
    tokens.expect(Class::Assign)?;
    let value = init(alloc, tokens, depth)?;
    Ok(Initializer { token, value })
}

fn optional_initializer(
    alloc: Global,
    tokens: &mut Cursor<'_>,
    depth: u32,
) -> Result<Option<Initializer>, Stop>
    ensures { Reads (optional (is classes.Assign) (spec.initializer_by (expr depth)) tokens.old) result tokens.new }
{
    if !tokens.sees(Class::Assign) {
        return Ok(None);
    }
    Ok(Some(initializer(alloc, tokens, depth)?))
}

/// A variable, behind its stars and its name.
// ("[" size "]")? ("=" cinit)?
#[tactic(auto, unfolding(crate::specs::ReadingDeclarations::declarator_behind))]
pub fn declarator_behind(
    alloc: Global,
    tokens: &mut Cursor<'_>,
    depth: u32,
    stars: Items<Star>,
    name: Name,
) -> Result<Declarator, Stop>
    ensures { Reads (spec.declarator_behind (expr depth) stars name tokens.old) result tokens.new }
{
    let array = optional_array(alloc, tokens)?;
    let initializer = optional_initializer(alloc, tokens, depth)?;
    Ok(Declarator {
        stars,
        name,
        array,
        initializer,
    })
}

/// A variable (6.7.6).
// cdecl = stars id ("[" size "]")? ("=" cinit)?
#[tactic(auto, unfolding(crate::specs::ReadingDeclarations::declarator_by))]
fn declarator(alloc: Global, tokens: &mut Cursor<'_>, depth: u32) -> Result<Declarator, Stop>
    ensures { Reads (spec.declarator_by (expr depth) tokens.old) result tokens.new }
{
    let stars = stars(alloc, tokens)?;
    let name = name(alloc, tokens)?;
    declarator_behind(alloc, tokens, depth, stars, name)
}

// "," cdecl
fn next_declarator(alloc: Global, tokens: &mut Cursor<'_>, depth: u32) -> Result<Declarator, Stop>
    ensures { Reads (spec.next_declarator_by (expr depth) tokens.old) result tokens.new }
{
    tokens.expect(Class::Comma)?;
    declarator(alloc, tokens, depth)
}

/// Variables, each behind a comma, behind those found so far.
// ("," cdecl)*
pub fn more_declarators(
    alloc: Global,
    tokens: &mut Cursor<'_>,
    depth: u32,
    mut found: Items<Declarator>,
) -> Result<Items<Declarator>, Stop>
    ensures { Reads (spec.more_declarators_by (expr depth) found tokens.old) result tokens.new }
{
    for _turn in 0..tokens.left() {
        if !tokens.sees(Class::Comma) {
            return Ok(found);
        }
        found.push(next_declarator(alloc, tokens, depth)?)?;
    }
    Ok(found)
}

// cdecl,+
fn declarators(
    alloc: Global,
    tokens: &mut Cursor<'_>,
    depth: u32,
) -> Result<Items<Declarator>, Stop>
    ensures { Reads (spec.declarators_by (expr depth) tokens.old) result tokens.new }
{
    let mut found = Items::new(alloc);
    found.push(declarator(alloc, tokens, depth)?)?;
    more_declarators(alloc, tokens, depth, found)
}

/// A declaration of variables.
// vardecl = store? type cdecl,+ ";"
#[tactic(auto, unfolding(crate::specs::ReadingDeclarations::variables_by))]
pub fn variables(alloc: Global, tokens: &mut Cursor<'_>, depth: u32) -> Result<Variables, Stop>
    ensures { Reads (spec.variables_by (expr depth) tokens.old) result tokens.new }
{
    let store = stored(tokens)?;
    let kind = type_name(alloc, tokens)?;
    let declarators = declarators(alloc, tokens, depth)?;
    tokens.expect(Class::Semicolon)?;
    Ok(Variables {
        store,
        kind,
        declarators,
    })
}
