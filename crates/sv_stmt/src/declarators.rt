//! Declarations of variables, and what they begin with (IEEE 1800-2017, 6.8, 10.9).

ghost use Rattle.dpi_grammar.specs.Parser.{Reads, level, more, separated};
ghost use Rattle.sv_tree.specs.declared.class.Class.TheVariants as classes;
ghost use Rattle.sv_tree.specs.Classes.{is};
ghost use Rattle.sv_stmt.specs.ReadingVariables as spec;

use crate::levels::enter;
use dpi_grammar::Stop;
use sqlite_items::Items;
use std::alloc::Global;
use sv_cursor::{Cursor, name};
use sv_expr::expr;
use sv_tree::{Class, Declarator, Init, Initializer, Variables};
use sv_types::{begins_data_type, data_type, dimensions};

/// What a variable begins with, or what is assigned.
// init = expr | "'{" init,+ "}"
#[cycle(init)]
#[tactic(auto, unfolding(crate::specs::ReadingVariables::init_in))]
pub fn init(alloc: Global, tokens: &mut Cursor<'_>, depth: u32) -> Result<Init, Stop>
    ensures { Reads (spec.init depth tokens.old) result tokens.new }
{
    if tokens.sees(Class::Pattern) {
        return pattern(alloc, tokens, depth);
    }
    Ok(Init::Value(expr(alloc, tokens, depth)?))
}

/// An assignment pattern (10.9.1).
// "'{" init,+ "}"
#[cycle(init)]
#[tactic(auto, unfolding(crate::specs::ReadingVariables::pattern_by))]
fn pattern(alloc: Global, tokens: &mut Cursor<'_>, depth: u32) -> Result<Init, Stop>
    ensures { Reads (level (spec.patterns depth) spec.pattern_by tokens.old) result tokens.new }
{
    let inner = enter(tokens, depth)?;
    let token = tokens.place();
    tokens.expect(Class::Pattern)?;
    let parts = inits(alloc, tokens, inner)?;
    tokens.expect(Class::CloseBrace)?;
    Ok(Init::Pattern(token, parts))
}

// init,+
#[cycle(init)]
fn inits(alloc: Global, tokens: &mut Cursor<'_>, depth: u32) -> Result<Items<Init>, Stop>
    ensures { Reads (separated (is classes.Comma) (spec.init depth) tokens.old) result tokens.new }
{
    let mut found = Items::new(alloc);
    found.push(init(alloc, tokens, depth)?)?;
    more_inits(alloc, tokens, depth, found)
}

// ("," init)*
#[cycle(init)]
fn more_inits(
    alloc: Global,
    tokens: &mut Cursor<'_>,
    depth: u32,
    mut found: Items<Init>,
) -> Result<Items<Init>, Stop>
    ensures { Reads (more (is classes.Comma) (spec.next_init (spec.init depth)) found tokens.old) result tokens.new }
{
    for _turn in 0..tokens.left() {
        if !tokens.sees(Class::Comma) {
            return Ok(found);
        }
        found.push(next_init(alloc, tokens, depth)?)?;
    }
    Ok(found)
}

#[cycle(init)]
fn next_init(alloc: Global, tokens: &mut Cursor<'_>, depth: u32) -> Result<Init, Stop>
    ensures { Reads (spec.next_init (spec.init depth) tokens.old) result tokens.new }
{
    tokens.expect(Class::Comma)?;
    init(alloc, tokens, depth)
}

/// The initialiser of a variable.
// "=" init
#[tactic(auto, unfolding(crate::specs::ReadingVariables::initializer))]
fn initializer(alloc: Global, tokens: &mut Cursor<'_>, depth: u32) -> Result<Initializer, Stop>
    ensures { Reads (spec.initializer depth tokens.old) result tokens.new }
{
    let token = tokens.place();
    tokens.expect(Class::Assign)?;
    let value = init(alloc, tokens, depth)?;
    Ok(Initializer { token, value })
}

/// An initialiser where a `=` comes next.
fn optional_initializer(
    alloc: Global,
    tokens: &mut Cursor<'_>,
    depth: u32,
) -> Result<Option<Initializer>, Stop>
    ensures { Reads (spec.optional_initializer depth tokens.old) result tokens.new }
{
    if !tokens.sees(Class::Assign) {
        return Ok(None);
    }
    Ok(Some(initializer(alloc, tokens, depth)?))
}

/// A variable (6.8).
// declarator = id dim* ("=" init)?
#[tactic(auto, unfolding(crate::specs::ReadingVariables::declarator))]
fn declarator(alloc: Global, tokens: &mut Cursor<'_>, depth: u32) -> Result<Declarator, Stop>
    ensures { Reads (spec.declarator depth tokens.old) result tokens.new }
{
    let name = name(alloc, tokens)?;
    let dimensions = dimensions(alloc, tokens)?;
    let initializer = optional_initializer(alloc, tokens, depth)?;
    Ok(Declarator {
        name,
        dimensions,
        initializer,
    })
}

// declarator,+
fn declarators(
    alloc: Global,
    tokens: &mut Cursor<'_>,
    depth: u32,
) -> Result<Items<Declarator>, Stop>
    ensures { Reads (spec.declarators depth tokens.old) result tokens.new }
{
    let mut found = Items::new(alloc);
    found.push(declarator(alloc, tokens, depth)?)?;
    more_declarators(alloc, tokens, depth, found)
}

// ("," declarator)*
fn more_declarators(
    alloc: Global,
    tokens: &mut Cursor<'_>,
    depth: u32,
    mut found: Items<Declarator>,
) -> Result<Items<Declarator>, Stop>
    ensures { Reads (more (is classes.Comma) (spec.next_declarator depth) found tokens.old) result tokens.new }
{
    for _turn in 0..tokens.left() {
        if !tokens.sees(Class::Comma) {
            return Ok(found);
        }
        found.push(next_declarator(alloc, tokens, depth)?)?;
    }
    Ok(found)
}

fn next_declarator(alloc: Global, tokens: &mut Cursor<'_>, depth: u32) -> Result<Declarator, Stop>
    ensures { Reads (spec.next_declarator depth tokens.old) result tokens.new }
{
    tokens.expect(Class::Comma)?;
    declarator(alloc, tokens, depth)
}

/// A declaration of variables of one type (6.8).
// variables = type declarator,+ ";"
#[tactic(auto, unfolding(crate::specs::ReadingVariables::variables))]
pub fn variables(alloc: Global, tokens: &mut Cursor<'_>, depth: u32) -> Result<Variables, Stop>
    ensures { Reads (spec.variables depth tokens.old) result tokens.new }
{
    let kind = data_type(alloc, tokens)?;
    let declarators = declarators(alloc, tokens, depth)?;
    tokens.expect(Class::Semicolon)?;
    Ok(Variables { kind, declarators })
}

/// Declarations for as long as a type comes next.
// variables*
pub fn declarations(
    alloc: Global,
    tokens: &mut Cursor<'_>,
    depth: u32,
) -> Result<Items<Variables>, Stop>
    ensures { Reads (spec.declarations depth tokens.old) result tokens.new }
{
    let mut found = Items::new(alloc);
    for _turn in 0..tokens.left() {
        if !begins_data_type(tokens) {
            return Ok(found);
        }
        found.push(variables(alloc, tokens, depth)?)?;
    }
    Ok(found)
}
