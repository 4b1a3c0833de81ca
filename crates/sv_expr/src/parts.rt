//! Parts of an expression that hold no other expression.

ghost use Rattle.std.specs.Prelude.{[]};
ghost use Rattle.dpi_grammar.specs.Parser.{Reads, token};
ghost use Rattle.sv_tree.specs.Classes.{class_at};
ghost use Rattle.sv_tree.specs.Operators.{binary_of};
ghost use Rattle.sv_expr.specs.Reading as spec;

use crate::front::{Wrap, begins_prefix};
use dpi_grammar::Stop;
use sqlite_items::Items;
use std::alloc::Global;
use sv_cursor::Cursor;
use sv_tree::{BinaryOperator, Class, Prefix, Primary, UnaryOperator};

/// An operator between operands (IEEE 1800-2017, A.8.6).
pub fn operator(tokens: &mut Cursor<'_>) -> Result<BinaryOperator, Stop>
    ensures { Reads (token (λ t. binary_of (class_at t)) tokens.old) result tokens.new }
{
    match BinaryOperator::of(tokens.class()) {
        Some(operator) => {
            tokens.skip();
            Ok(operator)
        }
        None => Err(tokens.refuse()),
    }
}

/// A prefix of an operand (A.8.6).
// unop
#[tactic(auto, unfolding(crate::specs::Reading::prefix))]
fn prefix(tokens: &mut Cursor<'_>) -> Result<Prefix, Stop>
    ensures { Reads (spec.prefix tokens.old) result tokens.new }
{
    let token = tokens.place();
    match UnaryOperator::of(tokens.class()) {
        Some(operator) => {
            tokens.skip();
            Ok(Prefix { token, operator })
        }
        None => Err(tokens.refuse()),
    }
}

/// The prefixes of an operand, from the left.
// unop*
pub fn prefixes(alloc: Global, tokens: &mut Cursor<'_>) -> Result<Items<Prefix>, Stop>
    ensures { Reads (spec.prefixes tokens.old) result tokens.new }
{
    let mut found = Items::new(alloc);
    for _turn in 0..tokens.left() {
        if !begins_prefix(tokens.class()) {
            return Ok(found);
        }
        found.push(prefix(tokens)?)?;
    }
    Ok(found)
}

/// The chandle that refers to nothing (6.14).
// "null"
#[tactic(auto, unfolding(crate::specs::Reading::null))]
pub fn null(tokens: &mut Cursor<'_>) -> Result<Primary, Stop>
    ensures { Reads (spec.null tokens.old) result tokens.new }
{
    let token = tokens.place();
    tokens.expect(Class::Null)?;
    Ok(Primary::Null(token))
}

/// A `(`, behind the system name that stands before it (11.7).
// "(" | ("$signed" | "$unsigned") "("
pub fn opening(tokens: &mut Cursor<'_>, wrap: Wrap) -> Result<(), Stop>
    ensures { Reads (spec.opening wrap tokens.old) result tokens.new }
{
    match wrap {
        Wrap::Group => tokens.expect(Class::OpenParen),
        Wrap::Signed => {
            tokens.expect(Class::ToSigned)?;
            tokens.expect(Class::OpenParen)
        }
        Wrap::Unsigned => {
            tokens.expect(Class::ToUnsigned)?;
            tokens.expect(Class::OpenParen)
        }
    }
}
