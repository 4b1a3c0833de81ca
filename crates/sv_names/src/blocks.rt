//! Named blocks as declarations of the scope around them (IEEE 1800-2017, 9.3.4).

ghost use Rattle.std.specs.Prelude.{flat_map};
ghost use Rattle.sv_names.specs.Names.{names_of};
ghost use Rattle.sv_names.specs.Blocks as spec;
ghost use Rattle.sv_names.specs.Declaring.{Declares};

use crate::declaring::declare_label;
use crate::scope::Scope;
use dpi_ports::NoMemory;
use dpi_rules::Violation;
use sv_tree::{CaseItem, ElseIf, If, Stmt};

/// Declares in the scope the named blocks of a statement that no other block of it encloses, in text
/// order; a second declaration of a name is rule 4.
#[cycle(blocks)]
pub fn declare_blocks<'a>(
    scope: &mut Scope<'a>,
    file: u32,
    statement: &'a Stmt,
    found: &mut Option<Violation>,
) -> Result<(), NoMemory>
    ensures { Declares file (spec.stmt_blocks statement.now) (names_of scope.old) found.old result (names_of scope.new) found.new }
{
    match statement {
        Stmt::Block(block) => declare_label(scope, file, &block.label, found),
        Stmt::If(branches) => declare_if(scope, file, branches.get(), found),
        Stmt::Case(_, _, items) => declare_items(scope, file, items.as_slice(), found),
        Stmt::While(_, _, body) => declare_blocks(scope, file, body.get(), found),
        Stmt::Repeat(_, _, body) => declare_blocks(scope, file, body.get(), found),
        Stmt::Forever(_, body) => declare_blocks(scope, file, body.get(), found),
        Stmt::For(_, _, _, _, body) => declare_blocks(scope, file, body.get(), found),
        _ => Ok(()),
    }
}

/// Declares the named blocks of the items of a `case`.
#[cycle(blocks)]
fn declare_items<'a>(
    scope: &mut Scope<'a>,
    file: u32,
    items: &'a [CaseItem],
    found: &mut Option<Violation>,
) -> Result<(), NoMemory>
    ensures { Declares file (flat_map spec.item_blocks items.now) (names_of scope.old) found.old result (names_of scope.new) found.new }
{
    for item in items {
        declare_blocks(scope, file, &item.body, found)?;
    }
    Ok(())
}

/// Declares the named blocks of `else if` parts.
#[cycle(blocks)]
fn declare_others<'a>(
    scope: &mut Scope<'a>,
    file: u32,
    others: &'a [ElseIf],
    found: &mut Option<Violation>,
) -> Result<(), NoMemory>
    ensures { Declares file (flat_map spec.else_if_blocks others.now) (names_of scope.old) found.old result (names_of scope.new) found.new }
{
    for other in others {
        declare_blocks(scope, file, &other.body, found)?;
    }
    Ok(())
}

/// Declares the named blocks of an `if`.
#[cycle(blocks)]
fn declare_if<'a>(
    scope: &mut Scope<'a>,
    file: u32,
    branches: &'a If,
    found: &mut Option<Violation>,
) -> Result<(), NoMemory>
    ensures { Declares file (spec.if_blocks branches.now) (names_of scope.old) found.old result (names_of scope.new) found.new }
{
    declare_blocks(scope, file, &branches.body, found)?;
    declare_others(scope, file, branches.others.as_slice(), found)?;
    match &branches.last {
        None => Ok(()),
        Some(last) => declare_blocks(scope, file, &last.get().body, found),
    }
}
