//! Functions and tasks (IEEE 1800-2017, 13).

ghost use Rattle.dpi_grammar.specs.Parser.{Reads};
ghost use Rattle.sv_parse.specs.Reading as spec;

use crate::formals::optional_formals;
use crate::headers::{optional_life, outcome};
use dpi_grammar::Stop;
use std::alloc::Global;
use sv_cursor::{Cursor, name, optional_label};
use sv_stmt::{declarations, statements};
use sv_tree::{Body, Class, Function, Task};

/// What stands between the first line and the last one of a function or a task.
// variables* statement*
#[tactic(auto, unfolding(crate::specs::Reading::body))]
fn body(alloc: Global, tokens: &mut Cursor<'_>, depth: u32) -> Result<Body, Stop>
    ensures { Reads (spec.body depth tokens.old) result tokens.new }
{
    let variables = declarations(alloc, tokens, depth)?;
    let statements = statements(alloc, tokens, depth)?;
    Ok(Body {
        variables,
        statements,
    })
}

/// A function (13.4).
// function = "function" life? (type | "void") name formals? ";" variables* statement*
//            "endfunction" label?
#[tactic(auto, unfolding(crate::specs::Reading::function))]
pub(crate) fn function(alloc: Global, tokens: &mut Cursor<'_>, depth: u32) -> Result<Function, Stop>
    ensures { Reads (spec.function depth tokens.old) result tokens.new }
{
    let token = tokens.place();
    tokens.expect(Class::Function)?;
    let life = optional_life(tokens)?;
    let outcome = outcome(alloc, tokens)?;
    let name = name(alloc, tokens)?;
    let formals = optional_formals(alloc, tokens)?;
    tokens.expect(Class::Semicolon)?;
    let body = body(alloc, tokens, depth)?;
    tokens.expect(Class::EndFunction)?;
    let end = optional_label(alloc, tokens)?;
    Ok(Function {
        token,
        life,
        outcome,
        name,
        formals,
        body,
        end,
    })
}

/// A task (13.3).
// task = "task" life? name formals? ";" variables* statement* "endtask" label?
#[tactic(auto, unfolding(crate::specs::Reading::task))]
pub(crate) fn task(alloc: Global, tokens: &mut Cursor<'_>, depth: u32) -> Result<Task, Stop>
    ensures { Reads (spec.task depth tokens.old) result tokens.new }
{
    let token = tokens.place();
    tokens.expect(Class::Task)?;
    let life = optional_life(tokens)?;
    let name = name(alloc, tokens)?;
    let formals = optional_formals(alloc, tokens)?;
    tokens.expect(Class::Semicolon)?;
    let body = body(alloc, tokens, depth)?;
    tokens.expect(Class::EndTask)?;
    let end = optional_label(alloc, tokens)?;
    Ok(Task {
        token,
        life,
        name,
        formals,
        body,
        end,
    })
}
