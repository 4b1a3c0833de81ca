//! Exports (IEEE 1800-2017, 35.5.5).

ghost use Rattle.dpi_grammar.specs.Parser.{Reads};
ghost use Rattle.sv_parse.specs.Headers as spec;

use crate::imports::optional_c_name;
use dpi_grammar::Stop;
use std::alloc::Global;
use sv_cursor::{Cursor, name, text};
use sv_tree::{Class, Export};

/// What is exported, up to its name: whether it is a task.
// "function" | "task"
#[tactic(auto, unfolding(crate::specs::Headers::export_kind))]
fn export_kind(tokens: &mut Cursor<'_>) -> Result<bool, Stop>
    ensures { Reads (spec.export_kind tokens.old) result tokens.new }
{
    if tokens.sees(Class::Task) {
        tokens.expect(Class::Task)?;
        return Ok(true);
    }
    tokens.expect(Class::Function)?;
    Ok(false)
}

/// An export.
// export = "export" string (name "=")? ("function" | "task") name ";"
#[tactic(auto, unfolding(crate::specs::Headers::export))]
pub(crate) fn export(alloc: Global, tokens: &mut Cursor<'_>) -> Result<Export, Stop>
    ensures { Reads (spec.export tokens.old) result tokens.new }
{
    let token = tokens.place();
    tokens.expect(Class::Export)?;
    let text = text(alloc, tokens)?;
    let c_name = optional_c_name(alloc, tokens)?;
    let task = export_kind(tokens)?;
    let name = name(alloc, tokens)?;
    tokens.expect(Class::Semicolon)?;
    Ok(Export {
        token,
        text,
        c_name,
        task,
        name,
    })
}
