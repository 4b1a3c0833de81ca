//! Jumps, `return` and declarations in statements (ISO C, 6.8).
ghost use Rattle.std.specs.Prelude.{◌≡◌, flat_map, option_map};
ghost use Rattle.dpi_rules.specs.Least.{noted};
ghost use Rattle.c_forms.specs.Statements as spec;

use crate::around::Around;
use crate::declarations::note_variables;
use c_tree::{Block, CExpr, Else, ElseIf, If, Part, Start, Stmt};
use dpi_rules::{Violation, note};
use sqlite_items::Boxed;

/// The rule on `break` and `continue`.
const JUMP_RULE: u8 = 15;
/// The rule on `return`.
const RETURN_RULE: u8 = 16;

impl Around {
    /// Inside a loop that stands here.
    fn in_loop(self) -> Around
        ensures { result ≡ spec.in_loop self }
    {
        Around {
            looped: true,
            ..self
        }
    }
}

/// Notes rule 15 at a jump that no loop stands around.
fn note_jump(file: u32, around: Around, token: u32, found: &mut Option<Violation>)
    ensures { found.new ≡ noted found.old (spec.jump_violations file around token) }
{
    if !around.looped {
        let violation = Violation {
            file,
            token,
            rule: JUMP_RULE,
        };
        note(found, violation);
    }
}

/// Notes rule 16 at a `return` whose value the function doesn't give, or that lacks it.
fn note_return(
    file: u32,
    around: Around,
    token: u32,
    value: &Option<CExpr>,
    found: &mut Option<Violation>,
)
    ensures { found.new ≡ noted found.old (spec.return_violations file around token value.now) }
{
    if value.is_some() != around.valued {
        let violation = Violation {
            file,
            token,
            rule: RETURN_RULE,
        };
        note(found, violation);
    }
}

fn note_start(file: u32, start: &Start, found: &mut Option<Violation>)
    ensures { found.new ≡ noted found.old (spec.start_violations file start.now) }
{
    if let Start::Variables(variables) = start {
        note_variables(file, variables, found);
    }
}

/// Notes what a statement breaks.
#[cycle(statements)]
fn note_stmt(file: u32, around: Around, stmt: &Stmt, found: &mut Option<Violation>)
    ensures { found.new ≡ noted found.old (spec.in_stmt file stmt.now around) }
{
    match stmt {
        Stmt::Empty(_) | Stmt::Expr(_) => {}
        Stmt::Block(block) => note_block(file, around, block, found),
        Stmt::If(branches) => note_if(file, around, branches.get(), found),
        Stmt::While(_, _, body) | Stmt::Do(_, body, _, _) => {
            note_stmt(file, around.in_loop(), body.get(), found)
        }
        Stmt::For(_, start, _, _, body) => note_for(file, around, start, body.get(), found),
        Stmt::Return(token, value) => note_return(file, around, *token, value, found),
        Stmt::Break(token) | Stmt::Continue(token) => note_jump(file, around, *token, found),
    }
}

#[cycle(statements)]
fn note_for(file: u32, around: Around, start: &Start, body: &Stmt, found: &mut Option<Violation>)
    ensures { found.new ≡ noted found.old (spec.for_violations file start.now (spec.in_stmt file body.now) around) }
{
    note_start(file, start, found);
    note_stmt(file, around.in_loop(), body, found);
}

/// Notes what the parts of a block break.
#[cycle(statements)]
pub(crate) fn note_block(file: u32, around: Around, block: &Block, found: &mut Option<Violation>)
    ensures { found.new ≡ noted found.old (spec.in_block file block.now around) }
{
    note_parts(file, around, block.parts.as_slice(), found);
}

#[cycle(statements)]
fn note_parts(file: u32, around: Around, parts: &[Part], found: &mut Option<Violation>)
    ensures { found.new ≡ noted found.old (flat_map (spec.part_at file around) parts.now) }
{
    for part in parts {
        note_part(file, around, part, found);
    }
}

#[cycle(statements)]
fn note_part(file: u32, around: Around, part: &Part, found: &mut Option<Violation>)
    ensures { found.new ≡ noted found.old (spec.part_at file around part.now) }
{
    match part {
        Part::Variables(variables) => note_variables(file, variables, found),
        Part::Stmt(stmt) => note_stmt(file, around, stmt, found),
    }
}

#[cycle(statements)]
fn note_if(file: u32, around: Around, branches: &If, found: &mut Option<Violation>)
    ensures { found.new ≡ noted found.old (spec.in_if file branches.now around) }
{
    note_stmt(file, around, &branches.body, found);
    note_others(file, around, branches.others.as_slice(), found);
    note_last(file, around, &branches.last, found);
}

#[cycle(statements)]
fn note_others(file: u32, around: Around, others: &[ElseIf], found: &mut Option<Violation>)
    ensures { found.new ≡ noted found.old (flat_map (spec.else_if_at file around) others.now) }
{
    for other in others {
        note_else_if(file, around, other, found);
    }
}

#[cycle(statements)]
fn note_last(file: u32, around: Around, last: &Option<Boxed<Else>>, found: &mut Option<Violation>)
    ensures { found.new ≡ noted found.old (spec.maybe_at around (option_map (spec.in_else file) last.now)) }
{
    if let Some(last) = last {
        note_else(file, around, last.get(), found);
    }
}

#[cycle(statements)]
fn note_else_if(file: u32, around: Around, other: &ElseIf, found: &mut Option<Violation>)
    ensures { found.new ≡ noted found.old (spec.else_if_at file around other.now) }
{
    note_stmt(file, around, &other.body, found);
}

#[cycle(statements)]
fn note_else(file: u32, around: Around, last: &Else, found: &mut Option<Violation>)
    ensures { found.new ≡ noted found.old (spec.in_else file last.now around) }
{
    note_stmt(file, around, &last.body, found);
}
