//! Jumps, locals and labels of statements (IEEE 1800-2017, 6.21, 9.3, 12.7 and 12.8).
ghost use Rattle.std.specs.Prelude.{◌≡◌, map, option_map};
ghost use Rattle.dpi_rules.specs.Least.{noted};
ghost use Rattle.sv_forms.specs.Calls.{all_of};
ghost use Rattle.sv_forms.specs.Statements as spec;

use crate::around::{Around, Surroundings};
use crate::labels::note_block_end;
use dpi_rules::{Violation, note};
use sqlite_items::Boxed;
use sv_tree::{Block, CaseItem, Declarator, Else, ElseIf, Expr, If, Initializer, Stmt, Variables};

/// The rule on `break` and `continue`.
const JUMP_RULE: u8 = 20;
/// The rule on `return`.
const RETURN_RULE: u8 = 21;
/// The rule on locals with an initialiser.
const INITIAL_RULE: u8 = 26;

impl Around {
    /// Inside a loop that stands here.
    fn in_loop(self) -> Around
        ensures { result ≡ spec.in_loop self }
    {
        Around {
            looped: true,
            ..self
        }
    }
}

/// Notes rule 20 at a jump that no loop stands around.
fn note_jump(file: u32, around: Around, token: u32, found: &mut Option<Violation>)
    ensures { found.new ≡ noted found.old (spec.jump_violations file around token) }
{
    if !around.looped {
        let violation = Violation {
            file,
            token,
            rule: JUMP_RULE,
        };
        note(found, violation);
    }
}

/// Whether a `return` may stand in this body: with a value exactly where the body gives one.
fn may_return(body: Surroundings, value: &Option<Expr>) -> bool
    ensures { result ≡ spec.may_return body value.now }
{
    match body {
        Surroundings::Initial => false,
        Surroundings::Plain => value.is_none(),
        Surroundings::Valued => value.is_some(),
    }
}

/// Notes rule 21 at a `return` that may not stand here.
fn note_return(
    file: u32,
    around: Around,
    token: u32,
    value: &Option<Expr>,
    found: &mut Option<Violation>,
)
    ensures { found.new ≡ noted found.old (spec.return_violations file around token value.now) }
{
    if !may_return(around.body, value) {
        let violation = Violation {
            file,
            token,
            rule: RETURN_RULE,
        };
        note(found, violation);
    }
}

/// Notes rule 26 at the `=` of a local that isn't automatic.
fn note_initial(
    file: u32,
    around: Around,
    initializer: &Option<Initializer>,
    found: &mut Option<Violation>,
)
    ensures { found.new ≡ noted found.old (spec.initial_violations file around initializer.now) }
{
    if let Some(initializer) = initializer {
        if !around.automatic {
            let violation = Violation {
                file,
                token: initializer.token,
                rule: INITIAL_RULE,
            };
            note(found, violation);
        }
    }
}

fn note_declarators(
    file: u32,
    around: Around,
    declarators: &[Declarator],
    found: &mut Option<Violation>,
)
    ensures { found.new ≡ noted found.old (all_of (map (spec.declarator_violations file around) declarators.now)) }
{
    for declarator in declarators {
        note_initial(file, around, &declarator.initializer, found);
    }
}

/// Notes what locals break.
pub(crate) fn note_locals(
    file: u32,
    around: Around,
    variables: &[Variables],
    found: &mut Option<Violation>,
)
    ensures { found.new ≡ noted found.old (all_of (map (spec.locals_violations file around) variables.now)) }
{
    for each in variables {
        note_variables(file, around, each, found);
    }
}

fn note_variables(file: u32, around: Around, variables: &Variables, found: &mut Option<Violation>)
    ensures { found.new ≡ noted found.old (spec.locals_violations file around variables.now) }
{
    note_declarators(file, around, variables.declarators.as_slice(), found);
}

/// Notes what a statement breaks.
#[cycle(statements)]
pub(crate) fn note_stmt(file: u32, around: Around, stmt: &Stmt, found: &mut Option<Violation>)
    ensures { found.new ≡ noted found.old (spec.in_stmt file stmt.now around) }
{
    match stmt {
        Stmt::Block(block) => note_block(file, around, block, found),
        Stmt::If(branches) => note_if(file, around, branches.get(), found),
        Stmt::Case(_, _, items) => note_items(file, around, items.as_slice(), found),
        Stmt::While(_, _, body)
        | Stmt::Repeat(_, _, body)
        | Stmt::Forever(_, body)
        | Stmt::For(_, _, _, _, body) => note_stmt(file, around.in_loop(), body.get(), found),
        Stmt::Return(token, value) => note_return(file, around, *token, value, found),
        Stmt::Break(token) | Stmt::Continue(token) => note_jump(file, around, *token, found),
        _ => {}
    }
}

/// Notes what each statement breaks.
#[cycle(statements)]
pub(crate) fn note_stmts(file: u32, around: Around, stmts: &[Stmt], found: &mut Option<Violation>)
    ensures { found.new ≡ noted found.old (spec.each_at around (map (spec.in_stmt file) stmts.now)) }
{
    for stmt in stmts {
        note_stmt(file, around, stmt, found);
    }
}

#[cycle(statements)]
fn note_block(file: u32, around: Around, block: &Block, found: &mut Option<Violation>)
    ensures { found.new ≡ noted found.old (spec.in_block file block.now around) }
{
    note_locals(file, around, block.variables.as_slice(), found);
    note_stmts(file, around, block.statements.as_slice(), found);
    note_block_end(file, &block.label, &block.end, found);
}

#[cycle(statements)]
fn note_items(file: u32, around: Around, items: &[CaseItem], found: &mut Option<Violation>)
    ensures { found.new ≡ noted found.old (spec.each_at around (map (spec.in_item file) items.now)) }
{
    for item in items {
        note_item(file, around, item, found);
    }
}

#[cycle(statements)]
fn note_item(file: u32, around: Around, item: &CaseItem, found: &mut Option<Violation>)
    ensures { found.new ≡ noted found.old (spec.in_item file item.now around) }
{
    note_stmt(file, around, &item.body, found);
}

#[cycle(statements)]
fn note_if(file: u32, around: Around, branches: &If, found: &mut Option<Violation>)
    ensures { found.new ≡ noted found.old (spec.in_if file branches.now around) }
{
    note_stmt(file, around, &branches.body, found);
    note_others(file, around, branches.others.as_slice(), found);
    note_last(file, around, &branches.last, found);
}

#[cycle(statements)]
fn note_others(file: u32, around: Around, others: &[ElseIf], found: &mut Option<Violation>)
    ensures { found.new ≡ noted found.old (spec.each_at around (map (spec.in_else_if file) others.now)) }
{
    for other in others {
        note_else_if(file, around, other, found);
    }
}

#[cycle(statements)]
fn note_last(file: u32, around: Around, last: &Option<Boxed<Else>>, found: &mut Option<Violation>)
    ensures { found.new ≡ noted found.old (spec.maybe_at around (option_map (spec.in_else file) last.now)) }
{
    if let Some(last) = last {
        note_else(file, around, last.get(), found);
    }
}

#[cycle(statements)]
fn note_else_if(file: u32, around: Around, other: &ElseIf, found: &mut Option<Violation>)
    ensures { found.new ≡ noted found.old (spec.in_else_if file other.now around) }
{
    note_stmt(file, around, &other.body, found);
}

#[cycle(statements)]
fn note_else(file: u32, around: Around, last: &Else, found: &mut Option<Violation>)
    ensures { found.new ≡ noted found.old (spec.in_else file last.now around) }
{
    note_stmt(file, around, &last.body, found);
}
