//! Functions and files (ISO C, 6.9).
ghost use Rattle.std.specs.Prelude.{◌≡◌, flat_map};
ghost use Rattle.dpi_rules.specs.Least.{noted};
ghost use Rattle.c_forms.specs.Files as spec;

use crate::around::Around;
use crate::declarations::{is_valued, note_params, note_variables};
use crate::statements::note_block;
use c_tree::{Body, CFile, External, Function};
use dpi_rules::Violation;

/// Where the statements of a function's body stand.
fn outside(function: &Function) -> Around
    ensures { result ≡ spec.outside function.now }
{
    Around {
        valued: is_valued(&function.kind, function.stars.as_slice()),
        looped: false,
    }
}

fn note_body(file: u32, around: Around, body: &Body, found: &mut Option<Violation>)
    ensures { found.new ≡ noted found.old (spec.body_violations file around body.now) }
{
    if let Body::Block(block) = body {
        note_block(file, around, block, found);
    }
}

fn note_function(file: u32, function: &Function, found: &mut Option<Violation>)
    ensures { found.new ≡ noted found.old (spec.function_violations file function.now) }
{
    note_params(file, function.name.token, &function.params, found);
    note_body(file, outside(function), &function.body, found);
}

fn note_external(file: u32, external: &External, found: &mut Option<Violation>)
    ensures { found.new ≡ noted found.old (spec.external_violations file external.now) }
{
    match external {
        External::Define(_) => {}
        External::Function(function) => note_function(file, function, found),
        External::Variables(variables) => note_variables(file, variables, found),
    }
}

fn note_externals(file: u32, externals: &[External], found: &mut Option<Violation>)
    ensures { found.new ≡ noted found.old (flat_map (spec.external_violations file) externals.now) }
{
    for external in externals {
        note_external(file, external, found);
    }
}

/// Notes what the file of this number violates by its form: rule 15 at a jump outside a loop, rule
/// 16 at a `return` with a value exactly where the function gives none, rule 20 at the name of a
/// function of more than 64 parameters, and rule 23 at the name of an `extern` declaration that
/// begins with something.
pub fn note_file(file: u32, tree: &CFile, found: &mut Option<Violation>)
    ensures { found.new ≡ noted found.old (spec.file_violations file tree.now) }
{
    note_externals(file, tree.externals.as_slice(), found);
}
