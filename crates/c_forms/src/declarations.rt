//! Declarations of variables and functions (ISO C, 6.7 and 6.9).
ghost use Rattle.std.specs.Prelude.{◌≡◌, flat_map};
ghost use Rattle.dpi_rules.specs.Least.{noted};
ghost use Rattle.c_forms.specs.Declarations as spec;

use c_tree::{BaseWord, CType, Declarator, Initializer, Params, Star, Store, StoreKind, Variables};
use dpi_rules::{Violation, note};

/// The rule on `extern` with an initialiser.
const EXTERN_RULE: u8 = 23;
/// The rule on the number of parameters.
const PARAMS_RULE: u8 = 20;
/// The most parameters of a function.
const MOST_PARAMS: usize = 64;

fn is_extern(store: &Option<Store>) -> bool
    ensures { result ≡ spec.is_extern store.now }
{
    match store {
        None => false,
        Some(store) => matches!(store.kind, StoreKind::Extern),
    }
}

fn note_begins(
    file: u32,
    name: u32,
    initializer: &Option<Initializer>,
    found: &mut Option<Violation>,
)
    ensures { found.new ≡ noted found.old (spec.begins_violations file name initializer.now) }
{
    if initializer.is_some() {
        let violation = Violation {
            file,
            token: name,
            rule: EXTERN_RULE,
        };
        note(found, violation);
    }
}

fn note_declarator(
    file: u32,
    is_extern: bool,
    declarator: &Declarator,
    found: &mut Option<Violation>,
)
    ensures { found.new ≡ noted found.old (spec.declarator_violations file is_extern declarator.now) }
{
    if is_extern {
        note_begins(file, declarator.name.token, &declarator.initializer, found);
    }
}

/// Notes rule 23 at each name of an `extern` declaration that begins with something.
pub(crate) fn note_variables(file: u32, variables: &Variables, found: &mut Option<Violation>)
    ensures { found.new ≡ noted found.old (spec.variables_violations file variables.now) }
{
    let is_extern = is_extern(&variables.store);
    note_declarators(file, is_extern, variables.declarators.as_slice(), found);
}

fn note_declarators(
    file: u32,
    is_extern: bool,
    declarators: &[Declarator],
    found: &mut Option<Violation>,
)
    ensures { found.new ≡ noted found.old (flat_map (spec.declarator_violations file is_extern) declarators.now) }
{
    for declarator in declarators {
        note_declarator(file, is_extern, declarator, found);
    }
}

fn params_count(params: &Params) -> usize
    ensures { result ≡ spec.params_count params.now }
{
    match params {
        Params::Void(_) => 0,
        Params::List(params) => params.len(),
    }
}

/// Notes rule 20 at the name of a function of more than 64 parameters.
pub(crate) fn note_params(file: u32, name: u32, params: &Params, found: &mut Option<Violation>)
    ensures { found.new ≡ noted found.old (spec.params_violations file name params.now) }
{
    if params_count(params) > MOST_PARAMS {
        let violation = Violation {
            file,
            token: name,
            rule: PARAMS_RULE,
        };
        note(found, violation);
    }
}

fn are_void(words: &[BaseWord]) -> bool
    ensures { result ≡ spec.are_void words.now }
{
    match words {
        [BaseWord::Void, ..] => true,
        _ => false,
    }
}

/// Whether a function of this type has a result: it isn't `void` without a star (6.9.1).
pub(crate) fn is_valued(kind: &CType, stars: &[Star]) -> bool
    ensures { result ≡ spec.is_valued kind.now stars.now }
{
    !stars.is_empty() || !are_void(kind.base.as_slice())
}
