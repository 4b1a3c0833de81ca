//! Parameters (ISO C 6.7.6.3 and 6.2.1).
ghost use Rattle.std.specs.Prelude.{◌≡◌, [], ◌∷◌, ◌++◌, map};
ghost use Rattle.dpi_rules.specs.Least.{noted};
ghost use Rattle.c_names.specs.Names.{names_of};
ghost use Rattle.c_names.specs.Scopes.{scopes_of, find};
ghost use Rattle.c_walk.specs.Sight.{Fills, Opens, in_turn};
ghost use Rattle.c_walk.specs.Around.{around_of};
ghost use Rattle.c_walk.specs.Sizes.{name_size_violations, param_size_violations};
ghost use Rattle.c_walk.specs.Declarations as spec;

use crate::objects::{declared_operand, unrefused};
use crate::outside::{Outside, at};
use crate::sizes::{named_size, words_size};
use c_names::{Entry, Scope, Scopes, Thing, note_second};
use c_tree::{Name, Param, ParamArray, Params, Size};
use c_typing::{Declared, Operand, adjusted, declared_of};
use dpi_ports::NoMemory;
use dpi_rules::Violation;
use std::alloc::Global;

fn adjusted_by(is_array: bool, declared: Option<Declared>) -> Option<Declared>
    ensures { result ≡ spec.adjusted_by is_array declared }
{
    match declared {
        None => None,
        Some(declared) => adjusted(is_array, declared),
    }
}

fn param_operand(param: &Param) -> Option<Operand>
    ensures { result ≡ spec.param_operand param.now }
{
    let declared = declared_of(&param.kind, param.stars.as_slice());
    let adjusted = adjusted_by(param.array.is_some(), declared);
    declared_operand(false, None, unrefused(false, adjusted))
}

/// What a name declares in the scope of parameters, which stands inside the others.
pub fn entry_in(scopes: &Scopes<'_>, scope: &Scope<'_>, name: &[u8]) -> Option<Entry>
    ensures { result ≡ find (scopes_of scopes.now ++ names_of scope.now ∷ []) name.now }
{
    match scope.get(name) {
        Some(entry) => Some(entry),
        None => scopes.find(name),
    }
}

fn note_name_size(
    outside: &Outside<'_>,
    scopes: &Scopes<'_>,
    scope: &Scope<'_>,
    size: &Option<Size>,
    found: &mut Option<Violation>,
)
    ensures { found.new ≡ noted found.old (name_size_violations (around_of outside.now) (scopes_of scopes.now ++ names_of scope.now ∷ []) size.now) }
{
    match size {
        Some(Size::Name(name)) => {
            let bytes = name.bytes.as_slice();
            let entry = entry_in(scopes, scope, bytes);
            let _ = named_size(outside, at(outside, name.token), bytes, entry, found);
        }
        Some(Size::Call(name, _, width)) => {
            let bytes = name.bytes.as_slice();
            let entry = entry_in(scopes, scope, bytes);
            let width = width.bytes.as_slice();
            let _ = words_size(at(outside, name.token), bytes, entry, width, found);
        }
        _ => {}
    }
}

fn note_param_size(
    outside: &Outside<'_>,
    scopes: &Scopes<'_>,
    scope: &Scope<'_>,
    array: &Option<ParamArray>,
    found: &mut Option<Violation>,
)
    ensures { found.new ≡ noted found.old (param_size_violations (around_of outside.now) (scopes_of scopes.now ++ names_of scope.now ∷ []) array.now) }
{
    if let Some(array) = array {
        note_name_size(outside, scopes, scope, &array.size, found);
    }
}

/// Declares a parameter, if it has a name. Rule 1 is noted at the name.
fn declare_param<'n>(
    outside: &Outside<'_>,
    scopes: &Scopes<'_>,
    scope: &mut Scope<'n>,
    name: &'n Option<Name>,
    operand: Option<Operand>,
    found: &mut Option<Violation>,
) -> Result<(), NoMemory>
    ensures { Fills (spec.param_name_walk (around_of outside.now) name.now operand) (scopes_of scopes.now) (names_of scope.old) found.old result (names_of scope.new) found.new }
{
    let Some(name) = name else {
        return Ok(());
    };
    let bytes = name.bytes.as_slice();
    note_second(at(outside, name.token), scope.get(bytes), false, found);
    scope.add(
        bytes,
        Entry {
            token: name.token,
            thing: Thing::Object(operand, false),
        },
    )
}

/// A parameter: its size, and then its name, which is in sight behind it. Rule 1 is noted at a second
/// declaration, rules 2, 3 and 4 at a size that is a name. NoMemory where no memory was found.
pub fn walk_param<'n>(
    outside: &Outside<'_>,
    scopes: &Scopes<'_>,
    scope: &mut Scope<'n>,
    param: &'n Param,
    found: &mut Option<Violation>,
) -> Result<(), NoMemory>
    ensures { Fills (spec.param_walk (around_of outside.now) param.now) (scopes_of scopes.now) (names_of scope.old) found.old result (names_of scope.new) found.new }
{
    note_param_size(outside, scopes, scope, &param.array, found);
    declare_param(
        outside,
        scopes,
        scope,
        &param.name,
        param_operand(param),
        found,
    )
}

fn walk_listed<'n>(
    outside: &Outside<'_>,
    scopes: &Scopes<'_>,
    scope: &mut Scope<'n>,
    params: &'n [Param],
    found: &mut Option<Violation>,
) -> Result<(), NoMemory>
    ensures { Fills (in_turn (map (spec.param_walk (around_of outside.now)) params.now)) (scopes_of scopes.now) (names_of scope.old) found.old result (names_of scope.new) found.new }
{
    for param in params {
        walk_param(outside, scopes, scope, param, found)?;
    }
    Ok(())
}

fn walk_params<'n>(
    outside: &Outside<'_>,
    scopes: &Scopes<'_>,
    scope: &mut Scope<'n>,
    params: &'n Params,
    found: &mut Option<Violation>,
) -> Result<(), NoMemory>
    ensures { Fills (spec.params_walk (around_of outside.now) params.now) (scopes_of scopes.now) (names_of scope.old) found.old result (names_of scope.new) found.new }
{
    match params {
        Params::Void(_) => Ok(()),
        Params::List(params) => walk_listed(outside, scopes, scope, params.as_slice(), found),
    }
}

/// The scope of a function's parameters inside these scopes. Rule 1 is noted at second
/// declarations, rules 2, 3 and 4 at sizes that are names. NoMemory where no memory was found.
pub(crate) fn params_scope<'n>(
    alloc: Global,
    outside: &Outside<'_>,
    scopes: &Scopes<'_>,
    params: &'n Params,
    found: &mut Option<Violation>,
) -> Result<Scope<'n>, NoMemory>
    ensures { Opens (spec.params_walk (around_of outside.now) params.now) (scopes_of scopes.now) found.old result found.new }
{
    let mut scope = Scope::new(alloc);
    walk_params(outside, scopes, &mut scope, params, found)?;
    Ok(scope)
}
