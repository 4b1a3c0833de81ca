//! Declarations of variables (ISO C 6.7).
ghost use Rattle.std.specs.Prelude.{◌≡◌, map, is_some};
ghost use Rattle.dpi_rules.specs.Least.{noted};
ghost use Rattle.c_names.specs.Scopes.{scopes_of};
ghost use Rattle.c_walk.specs.Sight.{Follows, Sees, in_turn};
ghost use Rattle.c_walk.specs.Around.{around_of};
ghost use Rattle.c_walk.specs.Declarations as spec;

use crate::initials::begin;
use crate::objects::{Object, unrefused};
use crate::outside::{Outside, at};
use crate::sizes::array_cells;
use c_library::note_reserved;
use c_names::{Entry, Scopes, Thing, note_second};
use c_tree::{CType as TypeTree, Declarator, Name, Store, Variables};
use c_typing::{Declared, Place, declared_of, note_stars, note_void};
use dpi_ports::NoMemory;
use dpi_rules::Violation;
use std::alloc::Global;

fn note_void_type(place: Place, declared: Option<Declared>, found: &mut Option<Violation>)
    ensures { found.new ≡ noted found.old (spec.void_violations place declared) }
{
    if let Some(declared) = declared {
        note_void(place, declared.of, found);
    }
}

/// What a declarator declares. Rules 5 and 22 are noted at its name, rules 2, 3 and 4 at its size.
fn object(
    outside: &Outside<'_>,
    scopes: &Scopes<'_>,
    lasts: bool,
    tree: &TypeTree,
    declarator: &Declarator,
    found: &mut Option<Violation>,
) -> Object
    ensures object { result ≡ spec.object_of (around_of outside.now) (scopes_of scopes.now) lasts tree.now declarator.now }
    ensures found { found.new ≡ noted found.old (spec.shape_violations (around_of outside.now) (scopes_of scopes.now) tree.now declarator.now) }
{
    let place = at(outside, declarator.name.token);
    let is_array = declarator.array.is_some();
    let stars = declarator.stars.as_slice();
    let declared = declared_of(tree, stars);
    note_stars(place, stars, is_array, found);
    note_void_type(place, declared, found);
    Object {
        declared: unrefused(is_array, declared),
        is_array,
        cells: array_cells(outside, scopes, &declarator.array, found),
        lasts,
    }
}

/// Notes rule 1 at a name that its scope has, by its declaration there, and rule 21 at one that may
/// not be declared.
pub(crate) fn note_new_name(
    place: Place,
    name: &[u8],
    earlier: Option<Entry>,
    found: &mut Option<Violation>,
)
    ensures { found.new ≡ noted found.old (spec.new_name_violations place name.now earlier) }
{
    note_second(place, earlier, false, found);
    note_reserved(place.file, place.token, name, found);
}

/// Declares an object. Rules 1 and 21 are noted at its name.
fn declare_object<'n>(
    outside: &Outside<'_>,
    scopes: &mut Scopes<'n>,
    name: &'n Name,
    object: Object,
    found: &mut Option<Violation>,
) -> Result<(), NoMemory>
    ensures { Follows (spec.object_walk (around_of outside.now) name.now object) (scopes_of scopes.old) found.old result (scopes_of scopes.new) found.new }
{
    let bytes = name.bytes.as_slice();
    note_new_name(at(outside, name.token), bytes, scopes.here(bytes), found);
    scopes.declare(
        bytes,
        Entry {
            token: name.token,
            thing: Thing::Object(object.operand(), object.lasts),
        },
    )
}

/// A variable: what it declares, its name, and then what it begins with.
fn walk_declarator<'n>(
    alloc: Global,
    outside: &Outside<'_>,
    scopes: &mut Scopes<'n>,
    lasts: bool,
    tree: &TypeTree,
    declarator: &'n Declarator,
    found: &mut Option<Violation>,
) -> Result<(), NoMemory>
    ensures { Follows (spec.declarator_walk (around_of outside.now) lasts tree.now declarator.now) (scopes_of scopes.old) found.old result (scopes_of scopes.new) found.new }
{
    let object = object(outside, scopes, lasts, tree, declarator, found);
    declare_object(outside, scopes, &declarator.name, object, found)?;
    begin(
        alloc,
        outside,
        scopes,
        object,
        &declarator.initializer,
        found,
    )
}

/// Brings the name of a variable in sight, as at the end of its declarator. NoMemory where no memory
/// was found.
pub fn see_variable<'n>(
    outside: &Outside<'_>,
    scopes: &mut Scopes<'n>,
    lasts: bool,
    tree: &TypeTree,
    declarator: &'n Declarator,
) -> Result<(), NoMemory>
    ensures { Sees (spec.declarator_walk (around_of outside.now) lasts tree.now declarator.now) (scopes_of scopes.old) result (scopes_of scopes.new) }
{
    let object = object(outside, scopes, lasts, tree, declarator, &mut None);
    declare_object(outside, scopes, &declarator.name, object, &mut None)
}

fn walk_declarators<'n>(
    alloc: Global,
    outside: &Outside<'_>,
    scopes: &mut Scopes<'n>,
    lasts: bool,
    tree: &TypeTree,
    declarators: &'n [Declarator],
    found: &mut Option<Violation>,
) -> Result<(), NoMemory>
    ensures { Follows (in_turn (map (spec.declarator_walk (around_of outside.now) lasts tree.now) declarators.now)) (scopes_of scopes.old) found.old result (scopes_of scopes.new) found.new }
{
    for declarator in declarators {
        walk_declarator(alloc, outside, scopes, lasts, tree, declarator, found)?;
    }
    Ok(())
}

/// Whether what is so declared, at file scope or elsewhere, lasts for the whole run (ISO C 6.2.4).
pub fn lasts(at_file: bool, store: &Option<Store>) -> bool
    ensures { result ≡ spec.lasts at_file store.now }
{
    match store {
        None => at_file,
        Some(_) => true,
    }
}

/// Variables of one type, at file scope or elsewhere: each is in sight from its own name on.
pub(crate) fn walk_variables<'n>(
    alloc: Global,
    outside: &Outside<'_>,
    scopes: &mut Scopes<'n>,
    at_file: bool,
    variables: &'n Variables,
    found: &mut Option<Violation>,
) -> Result<(), NoMemory>
    ensures { Follows (spec.variables_walk (around_of outside.now) at_file variables.now) (scopes_of scopes.old) found.old result (scopes_of scopes.new) found.new }
{
    let lasts = lasts(at_file, &variables.store);
    let declarators = variables.declarators.as_slice();
    walk_declarators(
        alloc,
        outside,
        scopes,
        lasts,
        &variables.kind,
        declarators,
        found,
    )
}
