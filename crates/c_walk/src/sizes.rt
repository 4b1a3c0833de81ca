//! Sizes of arrays (ISO C 6.7.6.2).
ghost use Rattle.std.specs.Prelude.{◌≡◌};
ghost use Rattle.dpi_rules.specs.Least.{noted};
ghost use Rattle.c_names.specs.Scopes.{scopes_of};
ghost use Rattle.c_names.specs.Uses.{unknown_rule};
ghost use Rattle.c_walk.specs.Around.{around_of};
ghost use Rattle.c_walk.specs.Sizes as spec;

use crate::outside::{Outside, at};
use c_library::{is_reserved, is_word_count, scalar_named, word_count};
use c_names::{Entry, Scopes, Thing};
use c_tree::{Array, Name, Number, Size};
use c_typing::{Place, cells_of, note_size};
use dpi_literal::c_number;
use dpi_rules::{Violation, note};

/// The rule on unknown names.
const UNKNOWN_RULE: u8 = 2;
/// The rule on names of the wrong kind.
const KIND_RULE: u8 = 3;

fn sized(place: Place, value: i128, found: &mut Option<Violation>) -> Option<u32>
    ensures cells { result ≡ (spec.sized place value).cells }
    ensures found { found.new ≡ noted found.old (spec.sized place value).found }
{
    note_size(place, value, found);
    cells_of(value)
}

fn no_size(place: Place, rule: u8, found: &mut Option<Violation>) -> Option<u32>
    ensures cells { result ≡ (spec.no_size place rule).cells }
    ensures found { found.new ≡ noted found.old (spec.no_size place rule).found }
{
    let violation = Violation {
        file: place.file,
        token: place.token,
        rule,
    };
    note(found, violation);
    None
}

fn rule_of_unknown(name: &[u8]) -> u8
    ensures { result ≡ unknown_rule name.now }
{
    if is_reserved(name) {
        KIND_RULE
    } else {
        UNKNOWN_RULE
    }
}

fn undeclared_size(
    place: Place,
    name: &[u8],
    constant: Option<u8>,
    found: &mut Option<Violation>,
) -> Option<u32>
    ensures cells { result ≡ (spec.undeclared_size place name.now constant).cells }
    ensures found { found.new ≡ noted found.old (spec.undeclared_size place name.now constant).found }
{
    match constant {
        None => no_size(place, rule_of_unknown(name), found),
        Some(value) => sized(place, value as i128, found),
    }
}

fn define_size(place: Place, value: Option<i128>, found: &mut Option<Violation>) -> Option<u32>
    ensures cells { result ≡ (spec.define_size place value).cells }
    ensures found { found.new ≡ noted found.old (spec.define_size place value).found }
{
    match value {
        None => None,
        Some(value) => sized(place, value, found),
    }
}

fn thing_size(
    outside: &Outside<'_>,
    place: Place,
    token: u32,
    thing: Thing,
    found: &mut Option<Violation>,
) -> Option<u32>
    ensures cells { result ≡ (spec.thing_size (around_of outside.now) place token thing).cells }
    ensures found { found.new ≡ noted found.old (spec.thing_size (around_of outside.now) place token thing).found }
{
    match thing {
        Thing::Object(_, _) | Thing::Function(_) => no_size(place, KIND_RULE, found),
        Thing::Number(_) => define_size(place, outside.defines.get(token), found),
    }
}

/// The cells of an array whose size is a name, by the name's declaration: a define of 1 to 65,536,
/// or a constant of `svdpi.h`. Rules 2, 3 and 4 are noted at the place. None where one is.
pub(crate) fn named_size(
    outside: &Outside<'_>,
    place: Place,
    name: &[u8],
    entry: Option<Entry>,
    found: &mut Option<Violation>,
) -> Option<u32>
    ensures cells { result ≡ (spec.named_size (around_of outside.now) place name.now entry).cells }
    ensures found { found.new ≡ noted found.old (spec.named_size (around_of outside.now) place name.now entry).found }
{
    match entry {
        None => undeclared_size(place, name, scalar_named(name), found),
        Some(entry) => thing_size(outside, place, entry.token, entry.thing, found),
    }
}

fn size_by_name(
    outside: &Outside<'_>,
    scopes: &Scopes<'_>,
    name: &Name,
    found: &mut Option<Violation>,
) -> Option<u32>
    ensures cells { result ≡ (spec.size_by_name (around_of outside.now) (scopes_of scopes.now) name.now).cells }
    ensures found { found.new ≡ noted found.old (spec.size_by_name (around_of outside.now) (scopes_of scopes.now) name.now).found }
{
    let bytes = name.bytes.as_slice();
    let entry = scopes.find(bytes);
    named_size(outside, at(outside, name.token), bytes, entry, found)
}

/// The rule that a name before a `(` breaks, where it isn't the macro for words.
fn no_macro_rule(name: &[u8], entry: Option<Entry>) -> u8
    ensures { result ≡ spec.no_macro_rule name.now entry }
{
    match entry {
        None => rule_of_unknown(name),
        Some(_) => KIND_RULE,
    }
}

/// The cells of an array whose size is the macro for words of a number. Rules 2, 3 and 4 are noted
/// at the name; None where one is.
pub(crate) fn words_size(
    place: Place,
    name: &[u8],
    entry: Option<Entry>,
    width: &[u8],
    found: &mut Option<Violation>,
) -> Option<u32>
    ensures cells { result ≡ (spec.words_size place name.now entry width.now).cells }
    ensures found { found.new ≡ noted found.old (spec.words_size place name.now entry width.now).found }
{
    if is_word_count(name) {
        sized(place, word_count(width).value, found)
    } else {
        no_size(place, no_macro_rule(name, entry), found)
    }
}

fn size_by_words(
    outside: &Outside<'_>,
    scopes: &Scopes<'_>,
    name: &Name,
    width: &Number,
    found: &mut Option<Violation>,
) -> Option<u32>
    ensures cells { result ≡ (spec.size_by_words (around_of outside.now) (scopes_of scopes.now) name.now width.now).cells }
    ensures found { found.new ≡ noted found.old (spec.size_by_words (around_of outside.now) (scopes_of scopes.now) name.now width.now).found }
{
    let bytes = name.bytes.as_slice();
    let entry = scopes.find(bytes);
    let width = width.bytes.as_slice();
    words_size(at(outside, name.token), bytes, entry, width, found)
}

fn size_cells(
    outside: &Outside<'_>,
    scopes: &Scopes<'_>,
    size: &Size,
    found: &mut Option<Violation>,
) -> Option<u32>
    ensures cells { result ≡ (spec.size (around_of outside.now) (scopes_of scopes.now) size.now).cells }
    ensures found { found.new ≡ noted found.old (spec.size (around_of outside.now) (scopes_of scopes.now) size.now).found }
{
    match size {
        Size::Number(number) => {
            let value = c_number(number.bytes.as_slice()).value;
            sized(at(outside, number.token), value, found)
        }
        Size::Name(name) => size_by_name(outside, scopes, name, found),
        Size::Call(name, _, width) => size_by_words(outside, scopes, name, width, found),
    }
}

/// The cells of a declarator, one where it is no array. Rules 2, 3 and 4 are noted at the size;
/// None where one is.
pub(crate) fn array_cells(
    outside: &Outside<'_>,
    scopes: &Scopes<'_>,
    array: &Option<Array>,
    found: &mut Option<Violation>,
) -> Option<u32>
    ensures cells { result ≡ (spec.array_size (around_of outside.now) (scopes_of scopes.now) array.now).cells }
    ensures found { found.new ≡ noted found.old (spec.array_size (around_of outside.now) (scopes_of scopes.now) array.now).found }
{
    match array {
        None => Some(1),
        Some(array) => size_cells(outside, scopes, &array.size, found),
    }
}
