//! Parameters of functions (ISO C 6.7.6.3).
ghost use Rattle.std.specs.Prelude.{◌≡◌, is_some};
ghost use Rattle.dpi_rules.specs.Least.{noted};
ghost use Rattle.c_typing.specs.Judged.{rule_at};
ghost use Rattle.c_typing.specs.Pointers.{is_base};
ghost use Rattle.c_functions.specs.Params as spec;
ghost use Rattle.c_base.specs.declared.base.CBase.TheVariants.{Void};

use c_base::{CBase, CType};
use c_library::{is_word_count, note_reserved, word_count};
use c_tree::{Name, Param, ParamArray, Size};
use c_typing::{Declared, Place, adjusted, bare, declared_of, note_size, note_stars, note_void};
use dpi_literal::c_number;
use dpi_rules::{Violation, note};

/// The rule on names of the wrong kind.
const KIND_RULE: u8 = 3;

/// Whether a type is `void`.
pub(crate) fn is_void(of: CType) -> bool
    ensures { result ≡ is_base Void of }
{
    of.stars == 0 && of.base == CBase::Void
}

fn adjusted_by(is_array: bool, declared: Option<Declared>) -> Option<Declared>
    ensures { result ≡ spec.adjusted_by is_array declared }
{
    match declared {
        None => None,
        Some(declared) => adjusted(is_array, declared),
    }
}

/// What a parameter is, an array being a pointer to its cells.
fn written(param: &Param) -> Option<Declared>
    ensures { result ≡ spec.written param.now }
{
    let declared = declared_of(&param.kind, param.stars.as_slice());
    adjusted_by(param.array.is_some(), declared)
}

fn type_by(named: bool, declared: Option<Declared>) -> Option<CType>
    ensures { result ≡ spec.type_by named declared }
{
    match declared {
        None => None,
        Some(declared) => {
            if named && is_void(declared.of) {
                None
            } else {
                Some(bare(declared.of))
            }
        }
    }
}

/// The type of a parameter in the type of its function: an array is a pointer, and const of the
/// parameter itself isn't counted. None where it is refused: void with a name, or too many stars.
pub(crate) fn param_type(param: &Param) -> Option<CType>
    ensures { result ≡ spec.param_type param.now }
{
    type_by(param.name.is_some(), written(param))
}

fn place_token(first: u32, name: &Option<Name>) -> u32
    ensures { result ≡ spec.place_token first name.now }
{
    match name {
        None => first,
        Some(name) => name.token,
    }
}

fn note_reserved_name(file: u32, name: &Option<Name>, found: &mut Option<Violation>)
    ensures { found.new ≡ noted found.old (spec.reserved_violations file name.now) }
{
    if let Some(name) = name {
        note_reserved(file, name.token, name.bytes.as_slice(), found);
    }
}

fn note_void_name(
    file: u32,
    name: &Option<Name>,
    declared: Option<Declared>,
    found: &mut Option<Violation>,
)
    ensures { found.new ≡ noted found.old (spec.void_violations file name.now declared) }
{
    if let Some(name) = name {
        if let Some(declared) = declared {
            let place = Place {
                file,
                token: name.token,
            };
            note_void(place, declared.of, found);
        }
    }
}

fn note_kind(file: u32, token: u32, found: &mut Option<Violation>)
    ensures { found.new ≡ noted found.old (rule_at (spec.place file token) (Some 3)) }
{
    note(
        found,
        Violation {
            file,
            token,
            rule: KIND_RULE,
        },
    );
}

/// Notes rule 4 at a size that is a number or the words of one, and rule 3 at another name before a
/// `(`. A size that is a name alone isn't looked at.
fn note_written_size(file: u32, size: &Size, found: &mut Option<Violation>)
    ensures { found.new ≡ noted found.old (spec.size_violations file size.now) }
{
    match size {
        Size::Number(number) => {
            let place = Place {
                file,
                token: number.token,
            };
            note_size(place, c_number(number.bytes.as_slice()).value, found);
        }
        Size::Name(_) => {}
        Size::Call(name, _, width) => {
            let token = name.token;
            if is_word_count(name.bytes.as_slice()) {
                let words = word_count(width.bytes.as_slice());
                note_size(Place { file, token }, words.value, found);
            } else {
                note_kind(file, token, found);
            }
        }
    }
}

fn note_size_of(file: u32, size: &Option<Size>, found: &mut Option<Violation>)
    ensures { found.new ≡ noted found.old (spec.written_size_violations file size.now) }
{
    if let Some(size) = size {
        note_written_size(file, size, found);
    }
}

fn note_array(file: u32, array: &Option<ParamArray>, found: &mut Option<Violation>)
    ensures { found.new ≡ noted found.old (spec.array_violations file array.now) }
{
    if let Some(array) = array {
        note_size_of(file, &array.size, found);
    }
}

/// Notes rule 22 at a parameter's name, or at its type where it has none; rule 5 at a name that is
/// void; rules 3 and 4 at the size of an array, but for a size that is a name; and rule 21 at a name
/// that may not be declared.
pub(crate) fn note_param(file: u32, param: &Param, found: &mut Option<Violation>)
    ensures { found.new ≡ noted found.old (spec.param_violations file param.now) }
{
    let token = place_token(param.kind.token, &param.name);
    note_stars(
        Place { file, token },
        param.stars.as_slice(),
        param.array.is_some(),
        found,
    );
    note_void_name(file, &param.name, written(param), found);
    note_array(file, &param.array, found);
    note_reserved_name(file, &param.name, found);
}
