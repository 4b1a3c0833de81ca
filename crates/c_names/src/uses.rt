//! What a name is where it is used, and where it is declared once more (ISO C 6.2.1 and 6.5.1).
ghost use Rattle.std.specs.Prelude.{◌≡◌};
ghost use Rattle.dpi_rules.specs.Least.{noted};
ghost use Rattle.c_typing.specs.Judged.{rule_at};
ghost use Rattle.c_names.specs.Uses as spec;

use crate::entry::{Entry, Thing};
use c_initial::Part;
use c_library::{Call, call_named, is_printf, is_reserved, is_word_count, scalar_named};
use c_typing::{Form, Operand, Place, constant};
use dpi_literal::NumberType;
use dpi_rules::{Violation, note};

/// What a called name is.
#[derive(Clone, Copy, Debug, PartialEq, Eq)]
pub enum Callee {
    /// A function, by the number that its declarer gave it.
    Function(u32),
    /// A call of `svdpi.h`.
    Library(Call),
    /// `printf`
    Printf,
    /// `SV_PACKED_DATA_NELEMS`
    WordCount,
}

fn note_at(place: Place, rule: u8, found: &mut Option<Violation>)
    ensures { found.new ≡ noted found.old (rule_at place (Some rule)) }
{
    let violation = Violation {
        file: place.file,
        token: place.token,
        rule,
    };
    note(found, violation);
}

fn unknown_rule(name: &[u8]) -> u8
    ensures { result ≡ spec.unknown_rule name.now }
{
    if is_reserved(name) { 3 } else { 2 }
}

fn undeclared(place: Place, name: &[u8], found: &mut Option<Violation>) -> Option<Operand>
    ensures value { result ≡ (spec.undeclared place name.now).value }
    ensures found { found.new ≡ noted found.old (spec.undeclared place name.now).found }
{
    if scalar_named(name).is_some() {
        return Some(constant(NumberType::Int));
    }
    note_at(place, unknown_rule(name), found);
    None
}

fn thing_value(place: Place, thing: Thing, found: &mut Option<Violation>) -> Option<Operand>
    ensures value { result ≡ (spec.thing_value place thing).value }
    ensures found { found.new ≡ noted found.old (spec.thing_value place thing).found }
{
    match thing {
        Thing::Object(operand, _) => operand,
        Thing::Number(of) => Some(constant(of)),
        Thing::Function(_) => {
            note_at(place, 3, found);
            None
        }
    }
}

/// A name where a value stands, by its declaration here: an object, a define, or a constant of
/// `svdpi.h`, which no file declares. Rule 2 is broken by an unknown name, rule 3 by a function and by
/// another name of `svdpi.h` or `printf`. None where a rule is broken, or the object's declaration is
/// refused (ISO C 6.5.1).
pub fn name_value(
    place: Place,
    name: &[u8],
    entry: Option<Entry>,
    found: &mut Option<Violation>,
) -> Option<Operand>
    ensures value { result ≡ (spec.name_value place name.now entry).value }
    ensures found { found.new ≡ noted found.old (spec.name_value place name.now entry).found }
{
    match entry {
        None => undeclared(place, name, found),
        Some(entry) => thing_value(place, entry.thing, found),
    }
}

fn other_callee(place: Place, name: &[u8], found: &mut Option<Violation>) -> Option<Callee>
    ensures callee { result ≡ (spec.other_callee place name.now).callee }
    ensures found { found.new ≡ noted found.old (spec.other_callee place name.now).found }
{
    if is_printf(name) {
        return Some(Callee::Printf);
    }
    if is_word_count(name) {
        return Some(Callee::WordCount);
    }
    let rule = if scalar_named(name).is_some() { 3 } else { 2 };
    note_at(place, rule, found);
    None
}

fn undeclared_callee(place: Place, name: &[u8], found: &mut Option<Violation>) -> Option<Callee>
    ensures callee { result ≡ (spec.undeclared_callee place name.now).callee }
    ensures found { found.new ≡ noted found.old (spec.undeclared_callee place name.now).found }
{
    match call_named(name) {
        None => other_callee(place, name, found),
        Some(call) => Some(Callee::Library(call)),
    }
}

fn thing_callee(place: Place, thing: Thing, found: &mut Option<Violation>) -> Option<Callee>
    ensures callee { result ≡ (spec.thing_callee place thing).callee }
    ensures found { found.new ≡ noted found.old (spec.thing_callee place thing).found }
{
    match thing {
        Thing::Function(number) => Some(Callee::Function(number)),
        Thing::Object(_, _) | Thing::Number(_) => {
            note_at(place, 3, found);
            None
        }
    }
}

/// A name before a `(`, by its declaration here: a function, a call of `svdpi.h`, `printf`, or the
/// macro for words. Rule 2 is broken by an unknown name, rule 3 by an object, a define and a constant.
/// None where a rule is broken (ISO C 6.5.2.2).
pub fn called(
    place: Place,
    name: &[u8],
    entry: Option<Entry>,
    found: &mut Option<Violation>,
) -> Option<Callee>
    ensures callee { result ≡ (spec.called place name.now entry).callee }
    ensures found { found.new ≡ noted found.old (spec.called place name.now entry).found }
{
    match entry {
        None => undeclared_callee(place, name, found),
        Some(entry) => thing_callee(place, entry.thing, found),
    }
}

fn is_array_form(form: Form) -> bool
    ensures { result ≡ spec.is_array_form form }
{
    matches!(form, Form::Array)
}

fn lasting_part(operand: Option<Operand>) -> Part
    ensures { result ≡ spec.lasting_part operand }
{
    match operand {
        None => Part::Unknown,
        Some(a) => {
            if is_array_form(a.form) {
                Part::Array
            } else {
                Part::Object
            }
        }
    }
}

fn thing_part(thing: Thing) -> Part
    ensures { result ≡ spec.thing_part thing }
{
    match thing {
        Thing::Object(operand, lasts) => {
            if lasts {
                lasting_part(operand)
            } else {
                Part::Other
            }
        }
        Thing::Number(_) => Part::Number,
        Thing::Function(_) => Part::Other,
    }
}

fn undeclared_part(name: &[u8]) -> Part
    ensures { result ≡ spec.undeclared_part name.now }
{
    if scalar_named(name).is_some() {
        Part::Number
    } else if is_reserved(name) {
        Part::Other
    } else {
        Part::Unknown
    }
}

/// A name in an initialiser, by its declaration here (ISO C 6.6).
pub fn name_part(name: &[u8], entry: Option<Entry>) -> Part
    ensures { result ≡ spec.name_part name.now entry }
{
    match entry {
        None => undeclared_part(name),
        Some(entry) => thing_part(entry.thing),
    }
}

fn is_function(thing: Thing) -> bool
    ensures { result ≡ spec.is_function thing }
{
    matches!(thing, Thing::Function(_))
}

/// Notes rule 1 at a name that its scope has already, by the declaration there. Functions may be
/// declared again; whether such a declaration is one is handed in (ISO C 6.7, paragraph 3).
pub fn note_second(
    place: Place,
    earlier: Option<Entry>,
    is_function_too: bool,
    found: &mut Option<Violation>,
)
    ensures { found.new ≡ noted found.old (spec.second place earlier is_function_too) }
{
    if let Some(entry) = earlier {
        if !is_function_too || !is_function(entry.thing) {
            note_at(place, 1, found);
        }
    }
}
