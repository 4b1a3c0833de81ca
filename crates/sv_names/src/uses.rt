//! The rules on a name where it is used, by what it declares there.

ghost use Rattle.std.specs.Prelude.{◌≡◌};
ghost use Rattle.dpi_rules.specs.Least.{noted};
ghost use Rattle.sv_names.specs.Uses as spec;

use crate::entry::{Entry, Thing};
use dpi_rules::{Violation, note};
use sv_shapes::VarKind;

/// The rule on unknown names.
const UNKNOWN_RULE: u8 = 5;
/// The rule on names of the wrong kind.
const KIND_RULE: u8 = 6;
/// The rule on what `disable` names.
const DISABLE_RULE: u8 = 23;

/// What a call calls.
#[derive(Clone, Copy, Debug, PartialEq, Eq)]
pub enum Callee {
    /// A function or a task of the module, by its number among these in text order, from 0.
    Subroutine(usize),
    /// An import of the module, by its number among these in text order, from 0.
    Import(usize),
}

fn note_rule(file: u32, token: u32, rule: u8, found: &mut Option<Violation>)
    ensures { found.new ≡ noted found.old (spec.broken file token rule) }
{
    note(found, Violation { file, token, rule });
}

/// Notes rule 6 at the token, where this isn't a variable.
fn note_not_value(file: u32, token: u32, thing: Thing, found: &mut Option<Violation>)
    ensures { found.new ≡ noted found.old (spec.not_value file token thing) }
{
    match thing {
        Thing::Variable(_) | Thing::Result(_) => {}
        _ => note_rule(file, token, KIND_RULE, found),
    }
}

/// Notes what the name of a value or of what is assigned to breaks, at this token, by its
/// declaration: rule 5 where there is none, rule 6 where it declares neither a variable nor a
/// result.
pub fn note_value(file: u32, token: u32, entry: Option<Entry>, found: &mut Option<Violation>)
    ensures { found.new ≡ noted found.old (spec.value_violations file token entry) }
{
    match entry {
        None => note_rule(file, token, UNKNOWN_RULE, found),
        Some(entry) => note_not_value(file, token, entry.thing, found),
    }
}

/// The kind of what is declared, if it is a variable or a result that has one.
fn kind_of_thing(thing: Thing) -> Option<VarKind>
    ensures { result ≡ spec.kind_of_thing thing }
{
    match thing {
        Thing::Variable(kind) | Thing::Result(kind) => kind,
        _ => None,
    }
}

/// The kind of the variable or result that a name means by its declaration. None where there is
/// none, where it declares something else, or where its declaration is refused.
pub fn value_kind(entry: Option<Entry>) -> Option<VarKind>
    ensures { result ≡ spec.value_kind entry }
{
    match entry {
        None => None,
        Some(entry) => kind_of_thing(entry.thing),
    }
}

/// Notes rule 6 at the token, where this can't be called.
fn note_not_callee(file: u32, token: u32, thing: Thing, found: &mut Option<Violation>)
    ensures { found.new ≡ noted found.old (spec.not_callee file token thing) }
{
    match thing {
        Thing::Function(_) | Thing::Task(_) | Thing::Import(_) => {}
        _ => note_rule(file, token, KIND_RULE, found),
    }
}

/// Notes what the name of what is called breaks, at this token, by its declaration: rule 5 where
/// there is none, rule 6 where it declares no function, task or import.
pub fn note_call(file: u32, token: u32, entry: Option<Entry>, found: &mut Option<Violation>)
    ensures { found.new ≡ noted found.old (spec.call_violations file token entry) }
{
    match entry {
        None => note_rule(file, token, UNKNOWN_RULE, found),
        Some(entry) => note_not_callee(file, token, entry.thing, found),
    }
}

/// What is called, if this can be.
fn callee_of_thing(thing: Thing) -> Option<Callee>
    ensures { result ≡ spec.callee_of_thing thing }
{
    match thing {
        Thing::Function(number) | Thing::Task(number) => Some(Callee::Subroutine(number)),
        Thing::Import(number) => Some(Callee::Import(number)),
        _ => None,
    }
}

/// What a call of a name calls, by its declaration. None where there is none, or where it declares
/// no function, task or import.
pub fn called(entry: Option<Entry>) -> Option<Callee>
    ensures { result ≡ spec.called entry }
{
    match entry {
        None => None,
        Some(entry) => callee_of_thing(entry.thing),
    }
}

/// Notes rule 23 at the token, where this is neither a named block nor a task of the module.
fn note_not_target(file: u32, token: u32, thing: Thing, found: &mut Option<Violation>)
    ensures { found.new ≡ noted found.old (spec.not_target file token thing) }
{
    match thing {
        Thing::Block | Thing::Task(_) => {}
        _ => note_rule(file, token, DISABLE_RULE, found),
    }
}

/// Notes rule 23 at the name behind `disable`, at this token, where by its declaration it is neither
/// a named block nor a task of the module (9.6.2). An import isn't one.
pub fn note_disable(file: u32, token: u32, entry: Option<Entry>, found: &mut Option<Violation>)
    ensures { found.new ≡ noted found.old (spec.disable_violations file token entry) }
{
    match entry {
        None => note_rule(file, token, DISABLE_RULE, found),
        Some(entry) => note_not_target(file, token, entry.thing, found),
    }
}

/// Notes rule 5 at the name of an export, at this token, where its module declares no such name. A
/// name of another kind breaks no rule here.
pub fn note_export(file: u32, token: u32, entry: Option<Entry>, found: &mut Option<Violation>)
    ensures { found.new ≡ noted found.old (spec.export_violations file token entry) }
{
    if entry.is_none() {
        note_rule(file, token, UNKNOWN_RULE, found);
    }
}

/// The number of the function or task that this is, if it is one.
fn subroutine_of_thing(thing: Thing) -> Option<usize>
    ensures { result ≡ spec.subroutine_of_thing thing }
{
    match thing {
        Thing::Function(number) | Thing::Task(number) => Some(number),
        _ => None,
    }
}

/// The function or task that is exported by a name, by its declaration in its module (35.5.5): its
/// number among the functions and tasks of the module in text order, from 0. None where there is no
/// declaration, or where it declares something else.
pub fn exported(entry: Option<Entry>) -> Option<usize>
    ensures { result ≡ spec.exported entry }
{
    match entry {
        None => None,
        Some(entry) => subroutine_of_thing(entry.thing),
    }
}
