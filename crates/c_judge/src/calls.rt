//! Calls: what is called, and its arguments (ISO C 6.5.2.2).
ghost use Rattle.std.specs.Prelude.{◌≡◌, IfOk, List, None, map};
ghost use Rattle.dpi_rules.specs.declared.violation.Violation.{Violation};
ghost use Rattle.dpi_rules.specs.Least.{noted};
ghost use Rattle.c_names.specs.Uses.{called as called_by};
ghost use Rattle.c_typing.specs.Judged.{unless, rule_at};
ghost use Rattle.c_library.specs.Types as library;
ghost use Rattle.c_judge.specs.Words.{word_of};
ghost use Rattle.c_judge.specs.Calls as spec;

use crate::around::{Around, at};
use crate::words::are_one_number;
use c_base::{CBase, CType};
use c_library::Call;
use c_names::{Callee, called};
use c_printf::{arguments_fit, note_printf};
use c_tree::{CExpr, Name};
use c_typing::{Operand, Place, bare};
use dpi_ports::NoMemory;
use dpi_rules::{Violation, note};
use std::alloc::Global;

/// The rule on `SV_PACKED_DATA_NELEMS`.
const WORDS_RULE: u8 = 3;
/// The rule on the number of arguments.
const COUNT_RULE: u8 = 8;

/// What a called name is here. Rules 2 and 3 are noted at the name (ISO C 6.5.2.2).
pub fn callee_of(
    around: &Around<'_, '_>,
    name: &Name,
    found: &mut Option<Violation>,
) -> Option<Callee>
    ensures callee { result ≡ (called_by (spec.at (spec.env_of around.now) name.now.token) name.now.bytes ((spec.env_of around.now).names name.now.bytes)).callee }
    ensures found { found.new ≡ noted found.old (called_by (spec.at (spec.env_of around.now) name.now.token) name.now.bytes ((spec.env_of around.now).names name.now.bytes)).found }
{
    let bytes = name.bytes.as_slice();
    let entry = around.scopes.find(bytes);
    called(at(around, name.token), bytes, entry, found)
}

/// The type of the parameter of this number, from 0. None where there is no such parameter, its
/// declaration is refused, or the callee converts no argument.
pub fn parameter(around: &Around<'_, '_>, callee: Option<Callee>, number: usize) -> Option<CType>
    ensures { result ≡ spec.parameter (spec.env_of around.now) callee number }
{
    match callee? {
        Callee::Function(n) => *around.functions.get(n as usize)?.params.get(number)?,
        Callee::Library(call) => library_parameter(call, number),
        Callee::Printf | Callee::WordCount => None,
    }
}

fn library_parameter(call: Call, number: usize) -> Option<CType>
    ensures { result ≡ library.parameter call number }
{
    if number < call.most_arguments() as usize {
        call.parameter(number as u32)
    } else {
        None
    }
}

fn note_unless(place: Place, holds: bool, rule: u8, found: &mut Option<Violation>)
    ensures { found.new ≡ noted found.old (rule_at place (unless holds rule)) }
{
    if !holds {
        let violation = Violation {
            file: place.file,
            token: place.token,
            rule,
        };
        note(found, violation);
    }
}

fn takes(around: &Around<'_, '_>, number: u32, count: usize) -> bool
    ensures { result ≡ spec.takes (spec.function (spec.env_of around.now) number) count }
{
    match around.functions.get(number as usize) {
        Some(of) => of.params.len() == count,
        None => true,
    }
}

fn note_library_count(place: Place, call: Call, count: usize, found: &mut Option<Violation>)
    ensures { found.new ≡ noted found.old (library.count_violations place.file place.token call count) }
{
    let least = call.least_arguments() as usize;
    let takes = least <= count && count <= call.most_arguments() as usize;
    if !takes {
        let violation = Violation {
            file: place.file,
            token: place.token,
            rule: COUNT_RULE,
        };
        note(found, violation);
    }
}

fn prints(alloc: Global, exprs: &[CExpr], values: &[Option<Operand>]) -> Result<bool, NoMemory>
    ensures { IfOk result (λ fits. fits ≡ spec.prints (map word_of exprs.now) values.now) }
{
    match values {
        [] => arguments_fit(alloc, exprs, &[]),
        [_, behind @ ..] => arguments_fit(alloc, exprs, behind),
    }
}

/// Notes at the called name that it doesn't take these arguments, given with their values: rule 8
/// on their number, rule 17 for `printf`, rule 3 where `SV_PACKED_DATA_NELEMS` doesn't have one
/// number token. NoMemory where no memory was found.
pub fn note_callee(
    alloc: Global,
    around: &Around<'_, '_>,
    token: u32,
    callee: Option<Callee>,
    exprs: &[CExpr],
    values: &[Option<Operand>],
    found: &mut Option<Violation>,
) -> Result<(), NoMemory>
    ensures { IfOk result (λ _. found.new ≡ noted found.old (spec.callee_violations (spec.env_of around.now) token callee (map word_of exprs.now) values.now)) }
{
    let Some(callee) = callee else {
        return Ok(());
    };
    let place = at(around, token);
    match callee {
        Callee::Function(n) => {
            note_unless(place, takes(around, n, exprs.len()), COUNT_RULE, found);
        }
        Callee::Library(call) => note_library_count(place, call, exprs.len(), found),
        Callee::Printf => note_printf(place, prints(alloc, exprs, values)?, found),
        Callee::WordCount => note_unless(place, are_one_number(exprs), WORDS_RULE, found),
    }
    Ok(())
}

fn value_of(of: Option<CType>) -> Option<Operand>
    ensures { result ≡ spec.value_of of }
{
    match of {
        Some(of) => Some(Operand::value(bare(of))),
        None => None,
    }
}

fn result_type(around: &Around<'_, '_>, number: u32) -> Option<CType>
    ensures { result ≡ spec.result_type (spec.function (spec.env_of around.now) number) }
{
    around.functions.get(number as usize)?.result
}

/// The words of a vector, whose width is the one argument.
fn words_value(values: &[Option<Operand>]) -> Option<Operand>
    ensures { result ≡ spec.words_value values.now }
{
    match values {
        [Some(width)] => Some(Operand::value(width.of)),
        _ => None,
    }
}

/// The expression that a call with arguments of these values is, where nothing in it is violated: a
/// value of the result's type; `printf` gives an `int`, `SV_PACKED_DATA_NELEMS` a number of the
/// type of its argument. None where the type isn't known or refused.
pub fn call_value(
    around: &Around<'_, '_>,
    callee: Option<Callee>,
    values: &[Option<Operand>],
) -> Option<Operand>
    ensures { result ≡ spec.call_value (spec.env_of around.now) callee values.now }
{
    match callee? {
        Callee::Function(n) => value_of(result_type(around, n)),
        Callee::Library(call) => value_of(Some(call.result())),
        Callee::Printf => Some(Operand::value(CType::plain(CBase::Int))),
        Callee::WordCount => words_value(values),
    }
}

/// The value, where nothing was found.
pub fn unless_found(found: Option<Violation>, value: Option<Operand>) -> Option<Operand>
    ensures { (vs : List Violation) → found ≡ noted None vs → result ≡ spec.if_clean vs value }
{
    match found {
        None => value,
        Some(_) => None,
    }
}
