//! `case` statements (IEEE 1800-2017, 12.5).
ghost use Rattle.std.specs.Prelude.{◌≡◌, flat_map};
ghost use Rattle.std.specs.List.{list_all};
ghost use Rattle.dpi_rules.specs.Least.{noted};
ghost use Rattle.sv_contexts.specs.Cases as spec;

use dpi_rules::{Violation, note};
use sv_typing::{Operand, note_reached};

/// The rule on `case`.
const CASE_RULE: u8 = 25;

fn is_packed_item(item: Option<Operand>) -> bool
    ensures { result ≡ spec.is_packed_item item }
{
    match item {
        None => true,
        Some(item) => item.of.is_packed(),
    }
}

fn is_text_item(item: Option<Operand>) -> bool
    ensures { result ≡ spec.is_text_item item }
{
    match item {
        None => true,
        Some(item) => item.of.is_text(),
    }
}

fn item_width(item: Option<Operand>) -> u32
    ensures { result ≡ spec.item_width item }
{
    match item {
        None => 0,
        Some(item) => item.of.width(),
    }
}

/// The width of the widest.
fn widest(values: &[Option<Operand>]) -> u32
    ensures { result ≡ spec.widest values.now }
{
    let mut width = 0;
    for value in values {
        width = item_width(*value).max(width);
    }
    width
}

/// Notes what a context of so many bits comes to in one of them.
fn note_item(width: u32, item: Option<Operand>, found: &mut Option<Violation>)
    ensures { found.new ≡ noted found.old (spec.item_reached width item) }
{
    if let Some(item) = item {
        note_reached(width, item.reach, found);
    }
}

/// Notes what a context of so many bits comes to in all of them.
fn note_items(width: u32, values: &[Option<Operand>], found: &mut Option<Violation>)
    ensures { found.new ≡ noted found.old (flat_map (spec.item_reached width) values.now) }
{
    for value in values {
        note_item(width, *value, found);
    }
}

fn are_packed(values: &[Option<Operand>]) -> bool
    ensures { result ≡ list_all spec.is_packed_item values.now }
{
    values.iter().all(|value| is_packed_item(*value))
}

fn are_texts(values: &[Option<Operand>]) -> bool
    ensures { result ≡ list_all spec.is_text_item values.now }
{
    values.iter().all(|value| is_text_item(*value))
}

/// Notes what a `case` violates: its expression and its items are given in any order, and those
/// without a type are passed over. Where all are packed, the widest is a context of all, and rule 16
/// is noted at the first arithmetic that a width past 64 bits reaches. Where they are neither all
/// packed nor all strings, rule 25 is noted at the keyword.
pub fn note_case(file: u32, token: u32, values: &[Option<Operand>], found: &mut Option<Violation>)
    ensures { found.new ≡ noted found.old (spec.case_violations file token values.now) }
{
    if are_packed(values) {
        note_items(widest(values), values, found);
    } else if !are_texts(values) {
        let violation = Violation {
            file,
            token,
            rule: CASE_RULE,
        };
        note(found, violation);
    }
}
