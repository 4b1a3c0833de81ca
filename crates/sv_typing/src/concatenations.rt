//! Concatenations, repetitions, `$signed` and `$unsigned` (IEEE 1800-2017, 11.4.12 and 11.7).
ghost use Rattle.std.specs.Prelude.{◌≡◌, IfOk};
ghost use Rattle.std.specs.List.{list_all, list_any};
ghost use Rattle.dpi_rules.specs.Least.{noted};
ghost use Rattle.sv_typing.specs.Concatenations as spec;
ghost use Rattle.sv_typing.specs.Judged.{wrong};

use crate::judged::kind_broken;
use crate::types::{ExprType, Operand};
use dpi_literal::sv_known;
use dpi_ports::NoMemory;
use dpi_rules::{Violation, note};
use dpi_shape::MOST_WIDTH;
use std::alloc::Global;

/// The rule on concatenations.
const JOINT_RULE: u8 = 19;

/// A part of a concatenation.
#[derive(Clone, Copy, Debug, PartialEq, Eq, Drop)]
pub struct Joint {
    /// What it is; None where it holds a violation.
    pub operand: Option<Operand>,
    /// Whether it is one number token without a size, and nothing else; a fill is one.
    pub bare: bool,
}

fn is_packed(operand: Option<Operand>) -> bool
    ensures { result ≡ spec.is_packed_joint operand }
{
    match operand {
        None => false,
        Some(operand) => operand.of.is_packed(),
    }
}

fn is_four(operand: Option<Operand>) -> bool
    ensures { result ≡ spec.is_four_joint operand }
{
    match operand {
        None => false,
        Some(operand) => operand.of.is_four(),
    }
}

fn width(operand: Option<Operand>) -> u32
    ensures { result ≡ spec.joint_width operand }
{
    match operand {
        None => 0,
        Some(operand) => operand.of.width(),
    }
}

fn are_typed(parts: &[Joint]) -> bool
    ensures { result ≡ list_all spec.is_typed parts.now }
{
    parts.iter().all(|part| part.operand.is_some())
}

fn are_packed(parts: &[Joint]) -> bool
    ensures { result ≡ list_all (λ p. spec.is_packed_joint p.operand) parts.now }
{
    parts.iter().all(|part| is_packed(part.operand))
}

fn are_four(parts: &[Joint]) -> bool
    ensures { result ≡ list_any (λ p. spec.is_four_joint p.operand) parts.now }
{
    parts.iter().any(|part| is_four(part.operand))
}

fn are_bare(parts: &[Joint]) -> bool
    ensures { result ≡ list_any (λ p. p.bare) parts.now }
{
    parts.iter().any(|part| part.bare)
}

/// The bits of all parts together, where an element may have so many.
fn narrow_width(parts: &[Joint]) -> Option<u32>
    ensures { result ≡ spec.narrow (spec.total_width parts.now) }
{
    let mut total = 0;
    for part in parts {
        total += u64::from(width(part.operand));
        if total > MOST_WIDTH {
            return None;
        }
    }
    Some(total as u32)
}

fn narrow(width: u64) -> Option<u32>
    ensures { result ≡ spec.narrow width }
{
    if width <= MOST_WIDTH {
        Some(width as u32)
    } else {
        None
    }
}

fn times(count: Option<u32>, width: Option<u32>) -> Option<u32>
    ensures { result ≡ spec.times count width }
{
    let count = count?;
    let width = width?;
    narrow(u64::from(count) * u64::from(width))
}

/// Notes rule 19 at the `{`.
fn refuse(file: u32, token: u32, found: &mut Option<Violation>) -> Option<Operand>
    ensures value { result ≡ (wrong (spec.joint_broken file token)).value }
    ensures found { found.new ≡ noted found.old (wrong (spec.joint_broken file token)).found }
{
    let violation = Violation {
        file,
        token,
        rule: JOINT_RULE,
    };
    note(found, violation);
    None
}

/// Unsigned bits, where there are so many.
fn jointed(
    file: u32,
    token: u32,
    four: bool,
    width: Option<u32>,
    found: &mut Option<Violation>,
) -> Option<Operand>
    ensures value { result ≡ (spec.jointed file token four width).value }
    ensures found { found.new ≡ noted found.old (spec.jointed file token four width).found }
{
    match width {
        None => refuse(file, token, found),
        Some(width) => Some(Operand {
            of: ExprType::Bits {
                width,
                signed: false,
                four,
            },
            reach: None,
        }),
    }
}

/// Packed parts, so many times.
fn joined_by(
    file: u32,
    token: u32,
    count: Option<u32>,
    parts: &[Joint],
    found: &mut Option<Violation>,
) -> Option<Operand>
    ensures value { result ≡ (spec.joined_by file token count parts.now).value }
    ensures found { found.new ≡ noted found.old (spec.joined_by file token count parts.now).found }
{
    if are_bare(parts) {
        return refuse(file, token, found);
    }
    let width = times(count, narrow_width(parts));
    jointed(file, token, are_four(parts), width, found)
}

/// What a repetition is, by the token of its first `{`: its parts, so many times, as unsigned bits. The
/// parts stand alone. Where each part has a type, it is noted at the `{`: rule 15 where a part isn't
/// packed, else rule 19 where a part is a number without a size, the count is None (see
/// `repeat_count`), or it has more than 1,024 bits. None where a part has no type or a rule is broken.
pub fn repeated(
    file: u32,
    token: u32,
    count: Option<u32>,
    parts: &[Joint],
    found: &mut Option<Violation>,
) -> Option<Operand>
    ensures value { result ≡ (spec.repeated file token count parts.now).value }
    ensures found { found.new ≡ noted found.old (spec.repeated file token count parts.now).found }
{
    if !are_typed(parts) {
        None
    } else if are_packed(parts) {
        joined_by(file, token, count, parts, found)
    } else {
        note(found, kind_broken(file, token));
        None
    }
}

/// What a concatenation is, by the token of its `{`: as a repetition that has its parts once.
pub fn concatenated(
    file: u32,
    token: u32,
    parts: &[Joint],
    found: &mut Option<Violation>,
) -> Option<Operand>
    ensures value { result ≡ (spec.concatenated file token parts.now).value }
    ensures found { found.new ≡ noted found.old (spec.concatenated file token parts.now).found }
{
    repeated(file, token, Some(1), parts, found)
}

fn count_by(number: Option<i64>) -> Option<u32>
    ensures { result ≡ spec.count_by number }
{
    match number {
        Some(n) if n > 0 && n <= MOST_WIDTH as i64 => Some(n as u32),
        _ => None,
    }
}

/// How often a repetition has its parts, by the bytes of its number. None where that isn't a known
/// number from 1 up, and where it is more than 1,024, with which any part is too wide.
pub fn repeat_count(alloc: Global, bytes: &[u8]) -> Result<Option<u32>, NoMemory>
    ensures { IfOk result (λ count. count ≡ spec.count_of bytes.now) }
{
    Ok(count_by(sv_known(alloc, bytes)?))
}

/// What `$signed` (`signed`) or `$unsigned` is of what stands in its parentheses, which stands alone:
/// as many bits. Rule 15 is noted at the word where it isn't packed. None then, and where it has no
/// type.
pub fn cast(
    file: u32,
    token: u32,
    signed: bool,
    operand: Option<Operand>,
    found: &mut Option<Violation>,
) -> Option<Operand>
    ensures value { result ≡ (spec.cast file token signed operand).value }
    ensures found { found.new ≡ noted found.old (spec.cast file token signed operand).found }
{
    let operand = operand?;
    match operand.of {
        ExprType::Bits { width, four, .. } => Some(Operand {
            of: ExprType::Bits {
                width,
                signed,
                four,
            },
            reach: None,
        }),
        _ => {
            note(found, kind_broken(file, token));
            None
        }
    }
}
