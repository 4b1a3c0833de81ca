//! The types that declarations and casts write (ISO C 6.7.2, 6.7.3 and 6.7.6.1).
ghost use Rattle.std.specs.Prelude.{◌≡◌};
ghost use Rattle.dpi_rules.specs.Least.{noted};
ghost use Rattle.c_typing.specs.Judged.{rule_at};
ghost use Rattle.c_typing.specs.Written as spec;

use crate::place::{Place, note_rule, unless};
use crate::pointers::{is_base, pointer_to};
use c_base::{CBase, CType};
use c_tree::{BaseWord, CType as TypeTree, Star};
use dpi_rules::Violation;

/// What a type with its stars declares.
#[derive(Clone, Copy, Debug, PartialEq, Eq)]
pub struct Declared {
    /// The type.
    pub of: CType,
    /// Whether what is declared is const itself: by the const of the base, where there is no star,
    /// else by that of the last star.
    pub constant: bool,
}

fn word_base(word: BaseWord) -> CBase
    ensures { result ≡ spec.word_base word }
{
    match word {
        BaseWord::Void => CBase::Void,
        BaseWord::Char | BaseWord::Int8 => CBase::Char,
        BaseWord::Short | BaseWord::Int16 => CBase::Short,
        BaseWord::Int | BaseWord::Signed | BaseWord::Int32 => CBase::Int,
        BaseWord::Long | BaseWord::Int64 => CBase::LongLong,
        BaseWord::Unsigned | BaseWord::SvBitVecVal | BaseWord::Uint32 => CBase::UnsignedInt,
        BaseWord::SvBit | BaseWord::SvLogic | BaseWord::Uint8 => CBase::UnsignedChar,
        BaseWord::SvLogicVecVal => CBase::LogicVec,
        BaseWord::SvOpenArrayHandle => CBase::Handle,
        BaseWord::SvScope => CBase::Scope,
        BaseWord::Uint16 => CBase::UnsignedShort,
        BaseWord::Uint64 => CBase::UnsignedLongLong,
    }
}

fn unsigned(base: CBase) -> CBase
    ensures { result ≡ spec.unsigned base }
{
    match base {
        CBase::Char => CBase::UnsignedChar,
        CBase::Short => CBase::UnsignedShort,
        CBase::Int => CBase::UnsignedInt,
        CBase::LongLong => CBase::UnsignedLongLong,
        other => other,
    }
}

/// The base of words without a sign.
fn sized(words: &[BaseWord]) -> CBase
    ensures { result ≡ spec.sized words.now }
{
    match words {
        [] => CBase::Int,
        [word, ..] => word_base(*word),
    }
}

/// A base by its words: `signed` and `unsigned` alone are an `int`, and `int` adds nothing to a
/// size. Named types stand for whole types, a pair or an opaque type (ISO C 6.7.2; H.10).
pub fn base_of(words: &[BaseWord]) -> CBase
    ensures { result ≡ spec.base_of words.now }
{
    match words {
        [BaseWord::Unsigned, more @ ..] => unsigned(sized(more)),
        [BaseWord::Signed, more @ ..] => sized(more),
        _ => sized(words),
    }
}

fn is_const_base(tree: &TypeTree) -> bool
    ensures { result ≡ spec.is_const_base tree.now }
{
    !tree.before.is_empty() || !tree.behind.is_empty()
}

fn is_const_star(star: &Star) -> bool
    ensures { result ≡ spec.is_const_star star.now }
{
    !star.constants.is_empty()
}

fn declared_by(base: CBase, base_const: bool, stars: &[Star]) -> Option<Declared>
    ensures { result ≡ spec.declared_by base base_const stars.now }
{
    let (count, inner_const, constant) = match stars {
        [] => (0, false, base_const),
        [star] => (1, false, is_const_star(star)),
        [inner, outer] => (2, is_const_star(inner), is_const_star(outer)),
        _ => return None,
    };
    Some(Declared {
        of: CType {
            base,
            base_const,
            stars: count,
            inner_const,
        },
        constant,
    })
}

/// What a type with these stars declares, or None where there are more than two
/// (ISO C 6.7.6.1). An array's cells are declared so.
pub fn declared_of(tree: &TypeTree, stars: &[Star]) -> Option<Declared>
    ensures { result ≡ spec.declared_of tree.now stars.now }
{
    declared_by(base_of(tree.base.as_slice()), is_const_base(tree), stars)
}

/// Notes rule 22 at the place, a name or the first token of a type without one: more than two
/// stars, or an array whose cells have two.
pub fn note_stars(place: Place, stars: &[Star], is_array: bool, found: &mut Option<Violation>)
    ensures { found.new ≡ noted found.old (rule_at place (spec.star_rule stars.now is_array)) }
{
    let most = if is_array { 1 } else { 2 };
    note_rule(place, unless(stars.len() <= most, 22), found);
}

/// What a parameter is: a pointer to the first cell, where it is written as an array
/// (ISO C 6.7.6.3). None where the cells have two stars.
pub fn adjusted(is_array: bool, declared: Declared) -> Option<Declared>
    ensures { result ≡ spec.adjusted is_array declared }
{
    if !is_array {
        return Some(declared);
    }
    if declared.of.stars > 1 {
        return None;
    }
    Some(Declared {
        of: pointer_to(declared.of, declared.constant),
        constant: false,
    })
}

/// Notes rule 5 at a name: an object, the cells of an array, or a parameter of type `void`.
pub fn note_void(place: Place, of: CType, found: &mut Option<Violation>)
    ensures { found.new ≡ noted found.old (rule_at place (spec.void_rule of)) }
{
    note_rule(place, unless(!is_base(CBase::Void, of), 5), found);
}

/// The cells of an array of that size, or None where the size isn't from 1 to 65,536.
pub fn cells_of(size: i128) -> Option<u32>
    ensures { result ≡ spec.cells_of size }
{
    if 1 <= size && size <= 65_536 {
        Some(size as u32)
    } else {
        None
    }
}

/// Notes rule 4 at a size of an array that isn't from 1 to 65,536.
pub fn note_size(place: Place, size: i128, found: &mut Option<Violation>)
    ensures { found.new ≡ noted found.old (rule_at place (spec.size_rule size)) }
{
    note_rule(place, unless(cells_of(size).is_some(), 4), found);
}
