//! Parts of an initialiser (ISO C 6.6 and 6.7.9).
ghost use Rattle.std.specs.Prelude.{◌≡◌, map};
ghost use Rattle.c_names.specs.Scopes.{find, scopes_of};
ghost use Rattle.c_initial.specs.declared.parts.Part.{Part};
ghost use Rattle.c_initial.specs.Parts.{indexed as indexed_part};
ghost use Rattle.c_judge.specs.Calls.{env_of};
ghost use Rattle.c_judge.specs.Parts as spec;

use crate::around::Around;
use c_initial::{Part, called, grouped, indexed, prefixed};
use c_library::is_word_count;
use c_names::{Entry, Scopes, name_part};
use c_tree::{CExpr, Chain, Cond, Name, Operand, Prefix, Primary, Suffix};

fn counts_words(name: &[u8], entry: Option<Entry>) -> bool
    ensures { result ≡ spec.counts_words name.now entry }
{
    match entry {
        None => is_word_count(name),
        Some(_) => false,
    }
}

fn name_counts(scopes: &Scopes<'_>, name: &Name) -> bool
    ensures { result ≡ spec.counts_words name.now.bytes (find (scopes_of scopes.now) name.now.bytes) }
{
    let bytes = name.bytes.as_slice();
    counts_words(bytes, scopes.find(bytes))
}

fn named(scopes: &Scopes<'_>, name: &Name) -> Part
    ensures { result ≡ spec.named (find (scopes_of scopes.now)) name.now }
{
    let bytes = name.bytes.as_slice();
    name_part(bytes, scopes.find(bytes))
}

fn prefix_part(prefix: &Prefix, part: Part) -> Part
    ensures { result ≡ spec.prefix_part prefix.now part }
{
    match prefix {
        Prefix::Sign(_, operator) => prefixed(*operator, part),
        Prefix::Cast(_, _, _) => Part::Other,
    }
}

/// What prefixes make of a part, of which the last applies first.
fn prefixes_part(prefixes: &[Prefix], part: Part) -> Part
    ensures { result ≡ spec.prefixes_part prefixes.now part }
{
    let mut part = part;
    let mut left = prefixes.len();
    while left > 0 {
        left -= 1;
        part = prefix_part(&prefixes[left], part);
    }
    part
}

fn with_index(first: Part, index: Option<Part>) -> Part
    ensures { result ≡ spec.with_index first index }
{
    match index {
        None => first,
        Some(index) => indexed(first, index),
    }
}

/// What an expression is as a part of an initialiser, by its form and by what its names mean here.
/// It is so whether or not the expression holds a violation (ISO C 6.6 and 6.7.9).
pub fn part_of(around: &Around<'_, '_>, e: &CExpr) -> Part
    ensures { result ≡ spec.part (env_of around.now).names e.now }
{
    expr_part(around.scopes, e)
}

#[cycle(parts)]
fn expr_part(scopes: &Scopes<'_>, e: &CExpr) -> Part
    ensures { result ≡ spec.part (find (scopes_of scopes.now)) e.now }
{
    if !e.rest.is_empty() {
        return Part::Other;
    }
    cond_part(scopes, &e.first)
}

#[cycle(parts)]
fn cond_part(scopes: &Scopes<'_>, cond: &Cond) -> Part
    ensures { result ≡ spec.cond_part (find (scopes_of scopes.now)) cond.now }
{
    if cond.choice.is_some() {
        return Part::Other;
    }
    chain_part(scopes, &cond.chain)
}

#[cycle(parts)]
fn chain_part(scopes: &Scopes<'_>, chain: &Chain) -> Part
    ensures { result ≡ spec.chain_part (find (scopes_of scopes.now)) chain.now }
{
    if !chain.rest.is_empty() {
        return Part::Other;
    }
    operand_part(scopes, &chain.first)
}

#[cycle(parts)]
fn operand_part(scopes: &Scopes<'_>, operand: &Operand) -> Part
    ensures { result ≡ spec.operand_part (find (scopes_of scopes.now)) operand.now }
{
    let index = index_behind(scopes, operand.suffixes.as_slice());
    let first = primary_part(scopes, &operand.primary);
    prefixes_part(operand.prefixes.as_slice(), with_index(first, index))
}

#[cycle(parts)]
fn primary_part(scopes: &Scopes<'_>, primary: &Primary) -> Part
    ensures { result ≡ spec.primary_part (find (scopes_of scopes.now)) primary.now }
{
    match primary {
        Primary::Name(name) => named(scopes, name),
        Primary::Number(_) => Part::Token,
        Primary::Character(_) => Part::Number,
        Primary::Text(_) | Primary::Null(_) => Part::Fixed,
        Primary::Call(name, _, es) => {
            let counts = name_counts(scopes, name);
            call_part(scopes, counts, es.as_slice())
        }
        Primary::Group(_, e) => grouped(expr_part(scopes, e.get())),
    }
}

/// A call, by whether the macro for words is called.
#[cycle(parts)]
fn call_part(scopes: &Scopes<'_>, counts_words: bool, es: &[CExpr]) -> Part
    ensures { result ≡ spec.call_part counts_words (map (spec.part (find (scopes_of scopes.now))) es.now) }
{
    match es {
        [e] => called(counts_words, &[expr_part(scopes, e)]),
        _ => Part::Other,
    }
}

/// What stands in the index behind an operand, where suffixes do: `Other` where they are more than
/// one index, which make an `Other` of every part.
#[cycle(parts)]
fn index_behind(scopes: &Scopes<'_>, suffixes: &[Suffix]) -> Option<Part>
    ensures { (first : Part) → spec.with_index first result ≡ spec.suffixes_part (map (spec.suffix_part (find (scopes_of scopes.now))) suffixes.now) first }
{
    match suffixes {
        [] => None,
        [suffix] => Some(index_of(scopes, suffix)),
        _ => Some(Part::Other),
    }
}

/// What stands in an index; `Other` for every other suffix.
#[cycle(parts)]
fn index_of(scopes: &Scopes<'_>, suffix: &Suffix) -> Part
    ensures { (first : Part) → indexed_part first result ≡ spec.suffix_part (find (scopes_of scopes.now)) suffix.now first }
{
    match suffix {
        Suffix::Index(_, e) => expr_part(scopes, e.get()),
        Suffix::Member(_, _) | Suffix::Arrow(_, _) => Part::Other,
        Suffix::Increment(_) | Suffix::Decrement(_) => Part::Other,
    }
}
