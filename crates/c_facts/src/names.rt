//! What names mean.
ghost use Rattle.std.specs.Prelude.{◌≡◌, ◌++◌, OnOk, option_map};
ghost use Rattle.c_judge.specs.Calls.{env_of};
ghost use Rattle.c_walk.specs.Around.{values_of};
ghost use Rattle.c_facts.specs.Widths.{one_number};
ghost use Rattle.c_facts.specs.Facts as spec;

use crate::facts::{CFact, CMeant};
use crate::widths::words_by;
use c_judge::Around;
use c_library::{call_named, is_printf, is_word_count, scalar_named, word_count};
use c_names::{Entry, Thing};
use c_tree::{CExpr, Name, Size};
use c_typing::constant;
use c_walk::Defines;
use dpi_literal::{CConstant, NumberType};
use dpi_ports::NoMemory;

/// A number of this type.
fn number_meant(of: NumberType, value: i128) -> CMeant
    ensures { result ≡ spec.number_meant of value }
{
    CMeant::Constant {
        kind: constant(of).of,
        value,
    }
}

fn define_meant(of: NumberType, value: Option<i128>) -> Option<CMeant>
    ensures { result ≡ spec.define_meant of value }
{
    match value {
        Some(value) => Some(number_meant(of, value)),
        None => None,
    }
}

/// What a name means that declares this at this token. None of a define that isn't among those that
/// are handed in.
pub fn thing_meant(defines: &Defines, token: u32, thing: Thing) -> Option<CMeant>
    ensures { result ≡ spec.thing_meant (values_of defines.now) token thing }
{
    match thing {
        Thing::Object(_, _) => Some(CMeant::Object(token)),
        Thing::Function(_) => Some(CMeant::Function(token)),
        Thing::Number(of) => define_meant(of, defines.get(token)),
    }
}

/// One of the constants of `svdpi.h`, which are of type `int`.
fn scalar_meant(value: Option<u8>) -> Option<CMeant>
    ensures { result ≡ spec.scalar_meant value }
{
    match value {
        Some(value) => Some(number_meant(NumberType::Int, value as i128)),
        None => None,
    }
}

/// What a name means where a value stands, by its declaration there; where it has none, one of the
/// constants of `svdpi.h`.
pub fn value_meant(defines: &Defines, name: &[u8], entry: Option<Entry>) -> Option<CMeant>
    ensures { result ≡ spec.value_meant (values_of defines.now) name.now entry }
{
    match entry {
        None => scalar_meant(scalar_named(name)),
        Some(entry) => thing_meant(defines, entry.token, entry.thing),
    }
}

fn words_meant(words: Option<CConstant>) -> Option<CMeant>
    ensures { result ≡ spec.words_meant words }
{
    match words {
        Some(words) => Some(number_meant(words.of, words.value)),
        None => None,
    }
}

/// What a name means before a `(`, where nothing declares it.
fn library_meant(name: &[u8], es: &[CExpr]) -> Option<CMeant>
    ensures { result ≡ spec.library_meant name.now (one_number es.now) }
{
    if is_printf(name) || call_named(name).is_some() {
        Some(CMeant::Library)
    } else if is_word_count(name) {
        words_meant(words_by(es))
    } else {
        None
    }
}

/// What a name means before a `(`.
fn called_meant(
    defines: &Defines,
    name: &[u8],
    entry: Option<Entry>,
    es: &[CExpr],
) -> Option<CMeant>
    ensures { result ≡ spec.called_meant (values_of defines.now) name.now entry (one_number es.now) }
{
    match entry {
        None => library_meant(name, es),
        Some(entry) => thing_meant(defines, entry.token, entry.thing),
    }
}

/// Adds what the name at this token means, if it means anything. NoMemory where no memory was
/// found.
pub fn add_name(token: u32, meant: Option<CMeant>, list: &mut Vec<CFact>) -> Result<(), NoMemory>
    ensures { OnOk result (list.new.items ≡ list.old.items ++ spec.name_facts token meant) }
{
    if let Some(meant) = meant {
        list.push(CFact::Name(token, meant))?;
    }
    Ok(())
}

/// Adds what a name means where a value stands: its innermost declaration so far, or one of the
/// constants of `svdpi.h`. The defines are those of the file. NoMemory where no memory was found.
pub fn add_value_name(
    around: &Around<'_, '_>,
    defines: &Defines,
    name: &Name,
    list: &mut Vec<CFact>,
) -> Result<(), NoMemory>
    ensures { OnOk result (list.new.items ≡ list.old.items ++ spec.value_facts (env_of around.now) (values_of defines.now) name.now) }
{
    let bytes = name.bytes.as_slice();
    let entry = around.scopes.find(bytes);
    add_name(name.token, value_meant(defines, bytes, entry), list)
}

/// Adds what a called name means, by its arguments too: its innermost declaration so far, a name of
/// the library, or the words of a vector.
pub(crate) fn add_called_name(
    around: &Around<'_, '_>,
    defines: &Defines,
    name: &Name,
    es: &[CExpr],
    list: &mut Vec<CFact>,
) -> Result<(), NoMemory>
    ensures { OnOk result (list.new.items ≡ list.old.items ++ spec.called_facts (env_of around.now) (values_of defines.now) name.now es.now) }
{
    let bytes = name.bytes.as_slice();
    let entry = around.scopes.find(bytes);
    add_name(name.token, called_meant(defines, bytes, entry, es), list)
}

/// What a name means before a `(` in a size: the words of a vector of this width, or nothing.
pub fn size_words(name: &[u8], width: &[u8]) -> Option<CMeant>
    ensures { result ≡ spec.size_words name.now width.now }
{
    if is_word_count(name) {
        words_meant(Some(word_count(width)))
    } else {
        None
    }
}

/// Adds what the name in the size of an array means, if there is one and it means anything: a
/// define or a constant of `svdpi.h`, or `SV_PACKED_DATA_NELEMS` with the words of its width. The
/// defines are those of the file. NoMemory where no memory was found (ISO C 6.7.6.2).
pub fn add_size(
    around: &Around<'_, '_>,
    defines: &Defines,
    size: &Size,
    list: &mut Vec<CFact>,
) -> Result<(), NoMemory>
    ensures { OnOk result (list.new.items ≡ list.old.items ++ spec.size_facts (env_of around.now) (values_of defines.now) size.now) }
{
    match size {
        Size::Number(_) => Ok(()),
        Size::Name(name) => add_value_name(around, defines, name, list),
        Size::Call(name, _, width) => {
            let meant = size_words(name.bytes.as_slice(), width.bytes.as_slice());
            add_name(name.token, meant, list)
        }
    }
}
