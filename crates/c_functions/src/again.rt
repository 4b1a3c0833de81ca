//! Functions that are declared again (ISO C 6.2.7, paragraph 2, and 6.9, paragraphs 3 and 5).
ghost use Rattle.std.specs.Prelude.{◌≡◌, ◌≤◌, ◌∷◌, [], length, map, filter, option_map, true, OnOk, List};
ghost use Rattle.dpi_rules.specs.Least.{noted};
ghost use Rattle.c_typing.specs.Judged.{rule_at};
ghost use Rattle.c_functions.specs.Params.{place};
ghost use Rattle.c_functions.specs.Same.{differ};
ghost use Rattle.c_functions.specs.Declarations.{Known, told};
ghost use Rattle.c_functions.specs.Again as spec;

use crate::declarations::{Declaration, declarations_of, has_body};
use crate::firsts::Firsts;
use crate::same::same_types;
use c_tree::CFile;
use dpi_ports::NoMemory;
use dpi_rules::{Violation, note};
use sqlite_items::Items;
use std::alloc::Global;

/// The rule on functions that are declared again with another type.
const TYPE_RULE: u8 = 6;
/// The rule on second bodies.
const BODY_RULE: u8 = 7;

/// What is compared of the declarations of one function.
#[derive(Clone, Copy, Debug, PartialEq, Eq)]
enum Compared {
    /// The types, of all declarations.
    Types,
    /// The bodies, of which there is only one.
    Bodies,
}

/// Whether both types are known, and are others.
fn differ(first: Declaration<'_>, other: Declaration<'_>) -> bool
    ensures { result ≡ differ (told first.entry).of (told other.entry).of }
{
    first.is_known && other.is_known && !same_types(first.function, other.function)
}

fn later_rule(
    compared: Compared,
    first: Declaration<'_>,
    declaration: Declaration<'_>,
) -> Option<u8>
    ensures { result ≡ spec.later_rule compared (told first.entry) (told declaration.entry) }
{
    match compared {
        Compared::Types => {
            if differ(first, declaration) {
                Some(TYPE_RULE)
            } else {
                None
            }
        }
        Compared::Bodies => Some(BODY_RULE),
    }
}

fn takes_part(compared: Compared, declaration: Declaration<'_>) -> bool
    ensures { result ≡ spec.takes_part compared (told declaration.entry) }
{
    match compared {
        Compared::Types => true,
        Compared::Bodies => has_body(&declaration.function.body),
    }
}

fn is_compared(compared: Compared, of_static: bool, declaration: Declaration<'_>) -> bool
    ensures { result ≡ spec.is_compared compared of_static (told declaration.entry) }
{
    let is_static = declaration.is_static;
    takes_part(compared, declaration) && if of_static { is_static } else { !is_static }
}

fn note_rule(declaration: Declaration<'_>, rule: Option<u8>, found: &mut Option<Violation>)
    ensures { found.new ≡ noted found.old (rule_at (place (told declaration.entry).file (told declaration.entry).token) rule) }
{
    if let Some(rule) = rule {
        note(
            found,
            Violation {
                file: declaration.file,
                token: declaration.function.name.token,
                rule,
            },
        );
    }
}

/// Notes what a declaration breaks, where this is the first one of its name.
fn note_later(
    compared: Compared,
    first: Option<Declaration<'_>>,
    declaration: Declaration<'_>,
    found: &mut Option<Violation>,
)
    ensures { found.new ≡ noted found.old (spec.later_violations compared (option_map told first.entry) (told declaration.entry)) }
{
    if let Some(first) = first {
        note_rule(declaration, later_rule(compared, first, declaration), found);
    }
}

fn note_next<'a>(
    compared: Compared,
    firsts: &mut Firsts<'a>,
    declaration: Declaration<'a>,
    found: &mut Option<Violation>,
) -> Result<(), NoMemory>
    ensures { OnOk result ((before : List Known) → spec.Tells firsts.old before → spec.Walks compared (told declaration.entry ∷ []) firsts.new found.old found.new before) }
{
    let name = declaration.function.name.bytes.as_slice();
    note_later(compared, firsts.get(name), declaration, found);
    firsts.add(name, declaration)?;
    Ok(())
}

fn note_compared<'a>(
    compared: Compared,
    of_static: bool,
    firsts: &mut Firsts<'a>,
    declaration: Declaration<'a>,
    found: &mut Option<Violation>,
) -> Result<(), NoMemory>
    ensures { OnOk result ((before : List Known) → spec.Tells firsts.old before → spec.Walks compared (filter (spec.is_compared compared of_static) (told declaration.entry ∷ [])) firsts.new found.old found.new before) }
{
    if is_compared(compared, of_static, declaration) {
        note_next(compared, firsts, declaration, found)?;
    }
    Ok(())
}

fn note_all<'a>(
    compared: Compared,
    of_static: bool,
    firsts: &mut Firsts<'a>,
    declarations: &[Declaration<'a>],
    found: &mut Option<Violation>,
) -> Result<(), NoMemory>
    ensures { OnOk result ((before : List Known) → spec.Tells firsts.old before → spec.Walks compared (filter (spec.is_compared compared of_static) (map told declarations.now)) firsts.new found.old found.new before) }
{
    for declaration in declarations {
        note_compared(compared, of_static, firsts, *declaration, found)?;
    }
    Ok(())
}

fn note_statics_in(
    alloc: Global,
    compared: Compared,
    declarations: &[Declaration<'_>],
    found: &mut Option<Violation>,
) -> Result<(), NoMemory>
    ensures { OnOk result (found.new ≡ noted found.old (spec.violations_behind compared [] (filter (spec.is_compared compared true) (map told declarations.now)))) }
{
    let mut firsts = Firsts::new(alloc);
    note_all(compared, true, &mut firsts, declarations, found)?;
    Ok(())
}

/// Notes what the static functions of each file break.
fn note_statics(
    alloc: Global,
    compared: Compared,
    table: &[Items<Declaration<'_>>],
    found: &mut Option<Violation>,
) -> Result<(), NoMemory>
    ensures { OnOk result (found.new ≡ noted found.old (spec.static_violations compared (map (map told) table.now))) }
{
    for declarations in table {
        note_statics_in(alloc, compared, declarations.as_slice(), found)?;
    }
    Ok(())
}

/// Notes what the functions break that all files share.
fn note_shared(
    alloc: Global,
    compared: Compared,
    table: &[Items<Declaration<'_>>],
    found: &mut Option<Violation>,
) -> Result<(), NoMemory>
    ensures { OnOk result (found.new ≡ noted found.old (spec.shared_violations compared (map (map told) table.now))) }
{
    let mut firsts = Firsts::new(alloc);
    for declarations in table {
        note_all(compared, false, &mut firsts, declarations.as_slice(), found)?;
    }
    Ok(())
}

fn note_table(
    alloc: Global,
    table: &[Items<Declaration<'_>>],
    found: &mut Option<Violation>,
) -> Result<(), NoMemory>
    ensures { OnOk result (found.new ≡ noted found.old (spec.known_violations (map (map told) table.now))) }
{
    note_shared(alloc, Compared::Types, table, found)?;
    note_shared(alloc, Compared::Bodies, table, found)?;
    note_statics(alloc, Compared::Types, table, found)?;
    note_statics(alloc, Compared::Bodies, table, found)?;
    Ok(())
}

/// Notes what the files' functions violate that are declared more than once: rule 6 at the name of
/// each declaration whose type isn't that of the first one, where no part of either type is refused;
/// rule 7 at the name of each body behind the first. A function of which one declaration in a file is
/// `static` is that file's own; all others are shared by all files (ISO C 6.2.2). There are at most
/// 1,000 files. NoMemory where no memory was found.
pub fn note_functions(
    alloc: Global,
    files: &[CFile],
    found: &mut Option<Violation>,
) -> Result<(), NoMemory>
    requires { length files.now ≤ 1000 }
    ensures { OnOk result (found.new ≡ noted found.old (spec.function_violations files.now)) }
{
    let table = declarations_of(alloc, files)?;
    note_table(alloc, table.as_slice(), found)?;
    Ok(())
}
