//! The scopes around a place.

ghost use Rattle.std.specs.Prelude.{◌≡◌, [], ◌∷◌, ◌++◌, map, OnOk, List};
ghost use Rattle.sv_names.specs.Names.{Names, names_of};
ghost use Rattle.sv_names.specs.Scopes as spec;

use crate::entry::{Entry, Thing};
use crate::scope::Scope;
use dpi_ports::NoMemory;
use std::alloc::Global;

/// The scopes around a place, the innermost last. Contracts see them as a list of functions from
/// names to declarations, `scopes_of`.
#[derive(Drop)]
pub struct Scopes<'a> {
    stack: Vec<Scope<'a>>,
}

impl<'a> Scopes<'a> {
    /// No scopes.
    pub fn new(alloc: Global) -> Scopes<'a>
        ensures { spec.scopes_of result ≡ [] }
    {
        Scopes {
            stack: Vec::new(alloc),
        }
    }

    /// What the name declares where a value stands: its innermost declaration. None where no scope
    /// has the name.
    pub fn find(&self, name: &[u8]) -> Option<Entry>
        ensures { result ≡ spec.find (spec.scopes_of self.now) name.now }
    {
        find_in(&self.stack, name)
    }

    /// What the name declares in a call or in `disable`: its innermost declaration that isn't the
    /// result of a function. None where no scope has one.
    pub fn find_called(&self, name: &[u8]) -> Option<Entry>
        ensures { result ≡ spec.find_called (spec.scopes_of self.now) name.now }
    {
        find_called_in(&self.stack, name)
    }

    /// Enters a scope, which is the innermost one then. NoMemory where no memory was found.
    pub fn enter(&mut self, scope: Scope<'a>) -> Result<(), NoMemory>
        ensures { OnOk result (spec.scopes_of self.new ≡ spec.scopes_of self.old ++ names_of scope.entry ∷ []) }
    {
        self.stack.push(scope)?;
        Ok(())
    }

    /// Leaves the innermost scope; nothing where there is none.
    pub fn leave(&mut self)
        ensures { (outer : List Names) (inner : Names) → spec.scopes_of self.old ≡ outer ++ inner ∷ [] → spec.scopes_of self.new ≡ outer }
    {
        let _ = self.stack.pop();
    }
}

/// The innermost declaration of the name, where the outermost scope comes first.
fn find_in(stack: &[Scope<'_>], name: &[u8]) -> Option<Entry>
    ensures { result ≡ spec.find (map names_of stack.now) name.now }
{
    match stack {
        [] => None,
        [outer, inner @ ..] => match find_in(inner, name) {
            Some(entry) => Some(entry),
            None => outer.get(name),
        },
    }
}

/// The declaration, if it isn't a result.
fn not_result(entry: Option<Entry>) -> Option<Entry>
    ensures { result ≡ spec.not_result entry }
{
    match entry {
        Some(
            Entry {
                thing: Thing::Result(_),
                ..
            },
        ) => None,
        other => other,
    }
}

/// The innermost declaration of the name that isn't a result.
fn find_called_in(stack: &[Scope<'_>], name: &[u8]) -> Option<Entry>
    ensures { result ≡ spec.find_called (map names_of stack.now) name.now }
{
    match stack {
        [] => None,
        [outer, inner @ ..] => match find_called_in(inner, name) {
            Some(entry) => Some(entry),
            None => not_result(outer.get(name)),
        },
    }
}
