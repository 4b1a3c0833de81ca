//! The scopes around a place (ISO C 6.2.1).

ghost use Rattle.std.specs.Prelude.{◌≡◌, [], ◌∷◌, ◌++◌, map, OnOk, List};
ghost use Rattle.c_names.specs.Names.{Names, names_of, added};
ghost use Rattle.c_names.specs.Scopes as spec;

use crate::entry::Entry;
use crate::scope::Scope;
use dpi_ports::NoMemory;
use std::alloc::Global;

/// The scopes around a place, the innermost last, each with the names that are declared in it so
/// far. Contracts see them as a list of functions from names to declarations, `scopes_of`.
#[derive(Drop)]
pub struct Scopes<'a> {
    stack: Vec<Scope<'a>>,
}

impl<'a> Scopes<'a> {
    /// No scopes.
    pub fn new(alloc: Global) -> Scopes<'a>
        ensures { spec.scopes_of result ≡ [] }
    {
        Scopes {
            stack: Vec::new(alloc),
        }
    }

    /// What the name declares here: its innermost declaration so far. None where no scope has it.
    pub fn find(&self, name: &[u8]) -> Option<Entry>
        ensures { result ≡ spec.find (spec.scopes_of self.now) name.now }
    {
        find_in(&self.stack, name)
    }

    /// The declaration of the name in the innermost scope so far. None where it has none.
    pub fn here(&self, name: &[u8]) -> Option<Entry>
        ensures { result ≡ spec.innermost (spec.scopes_of self.now) name.now }
    {
        here_in(&self.stack, name)
    }

    /// Declares the name in the innermost scope, unless this has it already: its first declaration
    /// counts. Nothing where there is no scope; NoMemory where no memory was found.
    pub fn declare(&mut self, name: &'a [u8], entry: Entry) -> Result<(), NoMemory>
        ensures { OnOk result ((outer : List Names) (inner : Names) → spec.scopes_of self.old ≡ outer ++ inner ∷ [] → spec.scopes_of self.new ≡ outer ++ added inner name.now entry ∷ []) }
    {
        let Some(mut scope) = self.stack.pop() else {
            return Ok(());
        };
        scope.add(name, entry)?;
        self.stack.push(scope)?;
        Ok(())
    }

    /// Enters a scope, which is the innermost one then. NoMemory where no memory was found.
    pub fn enter(&mut self, scope: Scope<'a>) -> Result<(), NoMemory>
        ensures { OnOk result (spec.scopes_of self.new ≡ spec.scopes_of self.old ++ names_of scope.entry ∷ []) }
    {
        self.stack.push(scope)?;
        Ok(())
    }

    /// Leaves the innermost scope; nothing where there is none.
    pub fn leave(&mut self)
        ensures { (outer : List Names) (inner : Names) → spec.scopes_of self.old ≡ outer ++ inner ∷ [] → spec.scopes_of self.new ≡ outer }
    {
        let _ = self.stack.pop();
    }
}

/// The innermost declaration of the name, where the outermost scope comes first.
fn find_in(stack: &[Scope<'_>], name: &[u8]) -> Option<Entry>
    ensures { result ≡ spec.find (map names_of stack.now) name.now }
{
    match stack {
        [] => None,
        [outer, inner @ ..] => match find_in(inner, name) {
            Some(entry) => Some(entry),
            None => outer.get(name),
        },
    }
}

/// The declaration of the name in the last of these scopes.
fn here_in(stack: &[Scope<'_>], name: &[u8]) -> Option<Entry>
    ensures { result ≡ spec.innermost (map names_of stack.now) name.now }
{
    match stack {
        [] => None,
        [outer, inner @ ..] => here_behind(outer, inner, name),
    }
}

/// The declaration of the name in the last of these scopes, the first of which is given apart.
fn here_behind(outer: &Scope<'_>, inner: &[Scope<'_>], name: &[u8]) -> Option<Entry>
    ensures { result ≡ spec.last_of (names_of outer.now) (map names_of inner.now) name.now }
{
    match inner {
        [] => outer.get(name),
        [scope, more @ ..] => here_behind(scope, more, name),
    }
}
