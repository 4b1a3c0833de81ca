//! What the definitions of each name come to (ISO C 6.9, paragraph 5).
ghost use Rattle.std.specs.Prelude.{◌≡◌, ◌∷◌, [], ◌++◌, map, if◌then◌else◌, Some, None, IfOk, OnOk, List, ℕ};
ghost use Rattle.std.specs.Option.{option_or};
ghost use Rattle.std.specs.Str.{bytes_eq};
ghost use Rattle.c_functions.specs.Objects.{Shared, told};
ghost use Rattle.c_functions.specs.Shared as spec;

use crate::objects::Object;
use crate::same::same_type;
use crate::sizes::ObjectType;
use dpi_ports::NoMemory;
use std::alloc::Global;
use std::collections::BTreeMap;

/// The definitions of one name.
#[derive(Clone, Copy)]
pub(crate) struct Defined {
    /// The number of the first file that has one.
    file: u32,
    /// The first known type.
    of: Option<ObjectType>,
    /// Whether another one has another type than that.
    is_mixed: bool,
}

/// The definitions of each name.
#[derive(Drop)]
pub(crate) struct Definitions<'a> {
    names: BTreeMap<&'a [u8], Defined>,
}

fn same_cells(first: Option<u32>, other: Option<u32>) -> bool
    ensures { result ≡ spec.same_cells first other }
{
    match first {
        None => other.is_none(),
        Some(first) => match other {
            None => false,
            Some(other) => first == other,
        },
    }
}

fn same_object(first: ObjectType, other: ObjectType) -> bool
    ensures { result ≡ spec.same_object first other }
{
    same_type(first.of, other.of)
        && first.constant == other.constant
        && same_cells(first.cells, other.cells)
}

/// Whether both types are known, and are others.
fn differ(first: Option<ObjectType>, other: Option<ObjectType>) -> bool
    ensures { result ≡ spec.differ first other }
{
    match first {
        None => false,
        Some(first) => match other {
            None => false,
            Some(other) => !same_object(first, other),
        },
    }
}

fn either(first: Option<ObjectType>, other: Option<ObjectType>) -> Option<ObjectType>
    ensures { result ≡ option_or first other }
{
    match first {
        None => other,
        Some(first) => Some(first),
    }
}

fn with_one(before: Option<Defined>, object: Object<'_>) -> Defined
    ensures { result ≡ spec.with_one before (told object.entry) }
{
    match before {
        None => Defined {
            file: object.file,
            of: object.of,
            is_mixed: false,
        },
        Some(before) => Defined {
            file: if object.file < before.file {
                object.file
            } else {
                before.file
            },
            of: either(before.of, object.of),
            is_mixed: before.is_mixed || differ(object.of, before.of),
        },
    }
}

/// Whether an `extern` declaration has no definition, or one of another type.
fn extern_by(defined: Option<Defined>, of: Option<ObjectType>) -> bool
    ensures { result ≡ spec.extern_by defined of }
{
    match defined {
        None => true,
        Some(defined) => differ(defined.of, of) || of.is_some() && defined.is_mixed,
    }
}

/// Whether an earlier file has a definition.
fn definition_by(defined: Option<Defined>, file: u32) -> bool
    ensures { result ≡ spec.definition_by defined file }
{
    match defined {
        None => false,
        Some(defined) => defined.file < file,
    }
}

impl<'a> Definitions<'a> {
    fn new(alloc: Global) -> Definitions<'a>
        ensures { (q : List ℕ) → spec.kept_of result q ≡ None }
    {
        Definitions {
            names: BTreeMap::new(alloc),
        }
    }

    fn get(&self, name: &[u8]) -> Option<Defined>
        ensures { result ≡ spec.kept_of self.now name.now }
    {
        self.names.get(name).copied()
    }

    fn set(&mut self, name: &'a [u8], defined: Defined) -> Result<(), NoMemory>
        ensures { OnOk result ((q : List ℕ) → spec.kept_of self.new q ≡ (if bytes_eq name.now q then Some defined else spec.kept_of self.old q)) }
    {
        self.names.insert(name, defined)?;
        Ok(())
    }

    fn add(&mut self, object: Object<'a>) -> Result<(), NoMemory>
        ensures { OnOk result ((os : List Shared) → spec.Keeps self.old os → spec.Keeps self.new (os ++ told object.entry ∷ [])) }
    {
        if !object.is_extern {
            let name = object.name.bytes.as_slice();
            let defined = with_one(self.get(name), object);
            self.set(name, defined)?;
        }
        Ok(())
    }

    /// Whether the definitions break rule 24 for this object.
    pub(crate) fn breaks(&self, object: Object<'_>) -> bool
        ensures { result ≡ spec.breaks_by (spec.kept_of self.now (told object.entry).name) (told object.entry) }
    {
        let defined = self.get(object.name.bytes.as_slice());
        if object.is_extern {
            extern_by(defined, object.of)
        } else {
            definition_by(defined, object.file)
        }
    }
}

/// The definitions among these objects. NoMemory where no memory was found.
pub(crate) fn definitions_of<'a>(
    alloc: Global,
    objects: &[Object<'a>],
) -> Result<Definitions<'a>, NoMemory>
    ensures { IfOk result (λ kept. spec.Keeps kept (map told objects.now)) }
{
    let mut definitions = Definitions::new(alloc);
    for object in objects {
        definitions.add(*object)?;
    }
    Ok(definitions)
}
