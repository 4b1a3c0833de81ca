//! The bodies of C functions, by name (ISO C 6.2.2 and 6.9).
ghost use Rattle.std.specs.Prelude.{◌≡◌, None, true, map, option_map, IfOk, OnOk, ℕ, List};
ghost use Rattle.std.specs.Option.{option_or};
ghost use Rattle.c_functions.specs.Declarations.{has_body, told};
ghost use Rattle.c_functions.specs.Again.{added};
ghost use Rattle.dpi_links.specs.Functions as spec;

use c_functions::Declaration;
use c_tree::Body;
use dpi_ports::NoMemory;
use sqlite_items::Items;
use std::alloc::Global;
use std::collections::BTreeMap;

/// Bodies of functions by their names: the first body of a name counts.
#[derive(Drop)]
pub struct Bodies<'a> {
    names: BTreeMap<&'a [u8], Declaration<'a>>,
}

fn has_body(body: &Body) -> bool
    ensures { result ≡ has_body body.now }
{
    matches!(body, Body::Block(_))
}

/// Whether this is a body, of a static function or of one that all files share.
fn is_body(of_static: bool, declaration: Declaration<'_>) -> bool
    ensures { result ≡ spec.is_body of_static (told declaration.entry) }
{
    let is_static = declaration.is_static;
    has_body(&declaration.function.body) && if of_static { is_static } else { !is_static }
}

impl<'a> Bodies<'a> {
    fn new(alloc: Global) -> Bodies<'a>
        ensures { (q : List ℕ) → spec.bodies_of result q ≡ None }
    {
        Bodies {
            names: BTreeMap::new(alloc),
        }
    }

    /// The body of the function of this name; None where it has none.
    pub fn get(&self, name: &[u8]) -> Option<Declaration<'a>>
        ensures { option_map told result ≡ spec.bodies_of self.now name.now }
    {
        self.names.get(name).copied()
    }

    fn add(&mut self, name: &'a [u8], body: Declaration<'a>) -> Result<(), NoMemory>
        ensures { OnOk result ((q : List ℕ) → spec.bodies_of self.new q ≡ added (spec.bodies_of self.old) name.now (told body.entry) q) }
    {
        if self.names.get(name).is_none() {
            self.names.insert(name, body)?;
        }
        Ok(())
    }

    fn add_body(&mut self, of_static: bool, declaration: Declaration<'a>) -> Result<(), NoMemory>
        ensures { OnOk result ((q : List ℕ) → spec.bodies_of self.new q ≡ option_or (spec.bodies_of self.old q) (spec.given of_static (told declaration.entry) q)) }
    {
        if is_body(of_static, declaration) {
            self.add(declaration.function.name.bytes.as_slice(), declaration)?;
        }
        Ok(())
    }

    fn add_bodies(
        &mut self,
        of_static: bool,
        declarations: &[Declaration<'a>],
    ) -> Result<(), NoMemory>
        ensures { OnOk result ((q : List ℕ) → spec.bodies_of self.new q ≡ option_or (spec.bodies_of self.old q) (spec.first_body of_static (map told declarations.now) q)) }
    {
        for declaration in declarations {
            self.add_body(of_static, *declaration)?;
        }
        Ok(())
    }
}

/// The bodies of a file's static functions. NoMemory where no memory was found.
pub(crate) fn static_bodies<'a>(
    alloc: Global,
    declarations: &[Declaration<'a>],
) -> Result<Bodies<'a>, NoMemory>
    ensures { IfOk result (λ b. (q : List ℕ) → spec.bodies_of b q ≡ spec.first_body true (map told declarations.now) q) }
{
    let mut bodies = Bodies::new(alloc);
    bodies.add_bodies(true, declarations)?;
    Ok(bodies)
}

/// The bodies of the functions that all files share. NoMemory where no memory was found.
pub fn shared_bodies<'a>(
    alloc: Global,
    table: &[Items<Declaration<'a>>],
) -> Result<Bodies<'a>, NoMemory>
    ensures { IfOk result (λ b. (q : List ℕ) → spec.bodies_of b q ≡ spec.shared_body (map (map told) table.now) q) }
{
    let mut bodies = Bodies::new(alloc);
    for declarations in table {
        bodies.add_bodies(false, declarations.as_slice())?;
    }
    Ok(bodies)
}
