//! Tables of facts.

ghost use Rattle.std.specs.Prelude.{◌≡◌, ◌≤◌, IfOk, OnOk, length, map};
ghost use Rattle.std.specs.Vec.{vec_items};
ghost use Rattle.dpi_table.specs.Firsts.{with_file_values};
ghost use Rattle.c_lookup.specs.Facts as spec;

use c_base::CType;
use c_facts::{CFact, CMeant};
use dpi_ports::NoMemory;
use dpi_table::Tables;
use std::alloc::Global;

/// What facts say of the tokens of files.
#[derive(Drop)]
pub(crate) struct Told {
    /// What names mean.
    pub(crate) names: Tables<CMeant>,
    /// The types of expressions.
    pub(crate) types: Tables<CType>,
}

/// Adds a fact of a file.
fn add_fact(alloc: Global, file: u32, fact: &CFact, told: &mut Told) -> Result<(), NoMemory>
    ensures names { OnOk result (spec.names_of told.new ≡ with_file_values (spec.names_of told.old) file (spec.name_told fact.now)) }
    ensures types { OnOk result (spec.types_of told.new ≡ with_file_values (spec.types_of told.old) file (spec.type_told fact.now)) }
{
    match fact {
        CFact::Name(token, meant) => told.names.put(alloc, file, *token, *meant),
        CFact::Type(token, kind) => told.types.put(alloc, file, *token, *kind),
    }
}

/// Adds the facts of a file.
fn add_facts(alloc: Global, file: u32, facts: &[CFact], told: &mut Told) -> Result<(), NoMemory>
    ensures names { OnOk result (spec.names_of told.new ≡ with_file_values (spec.names_of told.old) file (spec.names_told facts.now)) }
    ensures types { OnOk result (spec.types_of told.new ≡ with_file_values (spec.types_of told.old) file (spec.types_told facts.now)) }
{
    for fact in facts {
        add_fact(alloc, file, fact, told)?;
    }
    Ok(())
}

/// What the facts of each file say. There are at most 1,000 files. NoMemory where no memory was
/// found.
pub(crate) fn told_of(alloc: Global, files: &[Vec<CFact>]) -> Result<Told, NoMemory>
    requires { length files.now ≤ 1000 }
    ensures names { IfOk result (λ told. spec.names_of told ≡ spec.names_in (map vec_items files.now)) }
    ensures types { IfOk result (λ told. spec.types_of told ≡ spec.types_in (map vec_items files.now)) }
{
    let mut told = Told {
        names: Tables::new(alloc),
        types: Tables::new(alloc),
    };
    for (file, facts) in files.iter().enumerate() {
        add_facts(alloc, file as u32, facts, &mut told)?;
    }
    Ok(told)
}
