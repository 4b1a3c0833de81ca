//! Signatures of functions, tasks and imports.
ghost use Rattle.std.specs.Prelude.{◌≡◌, IfOk};
ghost use Rattle.dpi_rules.specs.Least.{noted};
ghost use Rattle.sv_signatures.specs.Signatures as spec;
ghost use Rattle.sv_signatures.specs.Formals.{formals_of, formals_violations};
ghost use Rattle.sv_signatures.specs.Imports as imports;

use crate::formals::{Formal, formals_of};
use crate::imports::{ImportFormal, import_formals_of};
use crate::results::{Returns, import_returns, is_task, outcome_returns};
use dpi_ports::NoMemory;
use dpi_rules::Violation;
use sqlite_items::Items;
use std::alloc::Global;
use sv_tree::{Function, Import, Task};

/// The signature of a function or a task.
#[derive(Drop)]
pub struct Signature {
    /// The number of the token of its name.
    pub token: u32,
    /// Whether it is a task.
    pub is_task: bool,
    /// What a call gives.
    pub result: Returns,
    /// The formals, in order.
    pub formals: Items<Formal>,
}

/// The signature of an import.
#[derive(Drop)]
pub struct ImportSignature {
    /// The number of the token of its name.
    pub token: u32,
    /// Whether it is a task.
    pub is_task: bool,
    /// What a call gives.
    pub result: Returns,
    /// The formals, in order.
    pub formals: Items<ImportFormal>,
}

/// The formals between parentheses, or none, with what they violate noted.
fn optional_formals(
    alloc: Global,
    file: u32,
    formals: &Option<Items<sv_tree::Formal>>,
    found: &mut Option<Violation>,
) -> Result<Items<Formal>, NoMemory>
    ensures { IfOk result (λ r. (r ≡ formals_of (spec.listed formals.now)) × (found.new ≡ noted found.old (formals_violations file (spec.listed formals.now)))) }
{
    match formals {
        Some(formals) => formals_of(alloc, file, formals.as_slice(), found),
        None => formals_of(alloc, file, &[], found),
    }
}

/// The formals of an import between parentheses, or none, with what they violate noted.
fn optional_import_formals(
    alloc: Global,
    file: u32,
    formals: &Option<Items<sv_tree::ImportFormal>>,
    found: &mut Option<Violation>,
) -> Result<Items<ImportFormal>, NoMemory>
    ensures { IfOk result (λ r. (r ≡ imports.formals_of (spec.listed formals.now)) × (found.new ≡ noted found.old (imports.formals_violations file (spec.listed formals.now)))) }
{
    match formals {
        Some(formals) => import_formals_of(alloc, file, formals.as_slice(), found),
        None => import_formals_of(alloc, file, &[], found),
    }
}

/// The signature of a function, with what its type and its formals violate noted. NoMemory where no
/// memory was found.
pub fn function_signature(
    alloc: Global,
    file: u32,
    function: &Function,
    found: &mut Option<Violation>,
) -> Result<Signature, NoMemory>
    ensures { IfOk result (λ r. (r ≡ spec.function_signature function.now) × (found.new ≡ noted found.old (spec.function_violations file function.now))) }
{
    let token = function.name.token;
    let result = outcome_returns(file, token, &function.outcome, found);
    let formals = optional_formals(alloc, file, &function.formals, found)?;
    Ok(Signature {
        token,
        is_task: false,
        result,
        formals,
    })
}

/// The signature of a task, with what its formals violate noted. NoMemory where no memory was found.
pub fn task_signature(
    alloc: Global,
    file: u32,
    task: &Task,
    found: &mut Option<Violation>,
) -> Result<Signature, NoMemory>
    ensures { IfOk result (λ r. (r ≡ spec.task_signature task.now) × (found.new ≡ noted found.old (spec.task_violations file task.now))) }
{
    let formals = optional_formals(alloc, file, &task.formals, found)?;
    Ok(Signature {
        token: task.name.token,
        is_task: true,
        result: Returns::Void,
        formals,
    })
}

/// The signature of an import, with what its type and its formals violate noted. NoMemory where no
/// memory was found.
pub fn import_signature(
    alloc: Global,
    file: u32,
    import: &Import,
    found: &mut Option<Violation>,
) -> Result<ImportSignature, NoMemory>
    ensures { IfOk result (λ r. (r ≡ spec.import_signature import.now) × (found.new ≡ noted found.old (spec.import_violations file import.now))) }
{
    let token = import.name.token;
    let result = import_returns(file, token, &import.kind, found);
    let formals = optional_import_formals(alloc, file, &import.formals, found)?;
    Ok(ImportSignature {
        token,
        is_task: is_task(&import.kind),
        result,
        formals,
    })
}
