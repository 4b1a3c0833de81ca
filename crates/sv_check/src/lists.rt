//! The lists and tables of a design that are made of others.
ghost use Rattle.std.specs.Prelude.{◌≡◌, ◌≤◌, [], length, take, IfOk};
ghost use Rattle.sv_instances.specs.Modules.{modules_in};
ghost use Rattle.sv_design.specs.Items.{declarations_in};
ghost use Rattle.sv_design.specs.Subroutines.{subroutines_in};
ghost use Rattle.sv_design.specs.Imports.{imports_in};
ghost use Rattle.sv_design.specs.Places.{blocks_in};
ghost use Rattle.sv_lookup.specs.Meanings.{meanings_of, lookup_types};
ghost use Rattle.sv_scopes.specs.Instances as listing;
ghost use Rattle.sv_scopes.specs.Scopes.{scopes_in};
ghost use Rattle.sv_scopes.specs.Variables.{variables_in};
ghost use Rattle.sv_check.specs.Check.{violations};
ghost use Rattle.sv_check.specs.Facts.{meanings_in, types_in};

use crate::facts::facts_of;
use dpi_numbered::Numbered;
use dpi_ports::NoMemory;
use std::alloc::Global;
use sv_design::{Declaration, Import, Place, Subroutine};
use sv_instances::Instance;
use sv_lookup::Lookup;
use sv_scopes::{Scope, Variable, homes_of, scopes_of, variables_of};
use sv_tree::SvFile;

/// The scopes of files that break no rule, by their instances. NoMemory where no memory was found.
pub(crate) fn listed_scopes(
    alloc: Global,
    files: &[SvFile],
    instances: &[Instance],
) -> Result<Numbered<Scope>, NoMemory>
    requires few { length files.now ≤ 1000 }
    requires clean { violations files.now ≡ [] }
    requires listed { instances.now ≡ take 1001 (listing.instances 1001 (modules_in files.now)) }
    ensures { IfOk result (λ list. list ≡ scopes_in files.now) }
{
    let homes = homes_of(alloc, files)?;
    let scopes = scopes_of(alloc, &homes, instances)?;
    let list = Numbered::new(scopes)?;
    Ok(list)
}

/// The variables of files with these declarations and scopes. NoMemory where no memory was found.
pub(crate) fn listed_variables(
    alloc: Global,
    files: &[SvFile],
    declarations: &[Declaration],
    scopes: &[Scope],
) -> Result<Numbered<Variable>, NoMemory>
    requires few { length files.now ≤ 1000 }
    requires declarations { declarations.now ≡ declarations_in files.now }
    requires scopes { scopes.now ≡ scopes_in files.now }
    ensures { IfOk result (λ list. list ≡ variables_in files.now) }
{
    let variables = variables_of(alloc, files, declarations, scopes)?;
    let list = Numbered::new(variables)?;
    Ok(list)
}

/// What names mean in files with these lists, and the types of expressions. NoMemory where no memory
/// was found.
pub(crate) fn lookup_of(
    alloc: Global,
    files: &[SvFile],
    declarations: &[Declaration],
    subroutines: &[Subroutine],
    imports: &[Import],
    blocks: &[Place],
) -> Result<Lookup, NoMemory>
    requires few { length files.now ≤ 1000 }
    requires declarations { declarations.now ≡ declarations_in files.now }
    requires subroutines { subroutines.now ≡ subroutines_in files.now }
    requires imports { imports.now ≡ imports_in files.now }
    requires blocks { blocks.now ≡ blocks_in files.now }
    ensures meanings { IfOk result (λ l. meanings_of l ≡ meanings_in files.now) }
    ensures types { IfOk result (λ l. lookup_types l ≡ types_in files.now) }
{
    let facts = facts_of(alloc, files)?;
    let lookup = Lookup::of(alloc, &facts, declarations, subroutines, imports, blocks)?;
    Ok(lookup)
}
