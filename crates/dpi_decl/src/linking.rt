//! From a design and a program to linked files.
ghost use Rattle.std.specs.Prelude.{◌≡◌, None, IfOk};
ghost use Rattle.dpi_rules.specs.Least.{noted};
ghost use Rattle.dpi_links.specs.Link.{sv_violations, c_violations};
ghost use Rattle.dpi_decl.specs.Verdict.{IsLinkVerdict};

use crate::fault::LinkFault;
use crate::linked::Linked;
use c_check::CProgram;
use dpi_links::{check_c, check_sv};
use dpi_ports::NoMemory;
use dpi_rules::Violation;
use std::alloc::Global;
use sv_check::Design;

/// The least violation of the rules of linking in the files of the design.
fn found_in_sv(
    alloc: Global,
    design: &Design,
    program: &CProgram,
) -> Result<Option<Violation>, NoMemory>
    ensures { IfOk result (λ v. v ≡ noted None (sv_violations design.now program.now)) }
{
    let found = check_sv(alloc, design.files(), program.files())?;
    Ok(found)
}

/// The least violation of the rules of linking in the files of the program.
fn found_in_c(
    alloc: Global,
    design: &Design,
    program: &CProgram,
) -> Result<Option<Violation>, NoMemory>
    ensures { IfOk result (λ v. v ≡ noted None (c_violations design.now program.now)) }
{
    let found = check_c(alloc, design.files(), program.files())?;
    Ok(found)
}

/// Refuses the least violation in the files of the design, or else in those of the program.
fn judge(alloc: Global, design: &Design, program: &CProgram) -> Result<(), LinkFault>
    ensures { IsLinkVerdict (sv_violations design.now program.now) (c_violations design.now program.now) result }
{
    let in_sv = found_in_sv(alloc, design, program)?;
    let in_c = found_in_c(alloc, design, program)?;
    match (in_sv, in_c) {
        (Some(violation), _) => Err(LinkFault::Sv(violation)),
        (None, Some(violation)) => Err(LinkFault::C(violation)),
        (None, None) => Ok(()),
    }
}

/// The design and the program linked (IEEE 1800-2017, 35.4 to 35.9). `Sv` has the least violation in
/// the files of the design; `C`, where those have none, the least in the files of the program;
/// NoMemory where no memory was found, or a module's exports are more than 32 bits count.
pub fn link(alloc: Global, design: Design, program: CProgram) -> Result<Linked, LinkFault>
    ensures linked { IfOk result (λ l. l ≡ record { svs = design; cs = program }) }
    ensures verdict { IsLinkVerdict (sv_violations design program) (c_violations design program) result }
{
    match judge(alloc, &design, &program) {
        Err(fault) => Err(fault),
        Ok(()) => Ok(Linked::new(alloc, design, program)?),
    }
}
