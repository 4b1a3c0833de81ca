//! From trees to a design.
ghost use Rattle.std.specs.Prelude.{◌≡◌, ◌≤◌, length, IfOk};
ghost use Rattle.dpi_rules.specs.Verdict.{IsVerdict};
ghost use Rattle.sv_check.specs.Check.{violations};

use crate::design::Design;
use crate::files::note_files;
use dpi_rules::{CheckFault, answer};
use std::alloc::Global;
use sv_tree::SvFile;

/// The design of these files, of which there are at most 1,000. The violation of a refusal is their
/// least; NoMemory where no memory was found, or a list of the design has more entries than 32 bits
/// count.
pub fn elaborate(alloc: Global, files: Vec<SvFile>) -> Result<Design, CheckFault>
    requires { length files.items ≤ 1000 }
    ensures design { IfOk result (λ d. d ≡ files.items) }
    ensures verdict { IsVerdict (violations files.items) result }
{
    let mut found = None;
    let instances = note_files(alloc, &files, &mut found)?;
    match answer((), found) {
        Err(fault) => Err(fault),
        Ok(()) => Ok(Design::new(alloc, files, instances)?),
    }
}
