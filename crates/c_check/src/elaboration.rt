//! From trees to a program.
ghost use Rattle.std.specs.Prelude.{◌≡◌, ◌≤◌, length, IfOk};
ghost use Rattle.dpi_rules.specs.Verdict.{IsVerdict};
ghost use Rattle.c_check.specs.Check.{violations};

use crate::files::check;
use crate::programs::CProgram;
use c_tree::CFile;
use dpi_rules::{CheckFault, answer};
use std::alloc::Global;

/// The program of these files, of which there are at most 1,000. The violation of a refusal is their
/// least; NoMemory where no memory was found, or a list of the program has more entries than 32 bits
/// count.
pub fn program(alloc: Global, files: Vec<CFile>) -> Result<CProgram, CheckFault>
    requires { length files.items ≤ 1000 }
    ensures program { IfOk result (λ p. p ≡ files.items) }
    ensures verdict { IsVerdict (violations files.items) result }
{
    let found = check(alloc, &files)?;
    match answer((), found) {
        Err(fault) => Err(fault),
        Ok(()) => Ok(CProgram::new(alloc, files)?),
    }
}
