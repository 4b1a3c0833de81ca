//! Whole designs. Tokens are counted from 0 by hand.

use crate::read;
use dpi_ports::NoMemory;
use dpi_rules::Violation;
use std::alloc::Global;
use std::process::Abort;
use std::rt::HostRuntime;
use std::test::Fail;
use sv_check::{Design, check, elaborate};
use sv_tree::SvFile;

#[test]
fn no_files_break_no_rule(rt: HostRuntime) -> Result<(), NoMemory> {
    assert_eq!(rt; check(rt.alloc(), &[])?, None);
    Ok(())
}

#[test]
fn an_unknown_module_is_refused_at_its_name(rt: HostRuntime) -> Result<(), Fail> {
    let files = [read::file(&rt, rt.alloc(), b"module m; z u(); endmodule")?];
    let unknown = Violation {
        file: 0,
        token: 3,
        rule: 2,
    };
    assert_eq!(rt; check(rt.alloc(), &files)?, Some(unknown));
    Ok(())
}

/// A file alone.
fn one(rt: &impl Abort, alloc: Global, text: &[u8]) -> Result<Vec<SvFile>, Fail> {
    let mut files = Vec::new(alloc);
    files.push(read::file(rt, alloc, text)?)?;
    Ok(files)
}

/// Whether a design is a module `m` without variables.
fn is_one_module(design: &Design) -> bool {
    design.scopes() == 1
        && design.variables() == 0
        && design.scope_name(0) == b"m".as_slice()
        && design.module(0) == (0, 0)
}

#[test]
fn a_module_is_a_design_of_one_scope(rt: HostRuntime) -> Result<(), Fail> {
    let files = one(&rt, rt.alloc(), b"module m; endmodule")?;
    assert!(rt; files.len() <= 1_000);
    let design = elaborate(rt.alloc(), files)?;
    assert!(rt; is_one_module(&design));
    Ok(())
}
