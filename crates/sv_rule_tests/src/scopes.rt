//! A module with its scope.

use crate::read;
use dpi_ports::NoMemory;
use std::alloc::Global;
use std::rt::HostRuntime;
use std::test::Fail;
use sv_instances::modules_of;
use sv_scopes::{Home, Scope, homes_of, listed_instances, scopes_of, variables_of};
use sv_tree::SvFile;

/// The scopes of a file, whose homes these are.
fn listed(alloc: Global, files: &[SvFile; 1], homes: &[Home]) -> Result<Vec<Scope>, NoMemory> {
    let modules = modules_of(alloc, files)?;
    let instances = listed_instances(alloc, 2, &modules, &mut None)?;
    scopes_of(alloc, homes, instances.as_slice())
}

#[test]
fn a_top_is_a_scope(rt: HostRuntime) -> Result<(), Fail> {
    let files = [read::file(&rt, rt.alloc(), b"module m; endmodule")?];
    let homes = homes_of(rt.alloc(), &files)?;
    let home = Home { file: 0, number: 0 };
    assert_eq!(rt; homes.first(), Some(&home));
    let scopes = listed(rt.alloc(), &files, &homes)?;
    let Some(scope) = scopes.first() else {
        panic!(rt; "no scope");
    };
    assert_eq!(rt; scopes.len(), 1);
    assert_eq!(rt; (scope.home, scope.module_number), (home, 0));
    assert_eq!(rt; scope.name.as_slice(), b"m".as_slice());
    assert_eq!(rt; variables_of(rt.alloc(), &files, &[], &scopes)?.len(), 0);
    Ok(())
}
