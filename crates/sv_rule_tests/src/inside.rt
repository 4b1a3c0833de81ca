//! A task and an import, with what calls see of them.

use crate::read;
use std::rt::HostRuntime;
use std::test::Fail;
use sv_inside::{imports_of, kinds_of, subroutines_of};
use sv_shapes::VarKind;
use sv_signatures::Formal;
use sv_tree::Direction;

#[test]
fn tasks_and_imports_have_signatures(rt: HostRuntime) -> Result<(), Fail> {
    let file = read::file(
        &rt,
        rt.alloc(),
        b"module m; task t; endtask import \"DPI-C\" function void f; endmodule",
    )?;
    let Some(module) = file.modules.get(0) else {
        panic!(rt; "no module");
    };
    let items = module.items.as_slice();
    assert_eq!(rt; subroutines_of(rt.alloc(), 0, items)?.len(), 1);
    assert_eq!(rt; imports_of(rt.alloc(), 0, items)?.len(), 1);
    Ok(())
}

#[test]
fn formals_have_kinds(rt: HostRuntime) -> Result<(), Fail> {
    let formals = [Formal {
        token: 5,
        direction: Direction::Input,
        kind: Some(VarKind::Text),
    }];
    let kinds = kinds_of(rt.alloc(), &formals)?;
    assert_eq!(rt; kinds.first(), Some(&Some(VarKind::Text)));
    Ok(())
}
