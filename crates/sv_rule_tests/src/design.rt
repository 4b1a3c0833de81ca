//! Small modules, with the declarations, subroutines, exports and blocks that they have. Tokens are
//! counted from 0 by hand.

use crate::read;
use std::rt::HostRuntime;
use std::test::Fail;
use sv_design::{
    Declaration, Owner, Place, blocks_of, declarations_of, exports_of, initials_of, subroutines_of,
};
use sv_shapes::VarKind;

#[test]
fn the_result_of_a_function_is_a_declaration(rt: HostRuntime) -> Result<(), Fail> {
    let files = [read::file(
        &rt,
        rt.alloc(),
        b"module m; function automatic string f; endfunction endmodule",
    )?];
    let result = Declaration {
        file: 0,
        token: 6,
        kind: VarKind::Text,
        owner: Owner::Call,
    };
    assert_eq!(rt; declarations_of(rt.alloc(), &files)?.first(), Some(&result));
    let subroutines = subroutines_of(rt.alloc(), &files)?;
    let Some(subroutine) = subroutines.first() else {
        panic!(rt; "no subroutine");
    };
    let told = (subroutine.token, subroutine.automatic, subroutine.result);
    assert_eq!(rt; subroutines.len(), 1);
    assert_eq!(rt; told, (6, true, Some(0)));
    Ok(())
}

#[test]
fn an_export_without_a_name_in_c_has_that_of_its_function(rt: HostRuntime) -> Result<(), Fail> {
    let files = [read::file(
        &rt,
        rt.alloc(),
        b"module m; function string f; endfunction export \"DPI-C\" function f; endmodule",
    )?];
    let exports = exports_of(rt.alloc(), &files)?;
    let Some(export) = exports.first() else {
        panic!(rt; "no export");
    };
    assert_eq!(rt; exports.len(), 1);
    assert_eq!(rt; (export.token, export.subroutine), (11, Some(0)));
    assert_eq!(rt; export.c_name.as_slice(), b"f".as_slice());
    Ok(())
}

#[test]
fn blocks_are_placed_at_their_names(rt: HostRuntime) -> Result<(), Fail> {
    let files = [read::file(
        &rt,
        rt.alloc(),
        b"module m; initial begin : b end endmodule",
    )?];
    let initial = Place { file: 0, token: 3 };
    assert_eq!(rt; initials_of(rt.alloc(), &files)?.first(), Some(&initial));
    let block = Place { file: 0, token: 6 };
    assert_eq!(rt; blocks_of(rt.alloc(), &files)?.first(), Some(&block));
    Ok(())
}
