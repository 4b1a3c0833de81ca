//! Files with one declaration each.
use crate::read;
use c_base::{CBase, CType};
use c_program::{CObject, Life, functions_of, objects_of};

#[test]
fn function_stands_at_its_body(rt: HostRuntime) {
    let alloc = rt.alloc();
    let prototype = read::file(&rt, alloc, b"int f(void);");
    let files = [prototype, read::file(&rt, alloc, b"int f(void) { }")];
    let functions = functions_of(alloc, &files).expect(&rt, "memory is ample");
    assert!(rt; functions.len() == 1 && functions[0].file == 1);
}

#[test]
fn constant_of_svdpi_is_a_size(rt: HostRuntime) {
    let alloc = rt.alloc();
    let files = [read::file(&rt, alloc, b"const int a[sv_z];")];
    let objects = objects_of(alloc, &files).expect(&rt, "memory is ample");
    let array = CObject {
        file: 0,
        token: 2,
        kind: CType {
            base_const: true,
            ..CType::plain(CBase::Int)
        },
        cells: 2,
        writable: false,
        life: Life::File,
    };
    assert!(rt; objects.first().copied() == Some(array));
}
