//! Files with one declaration each.
use crate::read;
use c_functions::{note_functions, note_objects};
use dpi_rules::Violation;

#[test]
fn function_has_one_type_in_all_files(rt: HostRuntime) {
    let alloc = rt.alloc();
    let first = read::file(&rt, alloc, b"int f(void);");
    let files = [first, read::file(&rt, alloc, b"void f(void);")];
    let mut found = None;
    note_functions(alloc, &files, &mut found).expect(&rt, "memory is ample");
    let broken = Violation {
        file: 1,
        token: 1,
        rule: 6,
    };
    assert!(rt; found == Some(broken));
}

#[test]
fn extern_object_has_a_definition(rt: HostRuntime) {
    let alloc = rt.alloc();
    let files = [read::file(&rt, alloc, b"extern int f;")];
    let mut found = None;
    note_objects(alloc, &files, &mut found).expect(&rt, "memory is ample");
    let broken = Violation {
        file: 0,
        token: 2,
        rule: 24,
    };
    assert!(rt; found == Some(broken));
}
