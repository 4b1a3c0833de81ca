//! A file with two variables.
use crate::read;
use c_walk::walk_file;
use dpi_rules::Violation;

#[test]
fn a_scope_has_a_name_once(rt: HostRuntime) {
    let alloc = rt.alloc();
    let mut found = None;
    let apart = read::file(&rt, alloc, b"int a, b;");
    walk_file(alloc, 4, &apart, &[], &mut found).expect(&rt, "memory is ample");
    assert!(rt; found.is_none());
    let same = read::file(&rt, alloc, b"int a, a;");
    walk_file(alloc, 4, &same, &[], &mut found).expect(&rt, "memory is ample");
    let broken = Violation {
        file: 4,
        token: 3,
        rule: 1,
    };
    assert!(rt; found == Some(broken));
}
