//! Files with one variable each.
use crate::read;
use c_check::check;
use dpi_rules::Violation;

#[test]
fn one_file_defines_an_object(rt: HostRuntime) {
    let alloc = rt.alloc();
    let first = read::file(&rt, alloc, b"int a;");
    let files = [first, read::file(&rt, alloc, b"int a;")];
    assert!(rt; check(alloc, &files[..1]) == Ok(None));
    let broken = Violation {
        file: 1,
        token: 1,
        rule: 24,
    };
    assert!(rt; check(alloc, &files) == Ok(Some(broken)));
}
