//! A file with one function.
use crate::read;
use c_forms::note_file;
use dpi_rules::Violation;

#[test]
fn jumps_stand_in_loops(rt: HostRuntime) {
    let alloc = rt.alloc();
    let mut found = None;
    let tree = read::file(&rt, alloc, b"void f(void) { return; }");
    note_file(4, &tree, &mut found);
    assert!(rt; found.is_none());
    let tree = read::file(&rt, alloc, b"void f(void) { break; }");
    note_file(4, &tree, &mut found);
    let broken = Violation {
        file: 4,
        token: 6,
        rule: 15,
    };
    assert!(rt; found == Some(broken));
}
