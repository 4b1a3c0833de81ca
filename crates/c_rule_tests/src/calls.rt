//! One declaration whose initialiser calls a function.
use crate::read;
use c_calls::{Refusals, note_calls};
use dpi_rules::Violation;

#[test]
fn a_refused_call_is_found_at_its_name(rt: HostRuntime) {
    let alloc = rt.alloc();
    let tree = read::file(&rt, alloc, b"int n = f();");
    let mut refusals = Refusals::new(alloc);
    let mut found = None;
    note_calls(2, &refusals, &tree, &mut found);
    assert!(rt; found.is_none());
    refusals.refuse(b"f", 12).expect(&rt, "memory is ample");
    refusals.refuse(b"f", 13).expect(&rt, "memory is ample");
    note_calls(2, &refusals, &tree, &mut found);
    let broken = Violation {
        file: 2,
        token: 3,
        rule: 12,
    };
    assert!(rt; found == Some(broken));
}
