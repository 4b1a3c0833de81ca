//! What whole files tell.
use crate::read;
use c_facts::{CFact, CMeant};
use c_meanings::facts_of;

#[test]
fn an_object_is_told_at_its_name(rt: HostRuntime) {
    let tree = read::file(&rt, rt.alloc(), b"int a;");
    let list = facts_of(rt.alloc(), 0, &tree).expect(&rt, "memory is ample");
    let told = [CFact::Name(1, CMeant::Object(1))];
    assert!(rt; list.as_slice() == told.as_slice());
}

#[test]
fn a_second_prototype_means_the_first(rt: HostRuntime) {
    let tree = read::file(&rt, rt.alloc(), b"int f(); int f();");
    let list = facts_of(rt.alloc(), 0, &tree).expect(&rt, "memory is ample");
    let told = [
        CFact::Name(1, CMeant::Function(1)),
        CFact::Name(6, CMeant::Function(1)),
    ];
    assert!(rt; list.as_slice() == told.as_slice());
}
