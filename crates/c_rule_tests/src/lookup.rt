//! Files with one declaration each, and what is told of them.
use crate::read;
use c_base::{CBase, CType};
use c_facts::{CFact, CMeant};
use c_lookup::{CLookup, CMeaning};
use c_program::{CFunction, CObject, Life};
use sqlite_items::Items;
use std::alloc::Global;
use std::process::Abort;

/// The facts of a file that tells one.
fn told(rt: &impl Abort, alloc: Global, fact: CFact) -> Vec<CFact> {
    let mut list = Vec::new(alloc);
    list.push(fact).expect(rt, "memory is ample");
    list
}

#[test]
fn an_extern_object_is_what_another_file_defines(rt: HostRuntime) {
    let alloc = rt.alloc();
    let object = CObject {
        file: 1,
        token: 1,
        kind: CType::plain(CBase::Int),
        cells: 1,
        writable: true,
        life: Life::File,
    };
    let facts = [told(&rt, alloc, CFact::Name(2, CMeant::Object(2)))];
    let first = read::file(&rt, alloc, b"extern int x;");
    let files = [first, read::file(&rt, alloc, b"int x;")];
    let lookup = CLookup::of(alloc, &files, &facts, &[], &[object]).expect(&rt, "memory is ample");
    assert!(rt; lookup.meaning(0, 2) == Some(CMeaning::Object(0)));
    assert!(rt; lookup.meaning(0, 1).is_none());
    assert!(rt; lookup.meaning(1, 2).is_none());
}

#[test]
fn a_function_has_one_number_at_each_prototype(rt: HostRuntime) {
    let alloc = rt.alloc();
    let functions = [CFunction {
        file: 1,
        token: 1,
        name: Items::from_slice(alloc, b"f").expect(&rt, "memory is ample"),
        result: CType::plain(CBase::Int),
        params: Items::new(alloc),
        has_body: false,
    }];
    let facts = [told(&rt, alloc, CFact::Name(1, CMeant::Function(1)))];
    let first = read::file(&rt, alloc, b"int f(void);");
    let files = [first, read::file(&rt, alloc, b"int f(void);")];
    let lookup = CLookup::of(alloc, &files, &facts, &functions, &[]).expect(&rt, "memory is ample");
    assert!(rt; lookup.meaning(0, 1) == Some(CMeaning::Function(0)));
}

#[test]
fn a_type_is_found_at_the_first_token(rt: HostRuntime) {
    let alloc = rt.alloc();
    let tree = read::file(&rt, alloc, b"int x = 1, y = 1;");
    let first = read::value(&tree, 0).expect(&rt, "a value");
    let second = read::value(&tree, 1).expect(&rt, "a value");
    let int = CType::plain(CBase::Int);
    let facts = [told(&rt, alloc, CFact::Type(3, int))];
    let lookup = CLookup::of(alloc, &[], &facts, &[], &[]).expect(&rt, "memory is ample");
    assert!(rt; lookup.type_of(0, first) == Some(int));
    assert!(rt; lookup.type_of(0, second).is_none());
}
