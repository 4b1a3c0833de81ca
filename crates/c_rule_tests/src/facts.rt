//! What names and expressions tell, by ISO C 6.2.1, 6.3.2.1 and 6.4.4 and by IEEE 1800-2017, Annex
//! I, worked by hand.
use crate::read;
use c_base::{CBase, CType};
use c_facts::{CFact, CMeant, add_expr, add_size};
use c_judge::Around;
use c_names::{Entry, Scope, Scopes, Thing};
use c_typing::Operand;
use c_walk::defines_of;

#[test]
fn an_array_is_the_pointer_to_its_first_cell(rt: HostRuntime) {
    let alloc = rt.alloc();
    let tree = read::file(&rt, alloc, b"short a[4], *p = a;");
    let e = read::value(&tree, 1).expect(&rt, "a value");
    let array = Operand::array(CType::plain(CBase::Short), false);
    let entry = Entry {
        token: 1,
        thing: Thing::Object(Some(array), true),
    };
    let mut scope = Scope::new(alloc);
    scope.add(b"a", entry).expect(&rt, "memory is ample");
    let mut scopes = Scopes::new(alloc);
    scopes.enter(scope).expect(&rt, "memory is ample");
    let around = Around {
        file: 0,
        scopes: &scopes,
        functions: &[],
    };
    let defines = defines_of(alloc, &[]).expect(&rt, "memory is ample");
    let mut list = Vec::new(alloc);
    add_expr(alloc, &around, &defines, e, &mut list).expect(&rt, "memory is ample");
    let pointer = CType {
        stars: 1,
        ..CType::plain(CBase::Short)
    };
    let told = [CFact::Type(9, pointer), CFact::Name(9, CMeant::Object(1))];
    assert!(rt; list.as_slice() == told.as_slice());
}

#[test]
fn words_have_the_type_of_their_width(rt: HostRuntime) {
    let alloc = rt.alloc();
    let tree = read::file(&rt, alloc, b"int a[SV_PACKED_DATA_NELEMS(65u)];");
    let size = read::size(&tree).expect(&rt, "a size");
    let scopes = Scopes::new(alloc);
    let around = Around {
        file: 0,
        scopes: &scopes,
        functions: &[],
    };
    let defines = defines_of(alloc, &[]).expect(&rt, "memory is ample");
    let mut list = Vec::new(alloc);
    add_size(&around, &defines, size, &mut list).expect(&rt, "memory is ample");
    let words = CMeant::Constant {
        kind: CType::plain(CBase::UnsignedInt),
        value: 3,
    };
    let told = [CFact::Name(3, words)];
    assert!(rt; list.as_slice() == told.as_slice());
}
