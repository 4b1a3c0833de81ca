//! Imports and exports of one name in C, by IEEE 1800-2017, 35.5.4 and 35.5.5.
use dpi_agree::{
    LinkedExport, LinkedImport, note_second_exports, note_unequal_exports, note_unequal_imports,
};
use dpi_rules::Violation;
use sqlite_items::Items;
use std::rt::HostRuntime;
use sv_signatures::{ImportSignature, Returns};

#[test]
fn a_task_and_a_void_function_of_one_name_break_rule_5(rt: HostRuntime) {
    let task = ImportSignature {
        token: 4,
        is_task: true,
        result: Returns::Void,
        formals: Items::new(rt.alloc()),
    };
    let function = ImportSignature {
        token: 5,
        is_task: false,
        result: Returns::Void,
        formals: Items::new(rt.alloc()),
    };
    let first = LinkedImport {
        file: 0,
        token: 4,
        name: b"f",
        signature: &task,
    };
    let other = LinkedImport {
        file: 1,
        token: 5,
        name: b"g",
        signature: &function,
    };
    let second = LinkedImport {
        file: 1,
        token: 9,
        name: b"f",
        signature: &function,
    };
    let mut found = None;
    note_unequal_imports(rt.alloc(), &[first, other, first], &mut found).expect(&rt, "memory");
    assert_eq!(rt; found, None);
    note_unequal_imports(rt.alloc(), &[first, other, second], &mut found).expect(&rt, "memory");
    let broken = Violation {
        file: 1,
        token: 9,
        rule: 5,
    };
    assert_eq!(rt; found, Some(broken));
}

#[test]
fn a_second_export_of_a_name_breaks_rule_9(rt: HostRuntime) {
    let first = LinkedExport {
        file: 2,
        token: 4,
        name: b"f",
        signature: None,
    };
    let second = LinkedExport {
        file: 2,
        token: 8,
        name: b"f",
        signature: None,
    };
    let mut found = None;
    note_unequal_exports(rt.alloc(), &[first, second], &mut found).expect(&rt, "memory");
    assert_eq!(rt; found, None);
    note_second_exports(rt.alloc(), &[first, second], &mut found).expect(&rt, "memory");
    let broken = Violation {
        file: 2,
        token: 8,
        rule: 9,
    };
    assert_eq!(rt; found, Some(broken));
}
