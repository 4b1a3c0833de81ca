//! Names that no function of C has, and one export built by hand.
use dpi_items::{is_taken, note_export};
use dpi_rules::Violation;
use sqlite_items::Items;
use std::alloc::{AllocError, Global};
use std::rt::HostRuntime;
use sv_tree::{Export, Name, Text};

/// Names, and whether they are a keyword, a type name, `NULL`, `printf` or of `svdpi.h`.
const NAMES: [(&[u8], bool); 8] = [
    (b"int", true),
    (b"svLogicVecVal", true),
    (b"NULL", true),
    (b"printf", true),
    (b"svGetScope", true),
    (b"sv_x", true),
    (b"switch", false),
    (b"svgetscope", false),
];

#[test]
fn names_of_svdpi_and_keywords_are_taken(rt: HostRuntime) {
    for (name, taken) in NAMES {
        assert_eq!(rt; is_taken(name), taken, "{name:?}");
    }
}

/// `export "DPI-C" c_name = function f;`
fn exported(alloc: Global, string: &[u8], c_name: &[u8]) -> Result<Export, AllocError> {
    Ok(Export {
        token: 0,
        text: Text {
            token: 1,
            bytes: Items::from_slice(alloc, string)?,
        },
        c_name: Some(Name {
            token: 2,
            bytes: Items::from_slice(alloc, c_name)?,
        }),
        task: false,
        name: Name {
            token: 5,
            bytes: Items::from_slice(alloc, b"f")?,
        },
    })
}

#[test]
fn an_export_breaks_rule_14_at_its_name(rt: HostRuntime) {
    let mut found = None;
    let export = exported(rt.alloc(), b"\"DPI-C\"", b"g").expect(&rt, "memory is ample");
    note_export(3, &export, &mut found);
    assert_eq!(rt; found, None);
    let export = exported(rt.alloc(), b"\"DPI-C\"", b"short").expect(&rt, "memory is ample");
    note_export(3, &export, &mut found);
    let broken = Violation {
        file: 3,
        token: 5,
        rule: 14,
    };
    assert_eq!(rt; found, Some(broken));
    let export = exported(rt.alloc(), b"\"DPI\"", b"g").expect(&rt, "memory is ample");
    note_export(3, &export, &mut found);
    let broken = Violation {
        file: 3,
        token: 1,
        rule: 1,
    };
    assert_eq!(rt; found, Some(broken));
}
