//! One import, with a C file that has its body and one that hasn't (IEEE 1800-2017, 35.4).
use c_tree::{BaseWord, Block, Body, CFile, CType, External, Function, Params};
use dpi_links::{check_c, check_sv};
use dpi_rules::Violation;
use sqlite_items::Items;
use std::alloc::{AllocError, Global};
use std::rt::HostRuntime;
use sv_tree::{Import, ImportKind, Item, Module, Name, Outcome, SvFile, Text};

/// `module m; import "DPI-C" function void f(); endmodule`, of which `f` is token 7.
fn modules(alloc: Global) -> Result<SvFile, AllocError> {
    let import = Import {
        token: 3,
        text: Text {
            token: 4,
            bytes: Items::from_slice(alloc, b"\"DPI-C\"")?,
        },
        property: None,
        c_name: None,
        kind: ImportKind::Function(5, Outcome::Void(6)),
        name: Name {
            token: 7,
            bytes: Items::from_slice(alloc, b"f")?,
        },
        formals: None,
    };
    let mut items = Items::new(alloc);
    items.push(Item::Import(import))?;
    let mut modules = Items::new(alloc);
    modules.push(Module {
        token: 0,
        name: Name {
            token: 1,
            bytes: Items::from_slice(alloc, b"m")?,
        },
        parentheses: false,
        items,
        end: None,
    })?;
    Ok(SvFile { modules })
}

/// `void f(void)` and this, of which `f` is token 1.
fn functions(alloc: Global, body: Body) -> Result<CFile, AllocError> {
    let function = Function {
        store: None,
        kind: CType {
            token: 0,
            before: Items::new(alloc),
            base: Items::from_slice(alloc, &[BaseWord::Void])?,
            behind: Items::new(alloc),
        },
        stars: Items::new(alloc),
        name: c_tree::Name {
            token: 1,
            bytes: Items::from_slice(alloc, b"f")?,
        },
        token: 2,
        params: Params::Void(3),
        body,
    };
    let mut externals = Items::new(alloc);
    externals.push(External::Function(function))?;
    Ok(CFile { externals })
}

#[test]
fn an_import_wants_a_body_and_not_a_prototype(rt: HostRuntime) {
    let alloc = rt.alloc();
    let svs = [modules(alloc).expect(&rt, "memory is ample")];
    let prototype = Body::Prototype(5);
    let cs = [functions(alloc, prototype).expect(&rt, "memory is ample")];
    let broken = Violation {
        file: 0,
        token: 7,
        rule: 6,
    };
    let found = check_sv(alloc, &svs, &cs).expect(&rt, "memory is ample");
    assert_eq!(rt; found, Some(broken));
    let found = check_c(alloc, &svs, &cs).expect(&rt, "memory is ample");
    assert_eq!(rt; found, None);
    let block = Body::Block(Block {
        token: 5,
        parts: Items::new(alloc),
        end: 6,
    });
    let cs = [functions(alloc, block).expect(&rt, "memory is ample")];
    let found = check_sv(alloc, &svs, &cs).expect(&rt, "memory is ample");
    assert_eq!(rt; found, None);
}
