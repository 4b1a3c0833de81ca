//! A module with an import and an export, linked with a C file by hand (IEEE 1800-2017, 35.4, 35.5).
use c_check::program;
use c_tree::{BaseWord, Block, Body, CFile, CType, External, Params};
use dpi_decl::{LinkFault, Linked, link};
use dpi_rules::{CheckFault, Violation};
use sqlite_items::Items;
use std::alloc::{AllocError, Global};
use std::process::Abort;
use std::rt::HostRuntime;
use sv_check::elaborate;
use sv_tree::{Export, Function, Import, ImportKind, Item, Module, Name, Outcome, SvFile, Text};

fn name(alloc: Global, token: u32, bytes: &[u8]) -> Result<Name, AllocError> {
    Ok(Name {
        token,
        bytes: Items::from_slice(alloc, bytes)?,
    })
}

fn dpi_c(alloc: Global, token: u32) -> Result<Text, AllocError> {
    Ok(Text {
        token,
        bytes: Items::from_slice(alloc, b"\"DPI-C\"")?,
    })
}

/// `import "DPI-C" function void f();` from token 3 on.
fn import_f(alloc: Global) -> Result<Item, AllocError> {
    Ok(Item::Import(Import {
        token: 3,
        text: dpi_c(alloc, 4)?,
        property: None,
        c_name: None,
        kind: ImportKind::Function(5, Outcome::Void(6)),
        name: name(alloc, 7, b"f")?,
        formals: None,
    }))
}

/// `export "DPI-C" function g;` from token 11 on.
fn export_g(alloc: Global) -> Result<Item, AllocError> {
    Ok(Item::Export(Export {
        token: 11,
        text: dpi_c(alloc, 12)?,
        c_name: None,
        task: false,
        name: name(alloc, 14, b"g")?,
    }))
}

/// `function void g; endfunction` from token 16 on.
fn function_g(alloc: Global) -> Result<Item, AllocError> {
    Ok(Item::Function(Function {
        token: 16,
        life: None,
        outcome: Outcome::Void(17),
        name: name(alloc, 18, b"g")?,
        formals: None,
        body: sv_tree::Body {
            variables: Items::new(alloc),
            statements: Items::new(alloc),
        },
        end: None,
    }))
}

/// `module m;`, these three and `endmodule`
fn modules(alloc: Global) -> Result<SvFile, AllocError> {
    let mut items = Items::new(alloc);
    items.push(import_f(alloc)?)?;
    items.push(export_g(alloc)?)?;
    items.push(function_g(alloc)?)?;
    let mut modules = Items::new(alloc);
    modules.push(Module {
        token: 0,
        name: name(alloc, 1, b"m")?,
        parentheses: false,
        items,
        end: None,
    })?;
    Ok(SvFile { modules })
}

/// `void f(void)` and this.
fn functions(alloc: Global, body: Body) -> Result<CFile, AllocError> {
    let mut externals = Items::new(alloc);
    externals.push(External::Function(c_tree::Function {
        store: None,
        kind: CType {
            token: 0,
            before: Items::new(alloc),
            base: Items::from_slice(alloc, &[BaseWord::Void])?,
            behind: Items::new(alloc),
        },
        stars: Items::new(alloc),
        name: c_tree::Name {
            token: 1,
            bytes: Items::from_slice(alloc, b"f")?,
        },
        token: 2,
        params: Params::Void(3),
        body,
    }))?;
    Ok(CFile { externals })
}

/// A block without statements.
fn block(alloc: Global) -> Body {
    Body::Block(Block {
        token: 5,
        parts: Items::new(alloc),
        end: 6,
    })
}

/// The module, linked with a body of `f`.
fn linked(rt: &impl Abort, alloc: Global) -> Result<Linked, CheckFault> {
    let mut svs = Vec::new(alloc);
    svs.push(modules(alloc)?)?;
    let mut cs = Vec::new(alloc);
    cs.push(functions(alloc, block(alloc))?)?;
    match link(alloc, elaborate(alloc, svs)?, program(alloc, cs)?) {
        Ok(linked) => Ok(linked),
        Err(fault) => panic!(rt; "{fault:?}"),
    }
}

#[test]
fn an_import_calls_the_body_of_its_name(rt: HostRuntime) -> Result<(), CheckFault> {
    let linked = linked(&rt, rt.alloc())?;
    assert!(rt; linked.design().imports() > 0);
    assert_eq!(rt; linked.function_of(0), 0);
    Ok(())
}

#[test]
fn a_scope_has_the_exports_of_its_module(rt: HostRuntime) -> Result<(), CheckFault> {
    let linked = linked(&rt, rt.alloc())?;
    assert!(rt; linked.design().scopes() > 0);
    assert_eq!(rt; linked.export_in(0, b"g"), Some(0));
    Ok(())
}

#[test]
fn a_scope_has_no_other_export(rt: HostRuntime) -> Result<(), CheckFault> {
    let linked = linked(&rt, rt.alloc())?;
    assert!(rt; linked.design().scopes() > 0);
    assert_eq!(rt; linked.export_in(0, b"f"), None);
    Ok(())
}

#[test]
fn an_import_without_a_body_is_refused(rt: HostRuntime) -> Result<(), CheckFault> {
    let alloc = rt.alloc();
    let mut svs = Vec::new(alloc);
    svs.push(modules(alloc)?)?;
    let mut cs = Vec::new(alloc);
    cs.push(functions(alloc, Body::Prototype(5))?)?;
    let broken = Violation {
        file: 0,
        token: 7,
        rule: 6,
    };
    match link(alloc, elaborate(alloc, svs)?, program(alloc, cs)?) {
        Err(fault) => assert_eq!(rt; fault, LinkFault::Sv(broken)),
        Ok(_) => panic!(rt; "the import has no body"),
    }
    Ok(())
}
