//! Small modules, with what their names mean by the rules. Tokens are counted from 0 by hand.

use crate::read;
use dpi_ports::NoMemory;
use dpi_rules::Violation;
use std::alloc::Global;
use std::rt::HostRuntime;
use std::test::Fail;
use sv_names::{
    Callee, Entry, Scopes, Thing, block_scope, called, exported, for_scope, function_scope,
    module_scope, note_call, note_disable, note_export, note_value, value_kind,
};
use sv_shapes::VarKind;
use sv_tree::{Block, Function, Item, Module, Stmt};

const TEXT: Thing = Thing::Variable(Some(VarKind::Text));

fn entry(token: u32, thing: Thing) -> Option<Entry> {
    Some(Entry { token, thing })
}

fn at(token: u32, rule: u8) -> Option<Violation> {
    Some(Violation {
        file: 2,
        token,
        rule,
    })
}

#[test]
fn a_module_declares_its_items_and_outer_blocks(rt: HostRuntime) -> Result<(), Fail> {
    let file = read::file(
        &rt,
        rt.alloc(),
        b"module m; string a; string a; function void f; endfunction
          initial begin : o begin : i end end m u(); endmodule",
    )?;
    let Some(module) = file.modules.get(0) else {
        panic!(rt; "no module");
    };
    let mut found = None;
    let scope = module_scope(rt.alloc(), 2, module, &mut found)?;
    assert_eq!(rt; found, at(7, 4));
    let names: [(&[u8], Option<Entry>); 6] = [
        (b"a", entry(4, TEXT)),
        (b"f", entry(11, Thing::Function(0))),
        (b"o", entry(17, Thing::Block)),
        (b"u", entry(24, Thing::Instance)),
        (b"i", None),
        (b"m", None),
    ];
    for &(name, declared) in names.iter() {
        assert_eq!(rt; scope.get(name), declared, "{name:?}");
    }
    Ok(())
}

#[test]
fn a_function_declares_its_result_first(rt: HostRuntime) -> Result<(), Fail> {
    let file = read::file(
        &rt,
        rt.alloc(),
        b"module m; function string f(x); string f; begin : b end endfunction endmodule",
    )?;
    let Some(Item::Function(function)) = read::item(&file, 0) else {
        panic!(rt; "no function");
    };
    let mut found = None;
    let scope = function_scope(
        rt.alloc(),
        2,
        function,
        &[Some(VarKind::Chandle)],
        &mut found,
    )?;
    assert_eq!(rt; found, at(11, 4));
    assert_eq!(rt;
        scope.get(b"f"),
        entry(5, Thing::Result(Some(VarKind::Text)))
    );
    assert_eq!(rt;
        scope.get(b"x"),
        entry(7, Thing::Variable(Some(VarKind::Chandle)))
    );
    assert_eq!(rt; scope.get(b"b"), entry(15, Thing::Block));
    Ok(())
}

#[test]
fn a_for_declares_its_variable_alone(rt: HostRuntime) -> Result<(), Fail> {
    let file = read::file(
        &rt,
        rt.alloc(),
        b"module m; initial for (string k = l; l; l++) ; endmodule",
    )?;
    let Some(Item::Initial(_, Stmt::For(_, start, _, _, _))) = read::item(&file, 0) else {
        panic!(rt; "no for");
    };
    let mut found = None;
    let scope = for_scope(rt.alloc(), 2, start, &mut found)?;
    assert_eq!(rt; found, None);
    assert_eq!(rt; scope.get(b"k"), entry(7, TEXT));
    assert_eq!(rt; scope.get(b"l"), None);
    Ok(())
}

/// The scopes of a module, of a function in it and of a block in that one.
fn nested<'a>(
    alloc: Global,
    module: &'a Module,
    function: &'a Function,
    block: &'a Block,
) -> Result<Scopes<'a>, NoMemory> {
    let mut scopes = Scopes::new(alloc);
    scopes.enter(module_scope(alloc, 2, module, &mut None)?)?;
    scopes.enter(function_scope(alloc, 2, function, &[], &mut None)?)?;
    scopes.enter(block_scope(alloc, 2, block, &mut None)?)?;
    Ok(scopes)
}

#[test]
fn the_innermost_declaration_counts(rt: HostRuntime) -> Result<(), Fail> {
    let file = read::file(
        &rt,
        rt.alloc(),
        b"module m; import \"DPI-C\" function void g; n x(); function string f;
          begin : b string x; begin : x end end endfunction endmodule",
    )?;
    let Some(module) = file.modules.get(0) else {
        panic!(rt; "no module");
    };
    let Some(Item::Function(function)) = module.items.get(2) else {
        panic!(rt; "no function");
    };
    let Some(Stmt::Block(block)) = function.body.statements.get(0) else {
        panic!(rt; "no block");
    };
    let mut scopes = nested(rt.alloc(), module, function, block)?;
    // A name, its declaration where a value stands, and the one that a call means.
    let looked_up: [(&[u8], Option<Entry>, Option<Entry>); 5] = [
        (
            b"f",
            entry(16, Thing::Result(Some(VarKind::Text))),
            entry(16, Thing::Function(0)),
        ),
        (b"g", entry(7, Thing::Import(0)), entry(7, Thing::Import(0))),
        (b"x", entry(22, TEXT), entry(22, TEXT)),
        (b"b", entry(20, Thing::Block), entry(20, Thing::Block)),
        (b"y", None, None),
    ];
    for &(name, value, called) in looked_up.iter() {
        assert_eq!(rt; scopes.find(name), value, "{name:?}");
        assert_eq!(rt; scopes.find_called(name), called, "{name:?}");
    }
    scopes.leave();
    assert_eq!(rt; scopes.find(b"x"), entry(10, Thing::Instance));
    Ok(())
}

/// What a name declares; the rules that a value, a call, `disable` and an export of it break, or 0.
const USED: [(Option<Thing>, u8, u8, u8, u8); 6] = [
    (None, 5, 5, 23, 5),
    (Some(TEXT), 0, 6, 23, 0),
    (Some(Thing::Function(3)), 6, 0, 23, 0),
    (Some(Thing::Task(4)), 6, 0, 0, 0),
    (Some(Thing::Import(5)), 6, 0, 23, 0),
    (Some(Thing::Block), 6, 6, 0, 0),
];

fn broken(rule: u8) -> Option<Violation> {
    if rule == 0 { None } else { at(8, rule) }
}

/// What a value, a call, `disable` and an export at token 8 break.
fn broken_by(declared: Option<Entry>) -> [Option<Violation>; 4] {
    let mut found = [None; 4];
    note_value(2, 8, declared, &mut found[0]);
    note_call(2, 8, declared, &mut found[1]);
    note_disable(2, 8, declared, &mut found[2]);
    note_export(2, 8, declared, &mut found[3]);
    found
}

#[test]
fn a_use_wants_a_declaration_of_its_kind(rt: HostRuntime) {
    for &(thing, value, call, disable, export) in USED.iter() {
        let declared = match thing {
            Some(thing) => entry(1, thing),
            None => None,
        };
        let want = [broken(value), broken(call), broken(disable), broken(export)];
        assert_eq!(rt; broken_by(declared), want, "{thing:?}");
    }
}

#[test]
fn a_declaration_tells_what_a_use_means(rt: HostRuntime) {
    assert_eq!(rt; value_kind(entry(1, TEXT)), Some(VarKind::Text));
    assert_eq!(rt;
        called(entry(1, Thing::Task(4))),
        Some(Callee::Subroutine(4))
    );
    assert_eq!(rt; called(entry(1, Thing::Import(5))), Some(Callee::Import(5)));
    assert_eq!(rt; exported(entry(1, Thing::Import(5))), None);
}

#[test]
fn a_block_without_a_label_is_a_scope(rt: HostRuntime) -> Result<(), Fail> {
    let file = read::file(
        &rt,
        rt.alloc(),
        b"module m; initial begin string a; begin : b end end endmodule",
    )?;
    let Some(Item::Initial(_, Stmt::Block(block))) = read::item(&file, 0) else {
        panic!(rt; "no block");
    };
    let mut found = None;
    let scope = block_scope(rt.alloc(), 2, block, &mut found)?;
    assert_eq!(rt; found, None);
    assert_eq!(rt; scope.get(b"a"), entry(6, TEXT));
    assert_eq!(rt; scope.get(b"b"), entry(10, Thing::Block));
    Ok(())
}
