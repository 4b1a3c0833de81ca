//! What names and expressions tell, by IEEE 1800-2017, 11.6 and 23.9, worked by hand. Tokens are
//! counted from 0.

use crate::read;
use dpi_ports::NoMemory;
use std::alloc::Global;
use std::rt::HostRuntime;
use std::test::Fail;
use sv_facts::{Fact, Meant, add_call, add_expr, meant};
use sv_judge::Place;
use sv_names::{Entry, Scopes, Thing, function_scope, module_scope};
use sv_tree::{Call, Expr, Function, Item, Module, Stmt};
use sv_typing::ExprType;

/// The place in these scopes.
fn place_in<'s, 'n>(scopes: &'s Scopes<'n>) -> Place<'s, 'n> {
    Place {
        file: 0,
        scopes,
        subroutines: &[],
        imports: &[],
        in_function: false,
    }
}

/// What an expression in a module tells.
fn told(alloc: Global, module: &Module, value: &Expr) -> Result<Vec<Fact>, NoMemory> {
    let mut scopes = Scopes::new(alloc);
    scopes.enter(module_scope(alloc, 0, module, &mut None)?)?;
    let mut list = Vec::new(alloc);
    add_expr(alloc, &place_in(&scopes), value, &mut list)?;
    Ok(list)
}

#[test]
fn an_expression_tells_its_type_and_then_its_name(rt: HostRuntime) -> Result<(), Fail> {
    let file = read::file(
        &rt,
        rt.alloc(),
        b"module m; byte v; initial while (v) ; endmodule",
    )?;
    let Some(module) = file.modules.get(0) else {
        panic!(rt; "no module");
    };
    let Some(Item::Initial(_, Stmt::While(_, value, _))) = module.items.get(1) else {
        panic!(rt; "no while");
    };
    let list = told(rt.alloc(), module, value)?;
    let byte = ExprType::Bits {
        width: 8,
        signed: true,
        four: false,
    };
    let want = [Fact::Type(9, byte), Fact::Name(9, Meant::Declaration(4))];
    assert!(rt; list.as_slice() == want.as_slice());
    Ok(())
}

/// What a call in a function of a module tells.
fn told_by_call(
    alloc: Global,
    module: &Module,
    function: &Function,
    call: &Call,
) -> Result<Vec<Fact>, NoMemory> {
    let mut scopes = Scopes::new(alloc);
    scopes.enter(module_scope(alloc, 0, module, &mut None)?)?;
    scopes.enter(function_scope(alloc, 0, function, &[], &mut None)?)?;
    let mut list = Vec::new(alloc);
    add_call(alloc, &place_in(&scopes), call, &mut list)?;
    Ok(list)
}

/// Inside of a function, its name is its result; a call of it is one of the function.
#[test]
fn a_call_passes_the_result_over(rt: HostRuntime) -> Result<(), Fail> {
    let file = read::file(
        &rt,
        rt.alloc(),
        b"module m; function int r; r(); endfunction endmodule",
    )?;
    let Some(module) = file.modules.get(0) else {
        panic!(rt; "no module");
    };
    let Some(Item::Function(function)) = module.items.get(0) else {
        panic!(rt; "no function");
    };
    let Some(Stmt::Call(call)) = function.body.statements.get(0) else {
        panic!(rt; "no call");
    };
    let list = told_by_call(rt.alloc(), module, function, call)?;
    assert!(rt; list.as_slice() == [Fact::Name(7, Meant::Subroutine(5))].as_slice());
    Ok(())
}

#[test]
fn an_instance_means_nothing(rt: HostRuntime) {
    let entry = Entry {
        token: 7,
        thing: Thing::Instance,
    };
    assert_eq!(rt; meant(Some(entry)), None);
}
