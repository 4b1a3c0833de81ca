//! Facts and lists of two files, told by hand.

use crate::read;
use dpi_ports::NoMemory;
use std::alloc::Global;
use std::rt::HostRuntime;
use std::test::Fail;
use sv_design::Place;
use sv_facts::{Fact, Meant};
use sv_lookup::{Lookup, Meaning, Numbers};
use sv_tree::{Item, Stmt};
use sv_typing::ExprType;

#[test]
fn the_first_entry_at_a_place_counts(rt: HostRuntime) -> Result<(), NoMemory> {
    let places = [
        Place { file: 1, token: 4 },
        Place { file: 0, token: 4 },
        Place { file: 1, token: 4 },
    ];
    let numbers = Numbers::of(rt.alloc(), &places)?;
    assert_eq!(rt; numbers.number(1, 4), Some(0));
    assert_eq!(rt; numbers.number(0, 4), Some(1));
    assert_eq!(rt; numbers.number(0, 1), None);
    Ok(())
}

/// Of the first file: `b`, at tokens 6 and 9, and an expression at token 6.
fn lookup(alloc: Global) -> Result<Lookup, NoMemory> {
    let mut facts = Vec::new(alloc);
    facts.push(Fact::Type(6, ExprType::Chandle))?;
    facts.push(Fact::Name(6, Meant::Block(4)))?;
    facts.push(Fact::Name(6, Meant::Module))?;
    facts.push(Fact::Name(9, Meant::Block(5)))?;
    let mut files = Vec::new(alloc);
    files.push(facts)?;
    let blocks = [Place { file: 1, token: 4 }, Place { file: 0, token: 4 }];
    Lookup::of(alloc, &files, &[], &[], &[], &blocks)
}

#[test]
fn a_name_means_the_entry_at_its_declaration(rt: HostRuntime) -> Result<(), NoMemory> {
    let lookup = lookup(rt.alloc())?;
    assert_eq!(rt; lookup.meaning(0, 6), Some(Meaning::Block(1)));
    assert_eq!(rt; lookup.meaning(0, 9), None);
    assert_eq!(rt; lookup.meaning(0, 8), None);
    assert_eq!(rt; lookup.meaning(1, 6), None);
    Ok(())
}

#[test]
fn a_type_is_found_at_the_first_token(rt: HostRuntime) -> Result<(), Fail> {
    let file = read::file(
        &rt,
        rt.alloc(),
        b"module m; initial while (a) while (b) ; endmodule",
    )?;
    let Some(Item::Initial(_, Stmt::While(_, first, body))) = read::item(&file, 0) else {
        panic!(rt; "no while");
    };
    let Stmt::While(_, second, _) = body.get() else {
        panic!(rt; "no second while");
    };
    let lookup = lookup(rt.alloc())?;
    assert_eq!(rt; lookup.type_of(0, first), Some(ExprType::Chandle));
    assert_eq!(rt; lookup.type_of(0, second), None);
    assert_eq!(rt; lookup.type_of(1, first), None);
    Ok(())
}
