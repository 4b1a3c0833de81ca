//! Small designs, with their instances listed by hand. Tokens are counted from 0.

use crate::read;
use dpi_ports::NoMemory;
use dpi_rules::Violation;
use sqlite_items::Items;
use std::alloc::Global;
use std::rt::HostRuntime;
use std::test::Fail;
use sv_instances::{
    Child, Instance, Placed, all_children, instances_of, modules_of, note_unknown, numbers_of,
    tops_of, without_cycles,
};
use sv_tree::SvFile;

const fn at(file: u32, token: u32, rule: u8) -> Violation {
    Violation { file, token, rule }
}

/// The numbers of `m`, `n` and `z`; the second module of a name, and the unknown one; how many
/// modules have a list of what they instantiate.
fn named(
    alloc: Global,
    files: &[SvFile; 2],
) -> Result<([Option<usize>; 3], [Option<Violation>; 2], usize), NoMemory> {
    let modules = modules_of(alloc, files)?;
    let mut second = None;
    let numbers = numbers_of(alloc, &modules, &mut second)?;
    let mut unknown = None;
    note_unknown(&numbers, &modules, &mut unknown);
    let count = all_children(alloc, &numbers, &modules)?.len();
    let told = [numbers.get(b"m"), numbers.get(b"n"), numbers.get(b"z")];
    Ok((told, [second, unknown], count))
}

#[test]
fn a_module_name_means_the_first(rt: HostRuntime) -> Result<(), Fail> {
    let first = read::file(&rt, rt.alloc(), b"module m; n u(); endmodule")?;
    let second = read::file(
        &rt,
        rt.alloc(),
        b"module n; z u(); endmodule module m; n u(); endmodule",
    )?;
    let (numbers, found, count) = named(rt.alloc(), &[first, second])?;
    assert_eq!(rt; numbers, [Some(0), Some(1), None]);
    assert_eq!(rt; found, [Some(at(1, 10, 1)), Some(at(1, 3, 2))]);
    assert_eq!(rt; count, 3);
    Ok(())
}

/// What each module instantiates.
fn children(alloc: Global, modules: &[Placed<'_>]) -> Result<Items<Items<Child>>, NoMemory> {
    let numbers = numbers_of(alloc, modules, &mut None)?;
    all_children(alloc, &numbers, modules)
}

/// The instances of the design below, in preorder: their modules and names.
const LISTED: &[(usize, &[u8])] = &[(0, b"t"), (1, b"t.a"), (2, b"t.a.c"), (2, b"t.b")];

/// The instances of a file.
fn listed(
    alloc: Global,
    files: &[SvFile; 1],
    found: &mut Option<Violation>,
) -> Result<Items<Instance>, NoMemory> {
    let modules = modules_of(alloc, files)?;
    let children = children(alloc, &modules)?;
    let tops = tops_of(alloc, children.as_slice(), &modules)?;
    instances_of(
        alloc,
        children.as_slice(),
        modules.len(),
        tops.as_slice(),
        found,
    )
}

#[test]
fn a_child_stands_behind_its_parent(rt: HostRuntime) -> Result<(), Fail> {
    let files = [read::file(
        &rt,
        rt.alloc(),
        b"module t; p a(); q b(); endmodule module p; q c(); endmodule module q; endmodule",
    )?];
    let mut found = None;
    let list = listed(rt.alloc(), &files, &mut found)?;
    assert_eq!(rt; found, None);
    assert_eq!(rt; list.len(), LISTED.len());
    for (instance, &(module, name)) in list.as_slice().iter().zip(LISTED) {
        assert_eq!(rt; instance.module_number, module);
        assert_eq!(rt; instance.name.as_slice(), name);
    }
    Ok(())
}

/// So many tops of one module.
fn many_tops(alloc: Global, count: u32) -> Result<Vec<Child>, NoMemory> {
    let mut tops = Vec::new(alloc);
    for token in 0..count {
        tops.push(Child {
            module_number: 0,
            file: 0,
            token,
            name: Items::new(alloc),
        })?;
    }
    Ok(tops)
}

#[test]
fn the_thousand_and_first_instance_is_refused(rt: HostRuntime) -> Result<(), NoMemory> {
    let alloc = rt.alloc();
    let mut found = None;
    let list = instances_of(alloc, &[], 1, &many_tops(alloc, 1001)?, &mut found)?;
    assert_eq!(rt; found, Some(at(0, 1000, 3)));
    assert_eq!(rt; list.len(), 1001);
    found = None;
    instances_of(alloc, &[], 1, &many_tops(alloc, 1000)?, &mut found)?;
    assert_eq!(rt; found, None);
    Ok(())
}

/// A design, the token of what rule 2 refuses, and how many instances of each module stay: a
/// module that instantiates itself, one that leads to a cycle of two, and a chain.
const CYCLES: &[(&[u8], Option<u32>, &[usize])] = &[
    (b"module a; a u(); endmodule", Some(3), &[0]),
    (
        b"module a; b u(); endmodule module b; c u(); endmodule module c; b u(); endmodule",
        Some(12),
        &[1, 0, 0],
    ),
    (
        b"module a; b u(); endmodule module b; c u(); endmodule module c; endmodule",
        None,
        &[1, 1, 0],
    ),
];

/// What each module of a file instantiates without the cycles.
fn kept(
    alloc: Global,
    files: &[SvFile; 1],
    found: &mut Option<Violation>,
) -> Result<Items<Items<Child>>, NoMemory> {
    let modules = modules_of(alloc, files)?;
    let children = children(alloc, &modules)?;
    without_cycles(alloc, children.as_slice(), found)
}

#[test]
fn items_on_a_cycle_are_refused_and_left_out(rt: HostRuntime) -> Result<(), Fail> {
    for &(text, refused, counts) in CYCLES {
        let files = [read::file(&rt, rt.alloc(), text)?];
        let mut found = None;
        let kept = kept(rt.alloc(), &files, &mut found)?;
        assert_eq!(rt; found, refused.map(|token| at(0, token, 2)), "{text:?}");
        assert_eq!(rt; kept.len(), counts.len(), "{text:?}");
        for (row, &count) in kept.as_slice().iter().zip(counts) {
            assert_eq!(rt; row.len(), count, "{text:?}");
        }
    }
    Ok(())
}

/// How many tops a file has with its cycles, and how many without them.
fn top_counts(
    alloc: Global,
    files: &[SvFile; 1],
    found: &mut Option<Violation>,
) -> Result<(usize, usize), NoMemory> {
    let modules = modules_of(alloc, files)?;
    let children = children(alloc, &modules)?;
    let all = tops_of(alloc, children.as_slice(), &modules)?.len();
    let kept = without_cycles(alloc, children.as_slice(), found)?;
    Ok((all, tops_of(alloc, kept.as_slice(), &modules)?.len()))
}

#[test]
fn a_module_only_instantiated_on_a_cycle_is_a_top(rt: HostRuntime) -> Result<(), Fail> {
    let files = [read::file(
        &rt,
        rt.alloc(),
        b"module m; n u(); endmodule module n; m u(); endmodule",
    )?];
    let mut found = None;
    assert_eq!(rt; top_counts(rt.alloc(), &files, &mut found)?, (0, 2));
    assert_eq!(rt; found, Some(at(0, 3, 2)));
    Ok(())
}
