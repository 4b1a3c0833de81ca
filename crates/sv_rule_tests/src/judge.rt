//! Actuals of formals with an open packed part, by IEEE 1800-2017, 35.5.6.1, worked by hand.

use crate::read;
use dpi_ports::NoMemory;
use dpi_rules::Violation;
use dpi_shape::{Leaf, Range, Shape};
use std::alloc::Global;
use std::rt::HostRuntime;
use std::test::Fail;
use sv_inside::imports_of;
use sv_judge::{Form, Passing, Place, Whole, judge_call, note_passed, other};
use sv_names::{Scopes, module_scope};
use sv_shapes::{FormalKind, OpenDims, OpenLeaf};
use sv_tree::{Call, Direction, Item, Module, Stmt};
use sv_typing::{Selected, read as read_of};

/// `bit []`
const ANY_BITS: FormalKind = FormalKind::Open {
    leaf: OpenLeaf::AnyBit { signed: false },
    dims: OpenDims::Zero,
};

/// `byte`
const BYTE: Leaf = Leaf::Byte { signed: true };

/// `bit [7:0]`
const BITS: Leaf = Leaf::BitVec {
    range: Range { left: 7, right: 0 },
    signed: false,
};

fn at(token: u32, rule: u8) -> Option<Violation> {
    Some(Violation {
        file: 2,
        token,
        rule,
    })
}

/// What so many indices of a variable of this leaf and these dimensions name.
fn named(leaf: Leaf, dims: &[Range], taken: u32) -> Option<Selected> {
    let shape = Shape::new(leaf, dims)?;
    Some(Selected::Cells { shape, taken })
}

/// A leaf of a variable, or of an array of which an element is selected, and the rule that a name
/// breaks as an actual of `input bit []`.
const NAMED: &[(Leaf, bool, Option<u8>)] = &[
    (BITS, false, None),
    (BITS, true, None),
    (BYTE, false, Some(14)),
    (BYTE, true, Some(14)),
];

#[test]
fn an_element_is_as_plain_as_a_variable(rt: HostRuntime) {
    let one = [Range { left: 0, right: 3 }];
    for &(leaf, element, rule) in NAMED {
        let selected = if element {
            named(leaf, &one, 1)
        } else {
            named(leaf, &[], 0)
        };
        let passing = Passing {
            direction: Direction::Input,
            formal: Some(ANY_BITS),
        };
        let actual = Whole {
            value: read_of(selected),
            form: Form::Place(selected),
        };
        let mut found = None;
        note_passed(2, 5, Some(passing), actual, &mut found);
        assert_eq!(rt; found.map(|v| v.rule), rule, "{leaf:?} {element}");
        let mut found = None;
        note_passed(2, 5, Some(passing), other(actual.value), &mut found);
        assert_eq!(rt; found, None, "{leaf:?} that isn't plain");
    }
}

#[test]
fn an_open_output_takes_names_alone(rt: HostRuntime) {
    let passing = Passing {
        direction: Direction::Output,
        formal: Some(ANY_BITS),
    };
    let mut found = None;
    note_passed(
        2,
        5,
        Some(passing),
        other(read_of(named(BITS, &[], 0))),
        &mut found,
    );
    assert_eq!(rt; found, at(5, 13));
}

/// Whether a call in a module has a value, and what it breaks.
fn judged(
    alloc: Global,
    module: &Module,
    call: &Call,
) -> Result<(bool, Option<Violation>), NoMemory> {
    let mut found = None;
    let mut scopes = Scopes::new(alloc);
    scopes.enter(module_scope(alloc, 2, module, &mut found)?)?;
    let imports = imports_of(alloc, 2, module.items.as_slice())?;
    let place = Place {
        file: 2,
        scopes: &scopes,
        subroutines: &[],
        imports: imports.as_slice(),
        in_function: false,
    };
    let value = judge_call(alloc, &place, call, true, &mut found)?;
    Ok((value.is_some(), found))
}

#[test]
fn a_byte_is_no_bit_with_a_range(rt: HostRuntime) -> Result<(), Fail> {
    let file = read::file(
        &rt,
        rt.alloc(),
        b"module m; byte v; import \"DPI-C\" function void f(input bit [] a);
          initial f(v); endmodule",
    )?;
    let Some(module) = file.modules.get(0) else {
        panic!(rt; "no module");
    };
    let Some(Item::Initial(_, Stmt::Call(call))) = module.items.get(2) else {
        panic!(rt; "no call");
    };
    assert_eq!(rt; judged(rt.alloc(), module, call)?, (false, at(22, 14)));
    Ok(())
}
