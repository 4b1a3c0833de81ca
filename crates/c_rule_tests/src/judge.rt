//! Rows by ISO C 6.4 to 6.7 and by the declarations of IEEE 1800-2017, Annex I.
use crate::read;
use c_base::CBase;
use c_initial::Part;
use c_judge::{Around, Side, call_value, grouped, is_number, judge_expr, parameter, part_of};
use c_library::call_named;
use c_names::{Callee, Scopes};
use c_tree::AssignOperator;
use c_typing::{Operand, number};
use dpi_rules::Violation;

fn side(token: u32, first: u32, value: Operand) -> Side {
    Side {
        token,
        first,
        operator: AssignOperator::Plain,
        value: Some(value),
    }
}

#[test]
fn assignments_group_from_the_right(rt: HostRuntime) {
    let of = number(b"0").of;
    let object = Operand::object(of, false);
    let constant = Operand::object(of, true);
    let mut found = None;
    // a = b = 0 with a const b is refused at the second sign, and the first one isn't looked at.
    let sides = [side(1, 2, constant), side(3, 4, number(b"0"))];
    assert!(rt; grouped(7, Some(constant), &sides, &mut found).is_none());
    let broken = Violation {
        file: 7,
        token: 3,
        rule: 12,
    };
    assert!(rt; found == Some(broken));
    let mut none = None;
    let sides = [side(1, 2, object), side(3, 4, number(b"0"))];
    assert!(rt; grouped(7, Some(object), &sides, &mut none) == Some(Operand::value(of)));
    assert!(rt; none.is_none());
}

#[test]
fn calls_of_svdpi_have_types(rt: HostRuntime) {
    let scopes = Scopes::new(rt.alloc());
    let around = Around {
        file: 0,
        scopes: &scopes,
        functions: &[],
    };
    let call = call_named(b"svSetScope").map(Callee::Library);
    let first = parameter(&around, call, 0).expect(&rt, "a parameter");
    assert!(rt; first.base == CBase::Scope);
    assert!(rt; parameter(&around, call, 1).is_none());
    let arguments = [Some(number(b"40u"))];
    let words = call_value(&around, Some(Callee::WordCount), &arguments).expect(&rt, "a value");
    assert!(rt; words.of.base == CBase::UnsignedInt);
    assert!(rt; call_value(&around, Some(Callee::Function(0)), &[]).is_none());
}

#[test]
fn unknown_names_have_no_type(rt: HostRuntime) {
    let alloc = rt.alloc();
    let tree = read::file(&rt, alloc, b"int x = y;");
    let e = read::value(&tree, 0).expect(&rt, "a value");
    let scopes = Scopes::new(alloc);
    let around = Around {
        file: 2,
        scopes: &scopes,
        functions: &[],
    };
    let mut found = None;
    let value = judge_expr(alloc, &around, e, &mut found);
    assert!(rt; value.is_ok_and(|value| value.is_none()));
    let broken = Violation {
        file: 2,
        token: 3,
        rule: 2,
    };
    assert!(rt; found == Some(broken));
    assert!(rt; part_of(&around, e) == Part::Unknown);
    assert!(rt; !is_number(e));
}
