//! What is kept of several violations, in each order of noting.
use crate::{
    CheckFault, Violation, answer, join, joined_is_least, least_is_least, note, order_is_total,
};
use dpi_ports::NoMemory;
use std::alloc::AllocError;
use std::rt::HostRuntime;

const fn at(file: u32, token: u32, rule: u8) -> Violation {
    Violation { file, token, rule }
}

/// Rising by file, then token, then rule, as a reader of the files would meet them.
const RISING: [(u32, u32, u8); 7] = [
    (0, 3, 30),
    (0, 4, 1),
    (0, 4, 13),
    (0, 4, 17),
    (0, 1048576, 1),
    (1, 0, 5),
    (2, 0, 4),
];

#[test]
fn a_violation_is_before_those_behind_it_alone(rt: HostRuntime) {
    for (line, left) in RISING.iter().enumerate() {
        for (other, right) in RISING.iter().enumerate() {
            assert_eq!(rt;
                at(left.0, left.1, left.2).is_before(at(right.0, right.1, right.2)),
                line < other,
                "{line} {other}"
            );
        }
    }
    order_is_total();
}

#[test]
fn the_first_place_and_there_the_least_rule_is_kept(rt: HostRuntime) {
    let mut found = None;
    note(&mut found, at(1, 2, 16));
    assert_eq!(rt; found, Some(at(1, 2, 16)));
    note(&mut found, at(0, 9, 17));
    note(&mut found, at(0, 9, 13));
    note(&mut found, at(0, 9, 19));
    note(&mut found, at(0, 10, 1));
    assert_eq!(rt; found, Some(at(0, 9, 13)));
    least_is_least();
}

#[test]
fn what_was_found_elsewhere_counts_where_it_stands_first(rt: HostRuntime) {
    let mut found = None;
    join(&mut found, None);
    assert_eq!(rt; found, None);
    join(&mut found, Some(at(3, 5, 8)));
    join(&mut found, None);
    assert_eq!(rt; found, Some(at(3, 5, 8)));
    join(&mut found, Some(at(3, 6, 1)));
    assert_eq!(rt; found, Some(at(3, 5, 8)));
    join(&mut found, Some(at(3, 4, 9)));
    assert_eq!(rt; found, Some(at(3, 4, 9)));
    joined_is_least();
}

#[test]
fn a_checker_refuses_only_what_it_found(rt: HostRuntime) {
    assert_eq!(rt; answer(7u32, None), Ok(7));
    assert_eq!(rt;
        answer(7u32, Some(at(0, 2, 5))),
        Err(CheckFault::Violation(at(0, 2, 5)))
    );
}

#[test]
fn want_of_memory_is_told_as_such(rt: HostRuntime) {
    assert_eq!(rt; CheckFault::from(AllocError), CheckFault::NoMemory);
    assert_eq!(rt; CheckFault::from(NoMemory), CheckFault::NoMemory);
}
