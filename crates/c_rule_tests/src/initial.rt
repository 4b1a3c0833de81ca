//! Initialisers of objects that last, by ISO C 6.6 and 6.7.9.
use c_initial::{Part, called, grouped, indexed, is_initial, prefixed};
use c_tree::UnaryOperator;

/// A prefix, the part behind it, and whether an object may begin with both.
const PREFIXED: &[(UnaryOperator, Part, bool)] = &[
    (UnaryOperator::Minus, Part::Token, true),
    (UnaryOperator::Tilde, Part::Token, false),
    (UnaryOperator::And, Part::Object, true),
    (UnaryOperator::And, Part::Element, true),
    (UnaryOperator::And, Part::Array, false),
    (UnaryOperator::And, Part::Unknown, true),
    (UnaryOperator::Minus, Part::Unknown, false),
];

#[test]
fn prefix_of_a_number_or_an_object(rt: HostRuntime) {
    for &(operator, part, may) in PREFIXED {
        assert!(rt;
            is_initial(prefixed(operator, part)) == may,
            "{operator:?} {part:?}"
        );
    }
}

#[test]
fn words_of_a_number_token_alone(rt: HostRuntime) {
    assert!(rt; is_initial(called(true, &[Part::Token])));
    assert!(rt; !is_initial(called(true, &[grouped(Part::Token)])));
    assert!(rt; !is_initial(called(false, &[Part::Token])));
    assert!(rt; indexed(Part::Array, Part::Number) == Part::Element);
    assert!(rt; !is_initial(indexed(Part::Array, Part::Number)));
}
