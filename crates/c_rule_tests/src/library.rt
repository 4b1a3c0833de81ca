//! Rows by the declarations of IEEE 1800-2017, Annex I.
use c_base::{CBase, CType};
use c_library::{call_named, is_reserved, note_count, scalar_named, word_count};
use dpi_rules::Violation;

/// Whether a type is const, its base and its stars.
type Row = (bool, CBase, u8);

fn of((base_const, base, stars): Row) -> CType {
    CType {
        base,
        base_const,
        stars,
        inner_const: false,
    }
}

/// A name, the type of its result, and the fewest and the most arguments.
const CALLS: &[(&[u8], Row, u32, u32)] = &[
    (b"svIncrement", (false, CBase::Int, 0), 2, 2),
    (b"svGetArrElemPtr", (false, CBase::Void, 1), 2, 4),
    (b"svGetArrElemPtr3", (false, CBase::Void, 1), 4, 4),
    (b"svPutLogicArrElem", (false, CBase::Void, 0), 3, 5),
    (b"svGetBitArrElem2VecVal", (false, CBase::Void, 0), 4, 4),
    (b"svGetNameFromScope", (true, CBase::Char, 1), 1, 1),
    (b"svAckDisabledState", (false, CBase::Void, 0), 0, 0),
];

#[test]
fn calls_are_declared_so(rt: HostRuntime) {
    for &(name, result, least, most) in CALLS {
        let call = call_named(name).expect(&rt, "a call");
        let told = (call.result(), call.least_arguments(), call.most_arguments());
        assert!(rt; told == (of(result), least, most), "{name:?}");
        let mut found: Option<Violation> = None;
        note_count(0, 0, call, most + 1, &mut found);
        assert!(rt;
            call.parameter(most).is_none() && found.is_some(),
            "{name:?}"
        );
    }
}

/// A name, a parameter counted from 0, and its type.
const PARAMETERS: &[(&[u8], u32, Row)] = &[
    (b"svPutBitArrElem1VecVal", 1, (true, CBase::UnsignedInt, 1)),
    (b"svPutPartselLogic", 1, (false, CBase::LogicVec, 0)),
    (b"svGetPartselLogic", 1, (true, CBase::LogicVec, 1)),
    (b"svPutBitselBit", 2, (false, CBase::UnsignedChar, 0)),
    (b"svGetCallerInfo", 0, (true, CBase::Char, 2)),
];

#[test]
fn parameters_have_their_types(rt: HostRuntime) {
    for &(name, place, row) in PARAMETERS {
        let call = call_named(name).expect(&rt, "a call");
        assert!(rt; call.parameter(place) == Some(of(row)), "{name:?}");
    }
}

/// Names, and whether they may be declared.
const NAMES: &[(&[u8], bool)] = &[
    (b"printf", false),
    (b"sv_x", false),
    (b"SV_PACKED_DATA_NELEMS", false),
    (b"svSize", false),
    (b"svGetArrElemPtr4", true),
    (b"svsize", true),
];

#[test]
fn names_of_svdpi_are_reserved(rt: HostRuntime) {
    for &(name, free) in NAMES {
        assert!(rt; is_reserved(name) != free, "{name:?}");
    }
    assert!(rt; scalar_named(b"sv_z") == Some(2));
    assert!(rt; word_count(b"65").value == 3);
    assert!(rt; word_count(b"0xffffffffffffffff").value == 576_460_752_303_423_488);
}
