//! Types by the tables of ISO C.
use crate::{CBase, CType};

/// A base, its bits, its promoted type (ISO C 6.2.5, 6.3.1.1), and whether it is signed.
const BASES: [(CBase, u32, CBase, bool); 9] = [
    (CBase::Char, 8, CBase::Int, true),
    (CBase::UnsignedChar, 8, CBase::Int, false),
    (CBase::Short, 16, CBase::Int, true),
    (CBase::UnsignedShort, 16, CBase::Int, false),
    (CBase::Int, 32, CBase::Int, true),
    (CBase::UnsignedInt, 32, CBase::UnsignedInt, false),
    (CBase::LongLong, 64, CBase::LongLong, true),
    (CBase::UnsignedLongLong, 64, CBase::UnsignedLongLong, false),
    (CBase::Scope, 0, CBase::Scope, false),
];

#[test]
fn bases_have_the_widths_of_c(rt: HostRuntime) {
    for (base, width, promoted, signed) in BASES {
        assert_eq!(rt; base.width(), width, "{base:?}");
        assert_eq!(rt; base.promoted(), promoted, "{base:?}");
        assert_eq!(rt; base.is_signed(), signed, "{base:?}");
        assert_eq!(rt; CType::plain(base).is_number(), width != 0, "{base:?}");
    }
}

/// Two types and the one at which `+` works on them (ISO C 6.3.1.8).
const PAIRS: [(CBase, CBase, CBase); 8] = [
    (CBase::Char, CBase::Char, CBase::Int),
    (CBase::UnsignedShort, CBase::Short, CBase::Int),
    (CBase::Int, CBase::UnsignedInt, CBase::UnsignedInt),
    (CBase::UnsignedInt, CBase::Char, CBase::UnsignedInt),
    (CBase::UnsignedInt, CBase::LongLong, CBase::LongLong),
    (
        CBase::LongLong,
        CBase::UnsignedLongLong,
        CBase::UnsignedLongLong,
    ),
    (CBase::UnsignedLongLong, CBase::Int, CBase::UnsignedLongLong),
    (CBase::LongLong, CBase::Int, CBase::LongLong),
];

#[test]
fn two_types_meet_at_the_wider_one(rt: HostRuntime) {
    for (a, b, both) in PAIRS {
        assert_eq!(rt; a.common(b), both, "{a:?} {b:?}");
    }
}
