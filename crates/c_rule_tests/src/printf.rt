//! Formats and one argument each, by ISO C 7.21.6.1.
use c_base::{CBase, CType};
use c_printf::text_fits;
use c_typing::Operand;

/// A string token, the base and the stars of an argument, and whether they fit.
const ROWS: &[(&[u8], CBase, u8, bool)] = &[
    (b"\"%05d\\n\"", CBase::Char, 0, true),
    (b"\"%lld\"", CBase::Int, 0, false),
    (b"\"%llx\"", CBase::UnsignedLongLong, 0, true),
    (b"\"%s\"", CBase::Char, 1, true),
    (b"\"%s\"", CBase::Void, 1, false),
    (b"\"%c\"", CBase::UnsignedInt, 0, false),
    (b"\"%5s\"", CBase::Char, 1, false),
    (b"\"%%\"", CBase::Int, 0, false),
    (b"\"%d %d\"", CBase::Int, 0, false),
];

#[test]
fn arguments_fit_their_letters(rt: HostRuntime) {
    for &(text, base, stars, fits) in ROWS {
        let of = CType {
            base,
            base_const: true,
            stars,
            inner_const: false,
        };
        let arguments = [Some(Operand::value(of))];
        let given = text_fits(rt.alloc(), text, &arguments);
        assert!(rt; given == Ok(fits), "{text:?}");
    }
}

#[test]
fn argument_without_type_fits_each_letter(rt: HostRuntime) {
    let given = text_fits(rt.alloc(), b"\"%s\"", &[None]);
    assert!(rt; given.is_ok_and(|given| given));
}
