//! Formats with their pieces, by IEEE 1800-2017, 21.2.1, and ISO C 7.21.6.1.

use crate::{
    CLetter, CNumber, CPiece, FormatFault, SvLetter, SvNumber, SvPiece, c_format,
    formats_are_unambiguous, sv_format,
};
use std::test::Fail;

/// A format of `$display` with its pieces.
const DISPLAYED: &[(&[u8], &[SvPiece])] = &[
    (b"", &[]),
    (
        b"a=%d\n",
        &[
            SvPiece::Byte(b'a'),
            SvPiece::Byte(b'='),
            SvPiece::Number(SvNumber {
                zero: false,
                letter: SvLetter::D,
            }),
            SvPiece::Byte(b'\n'),
        ],
    ),
    (
        b"%b%0b%h%0h",
        &[
            SvPiece::Number(SvNumber {
                zero: false,
                letter: SvLetter::B,
            }),
            SvPiece::Number(SvNumber {
                zero: true,
                letter: SvLetter::B,
            }),
            SvPiece::Number(SvNumber {
                zero: false,
                letter: SvLetter::H,
            }),
            SvPiece::Number(SvNumber {
                zero: true,
                letter: SvLetter::H,
            }),
        ],
    ),
    (
        b"%x%0x%0d",
        &[
            SvPiece::Number(SvNumber {
                zero: false,
                letter: SvLetter::X,
            }),
            SvPiece::Number(SvNumber {
                zero: true,
                letter: SvLetter::X,
            }),
            SvPiece::Number(SvNumber {
                zero: true,
                letter: SvLetter::D,
            }),
        ],
    ),
    (b"%s", &[SvPiece::Text]),
    (b"%%d", &[SvPiece::Percent, SvPiece::Byte(b'd')]),
    (
        b"%%%d",
        &[
            SvPiece::Percent,
            SvPiece::Number(SvNumber {
                zero: false,
                letter: SvLetter::D,
            }),
        ],
    ),
    (
        b"\x00%dd\xff",
        &[
            SvPiece::Byte(0),
            SvPiece::Number(SvNumber {
                zero: false,
                letter: SvLetter::D,
            }),
            SvPiece::Byte(b'd'),
            SvPiece::Byte(255),
        ],
    ),
];

#[test]
fn formats_of_display_have_their_pieces(rt: HostRuntime) -> Result<(), Fail> {
    for &(bytes, pieces) in DISPLAYED {
        let read = sv_format(rt.alloc(), bytes)?;
        assert_eq!(rt; read.as_slice(), pieces, "{bytes:?}");
    }
    Ok(())
}

/// No formats of `$display`.
const NOT_DISPLAYED: &[&[u8]] = &[
    b"%", b"a%", b"%%%", b"%0", b"%0s", b"%0%", b"%00d", b"%5d", b"%D", b"%0X", b"%c", b"%s% d",
];

#[test]
fn other_bytes_are_no_format_of_display(rt: HostRuntime) {
    for &bytes in NOT_DISPLAYED {
        let refused = matches!(&sv_format(rt.alloc(), bytes), Err(FormatFault::Unknown));
        assert!(rt; refused, "{bytes:?}");
    }
}

/// A letter with the base that it stands for.
const BASES: &[(SvLetter, u8)] = &[
    (SvLetter::B, 2),
    (SvLetter::D, 10),
    (SvLetter::H, 16),
    (SvLetter::X, 16),
];

#[test]
fn letters_stand_for_bases(rt: HostRuntime) {
    for &(letter, base) in BASES {
        assert_eq!(rt; letter.base(), base);
    }
}

/// A format of `printf` with its pieces.
const PRINTED: &[(&[u8], &[CPiece])] = &[
    (b"", &[]),
    (b"\0%q", &[]),
    (
        b"x %d\0%",
        &[
            CPiece::Byte(b'x'),
            CPiece::Byte(b' '),
            CPiece::Number(CNumber {
                zero: false,
                width: None,
                long: false,
                letter: CLetter::D,
            }),
        ],
    ),
    (
        b"%s%c%%s",
        &[
            CPiece::Text,
            CPiece::Character,
            CPiece::Percent,
            CPiece::Byte(b's'),
        ],
    ),
    (
        b"%u%x%lld",
        &[
            CPiece::Number(CNumber {
                zero: false,
                width: None,
                long: false,
                letter: CLetter::U,
            }),
            CPiece::Number(CNumber {
                zero: false,
                width: None,
                long: false,
                letter: CLetter::X,
            }),
            CPiece::Number(CNumber {
                zero: false,
                width: None,
                long: true,
                letter: CLetter::D,
            }),
        ],
    ),
    (
        b"%08x",
        &[CPiece::Number(CNumber {
            zero: true,
            width: Some(8),
            long: false,
            letter: CLetter::X,
        })],
    ),
    (
        b"%0llu%5d",
        &[
            CPiece::Number(CNumber {
                zero: true,
                width: None,
                long: true,
                letter: CLetter::U,
            }),
            CPiece::Number(CNumber {
                zero: false,
                width: Some(5),
                long: false,
                letter: CLetter::D,
            }),
        ],
    ),
    (
        b"%99llx",
        &[CPiece::Number(CNumber {
            zero: false,
            width: Some(99),
            long: true,
            letter: CLetter::X,
        })],
    ),
    (
        b"%10d%01d",
        &[
            CPiece::Number(CNumber {
                zero: false,
                width: Some(10),
                long: false,
                letter: CLetter::D,
            }),
            CPiece::Number(CNumber {
                zero: true,
                width: Some(1),
                long: false,
                letter: CLetter::D,
            }),
        ],
    ),
    (
        b"%d0%090lldl",
        &[
            CPiece::Number(CNumber {
                zero: false,
                width: None,
                long: false,
                letter: CLetter::D,
            }),
            CPiece::Byte(b'0'),
            CPiece::Number(CNumber {
                zero: true,
                width: Some(90),
                long: true,
                letter: CLetter::D,
            }),
            CPiece::Byte(b'l'),
        ],
    ),
];

#[test]
fn formats_of_printf_have_their_pieces(rt: HostRuntime) -> Result<(), Fail> {
    for &(bytes, pieces) in PRINTED {
        let read = c_format(rt.alloc(), bytes)?;
        assert_eq!(rt; read.as_slice(), pieces, "{bytes:?}");
    }
    Ok(())
}

/// No formats of `printf`.
const NOT_PRINTED: &[&[u8]] = &[
    b"%", b"%0", b"%5", b"%l", b"%ll", b"%\0d", b"%00d", b"%100d", b"%0100d", b"%ld", b"%llld",
    b"%5s", b"%0c", b"%lls", b"%D", b"%i",
];

#[test]
fn other_bytes_are_no_format_of_printf(rt: HostRuntime) {
    for &bytes in NOT_PRINTED {
        let refused = matches!(&c_format(rt.alloc(), bytes), Err(FormatFault::Unknown));
        assert!(rt; refused, "{bytes:?}");
    }
}

#[test]
fn laws_can_be_called() {
    formats_are_unambiguous();
}
