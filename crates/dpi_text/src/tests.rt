//! Fault lines, written out by hand.

use crate::fault_line;
use std::test::Fail;

/// What stood before, file, line, column, code, and all bytes afterwards.
const LINES: [(&str, &str, u32, u32, &str, &str); 4] = [
    ("", "m.sv", 2, 9, "Syntax", "m.sv:2:9: Syntax\n"),
    (
        "",
        "m.c",
        1,
        34,
        "trap SignedOverflow",
        "m.c:1:34: trap SignedOverflow\n",
    ),
    (
        "5\n",
        "a:b.sv",
        1_048_577,
        10,
        "S5",
        "5\na:b.sv:1048577:10: S5\n",
    ),
    ("", "", 0, u32::MAX, "", ":0:4294967295: \n"),
];

#[test]
fn a_fault_line_names_file_line_column_and_code(rt: HostRuntime) -> Result<(), Fail> {
    for (before, file, line, column, code, wanted) in LINES {
        let mut into = Vec::from_slice(rt.alloc(), before.as_bytes())?;
        fault_line(
            rt.alloc(),
            file.as_bytes(),
            line,
            column,
            code.as_bytes(),
            &mut into,
        )?;
        assert_eq!(rt; into.as_slice(), wanted.as_bytes());
    }
    Ok(())
}
