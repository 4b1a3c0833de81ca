//! Labels behind what they close. Tokens are counted from 0 by hand.

use crate::read;
use dpi_rules::Violation;
use std::rt::HostRuntime;
use std::test::Fail;
use sv_forms::note_file;

#[test]
fn closing_labels_repeat_the_name(rt: HostRuntime) -> Result<(), Fail> {
    let mut found = None;
    note_file(
        6,
        &read::file(&rt, rt.alloc(), b"module m; endmodule : m")?,
        &mut found,
    );
    assert_eq!(rt; found, None);
    note_file(
        6,
        &read::file(&rt, rt.alloc(), b"module m; endmodule : n")?,
        &mut found,
    );
    let broken = Violation {
        file: 6,
        token: 5,
        rule: 7,
    };
    assert_eq!(rt; found, Some(broken));
    Ok(())
}
