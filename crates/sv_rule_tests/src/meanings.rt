//! A block with what it tells. Tokens are counted from 0 by hand.

use crate::read;
use std::rt::HostRuntime;
use std::test::Fail;
use sv_facts::{Fact, Meant};
use sv_meanings::facts_of;

#[test]
fn a_disabled_block_is_the_one_around(rt: HostRuntime) -> Result<(), Fail> {
    let file = read::file(
        &rt,
        rt.alloc(),
        b"module m; initial begin : b disable b; end endmodule",
    )?;
    let list = facts_of(rt.alloc(), 0, &file)?;
    let told = [
        Fact::Name(1, Meant::Module),
        Fact::Name(6, Meant::Block(6)),
        Fact::Name(8, Meant::Block(6)),
    ];
    assert!(rt; list.as_slice() == told.as_slice());
    Ok(())
}
