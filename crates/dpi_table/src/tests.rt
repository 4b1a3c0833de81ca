//! Tables of a few tokens.

use crate::{Table, Tables};
use dpi_ports::NoMemory;
use std::rt::HostRuntime;

#[test]
fn the_first_value_of_a_token_counts(rt: HostRuntime) -> Result<(), NoMemory> {
    let mut table = Table::new(rt.alloc());
    table.put(3, 30u8)?;
    table.put(1, 10)?;
    table.put(3, 40)?;
    assert_eq!(rt; table.get(3), Some(30));
    assert_eq!(rt; table.get(1), Some(10));
    assert_eq!(rt; table.get(0), None);
    assert_eq!(rt; table.get(4), None);
    Ok(())
}

#[test]
fn a_table_is_made_of_pairs(rt: HostRuntime) -> Result<(), NoMemory> {
    let table = Table::of(rt.alloc(), &[(2, true), (0, false), (2, false)])?;
    assert_eq!(rt; table.get(2), Some(true));
    assert_eq!(rt; table.get(0), Some(false));
    assert_eq!(rt; table.get(1), None);
    Ok(())
}

#[test]
fn files_have_tokens_of_their_own(rt: HostRuntime) -> Result<(), NoMemory> {
    let alloc = rt.alloc();
    let mut tables = Tables::new(alloc);
    tables.put(alloc, 2, 1, 21u8)?;
    tables.put(alloc, 0, 1, 1)?;
    tables.put(alloc, 2, 1, 22)?;
    assert_eq!(rt; tables.get(2, 1), Some(21));
    assert_eq!(rt; tables.get(0, 1), Some(1));
    assert_eq!(rt; tables.get(1, 1), None);
    assert_eq!(rt; tables.get(3, 1), None);
    Ok(())
}
