//! A list of two numbers.
use crate::{Numbered, next};
use dpi_ports::NoMemory;
use std::rt::HostRuntime;

#[test]
fn entries_are_numbered_from_zero(rt: HostRuntime) -> Result<(), NoMemory> {
    let mut entries = Vec::new(rt.alloc());
    entries.push(7u8)?;
    entries.push(9)?;
    let list = Numbered::new(entries)?;
    assert_eq!(rt; list.len(), 2);
    assert!(rt; list.len() > 1);
    assert_eq!(rt; *list.get(1), 9);
    assert_eq!(rt; list.as_slice(), [7u8, 9].as_slice());
    Ok(())
}

#[test]
fn there_is_no_number_of_more_than_32_bits(rt: HostRuntime) {
    assert_eq!(rt; next(7), Ok(8));
    assert_eq!(rt; next(u32::MAX), Err(NoMemory));
}
