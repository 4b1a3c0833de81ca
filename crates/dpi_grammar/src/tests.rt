use crate::Stop;
use dpi_ports::NoMemory;
use std::alloc::AllocError;
use std::rt::HostRuntime;

#[test]
fn want_of_memory_stops_a_parser_as_such(rt: HostRuntime) {
    assert_eq!(rt; Stop::from(AllocError), Stop::Memory);
    assert_eq!(rt; Stop::from(NoMemory), Stop::Memory);
}
