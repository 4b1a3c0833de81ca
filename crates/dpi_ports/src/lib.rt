//! What the host asks of the world around it: files, sinks, and a count of touched cells.
//!
//! Contents and pieces are lists of bytes. A file source and a sink count their faults, so that a
//! caller can show that an answer of failure comes from a fault of this very call and from nothing
//! else. What a source holds and what a sink took are told to contracts, where they are told at all.
//! Stated in `specs/Told.antt`; the fakes over memory are for tests, and `dpirun` has the real ones.
#![tactic(auto)]

mod clean_sink;
mod files;
mod ledger;
mod memory_files;
mod memory_sink;
mod no_memory;
mod sink;
#[cfg(test)]
mod tests;

pub use clean_sink::CleanSink;
pub use files::{FetchFault, Files};
pub use ledger::{Ledger, PlainLedger, Steps};
pub use memory_files::MemoryFiles;
pub use memory_sink::MemorySink;
pub use no_memory::NoMemory;
pub use sink::{Sink, SinkFault, put_all};
