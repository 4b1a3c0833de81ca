//! The real files and streams: the edge that is trusted for what it reads and writes.
//!
//! Both tell nothing of what they hold or took, so no contract claims anything of it.

ghost use Rattle.std.specs.Prelude.{◌≡◌, ◌<◌, ◌≤◌, [], None, length, OnOk, IfSome, IsErrOf};
ghost use Rattle.std.specs.Io.KnownBytes.{Consumes, IsAtEnd};

use dpi_ports::{FetchFault, Files, Sink, SinkFault};
use std::alloc::Global;
use std::io::{Print, Read};
use std::{fs, rt};

const MOST_BYTES: usize = 1_048_576;

/// The files of the file system, by their paths. It counts its faults and tells nothing else.
#[derive(Drop)]
pub struct HostFiles<'a, R> {
    rt: &'a R,
    faults: u64,
}

impl<'a, R> HostFiles<'a, R> {
    /// The files that the runtime reaches.
    pub fn new(rt: &'a R) -> HostFiles<'a, R> {
        HostFiles { rt, faults: 0 }
    }
}

// the whole of a file, in turns of at least one byte each
fn read_whole<F: Read>(file: &mut F, into: &mut Vec<u8>) -> Result<(), FetchFault>
    requires { into.old.items ≡ [] }
    ensures within { OnOk result (length into.new.items ≤ 1_048_576) }
    ensures whole { OnOk result (Consumes (F.remaining file.old) (F.remaining file.new) into.new.items) }
    ensures end { OnOk result (IsAtEnd (F.remaining file.new)) }
    ensures too_long { IsErrOf result FetchFault.TooLong → IfSome (F.remaining file.old) (λ bytes. 1_048_576 < length bytes) }
{
    let mut buffer = [0; 4096];
    for _ in 0..=MOST_BYTES {
        let count = match file.read(&mut buffer) {
            Ok(count) => count,
            Err(_) => return Err(FetchFault::Failed),
        };
        if count == 0 {
            return Ok(());
        }
        if count > MOST_BYTES - into.len() {
            return Err(FetchFault::TooLong);
        }
        if into.extend_from_slice(&buffer[..count]).is_err() {
            return Err(FetchFault::NoMemory);
        }
    }
    Err(FetchFault::TooLong)
}

impl<R: rt::Files> Files for HostFiles<'_, R> {
    ghost told = { λ _. None };

    ghost faults = { λ f. f.faults };

    ghost last_fault = { λ _. None };

    fn fetch(&mut self, _alloc: Global, name: &str, into: &mut Vec<u8>) -> Result<(), FetchFault> {
        let answer = match fs::open(self.rt, name) {
            Ok(mut file) => read_whole(&mut file, into),
            Err(_) => Err(FetchFault::Failed),
        };
        if answer == Err(FetchFault::Failed) {
            self.faults = self.faults.saturating_add(1);
        }
        if answer.is_err() {
            into.clear();
        }
        answer
    }
}

/// A stream of bytes to the outside. It counts its faults, a write of no bytes among them, and
/// tells nothing else. It takes no memory.
#[derive(Drop)]
pub struct HostSink<P> {
    to: P,
    faults: u64,
}

impl<P> HostSink<P> {
    /// The sink of that stream.
    pub fn new(to: P) -> HostSink<P> {
        HostSink { to, faults: 0 }
    }
}

impl<P: Print> Sink for HostSink<P> {
    ghost told = { λ _. None };

    ghost faults = { λ s. s.faults };

    fn write(&mut self, piece: &[u8]) -> Result<usize, SinkFault> {
        match self.to.write_some(piece) {
            Ok(count) if count > 0 => Ok(count),
            _ => {
                self.faults = self.faults.saturating_add(1);
                Err(SinkFault::Failed)
            }
        }
    }
}
