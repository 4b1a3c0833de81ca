//! A sink in memory that fails at chosen writes.

ghost use Rattle.std.specs.Prelude.{◌≡◌, ◌≢◌, ◌<◌, ◌≤◌, ◌↔◌, ℕ, [], Some, None, Option, Contains, length, take, ◌++◌, IfOk, OnOk, OnErr, IsErrOf};
ghost use Rattle.dpi_ports.specs.Told.{HasRisen};
ghost use Rattle.dpi_ports.specs.Fakes.{next_number, at_most};

use crate::{Sink, SinkFault};
use std::alloc::Global;
use std::marker::Model;

/// Keeps what it takes, and fails at the writes whose numbers, from 1, it was given.
#[derive(Drop)]
pub struct MemorySink {
    taken: Vec<u8>,
    fails: Vec<u64>,
    most: Option<usize>,
    writes: u64,
    faults: u64,
}

impl Model for MemorySink {
    ghost use Rattle.std.specs.Prelude.{◌<◌};
    ghost use Rattle.std.specs.Option.{ForSome};
    ghost use Rattle.dpi_ports.specs.Fakes.{SinkState};

    ghost Value = { SinkState };

    ghost view = { λ s. record { taken = s.taken.items; fails = s.fails.items; most = s.most; writes = s.writes; faults = s.faults } };

    ghost invariant = { λ s. ForSome s.most (λ m. 0 < m) };
}

impl MemorySink {
    /// A sink that took nothing yet. It fails at the writes with these numbers, from 1, and takes
    /// at most `most` bytes in one write where that is given; `most` isn't 0.
    pub fn new(alloc: Global, fails: Vec<u64>, most: Option<usize>) -> MemorySink
        requires { most ≢ Some 0 }
        ensures { result ≡ record { taken = []; fails = fails.items; most = most; writes = 0; faults = 0 } }
    {
        MemorySink {
            taken: Vec::new(alloc),
            fails,
            most,
            writes: 0,
            faults: 0,
        }
    }

    /// The bytes that it took.
    pub fn bytes(&self) -> &[u8]
        ensures { result.now ≡ self.now.taken }
    {
        &self.taken
    }
}

impl Sink for MemorySink {
    ghost use Rattle.std.specs.Prelude.{Some};

    ghost told = { λ s. Some s.taken };

    ghost faults = { λ s. s.faults };

    /// Takes the whole piece, or its first `most` bytes where that is given and the piece is
    /// longer. `SinkFault::Failed` comes exactly at the numbers at which it was to fail.
    fn write(&mut self, piece: &[u8]) -> Result<usize, SinkFault>
        requires { 0 < length piece.now }
        ensures some { IfOk result (λ n. 0 < n) }
        ensures most { IfOk result (λ n. n ≡ at_most self.old.most (length piece.now)) }
        ensures ok { IfOk result (λ n. self.new.taken ≡ self.old.taken ++ take n piece.now) }
        ensures err { OnErr result (self.new.taken ≡ self.old.taken) }
        ensures later { self.old.faults ≤ self.new.faults }
        ensures risen { IsErrOf result SinkFault.Failed → HasRisen self.old.faults self.new.faults }
        ensures failed { IsErrOf result SinkFault.Failed ↔ Contains self.old.fails (next_number self.old.writes) }
        ensures counted { self.new.writes ≡ next_number self.old.writes }
        ensures set { (self.new.fails ≡ self.old.fails) × (self.new.most ≡ self.old.most) }
    {
        self.writes = self.writes.saturating_add(1);
        if self.fails.contains(&self.writes) {
            self.faults = self.faults.saturating_add(1);
            return Err(SinkFault::Failed);
        }
        let count = match self.most {
            Some(most) => piece.len().min(most),
            None => piece.len(),
        };
        match self.taken.extend_from_slice(&piece[..count]) {
            Ok(()) => Ok(count),
            Err(_) => Err(SinkFault::NoMemory),
        }
    }
}
