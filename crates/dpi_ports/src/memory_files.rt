//! Files in memory that fail at chosen fetches.

ghost use Rattle.std.specs.Prelude.{◌≡◌, ◌≢◌, ◌≤◌, ℕ, List, [], None, Some, Option, length, IfSome, OnOk, OnErr, IsErr, IsErrOf};
ghost use Rattle.std.specs.String.{string_bytes};
ghost use Rattle.dpi_ports.specs.Told.{Contents, HasRisen, Holds, HoldsMore};

use crate::{FetchFault, Files, NoMemory};
use std::alloc::Global;
use std::collections::BTreeMap;

/// Files by name. It fails at the fetches whose numbers, from 1, it was given, and at a name that
/// isn't there.
#[derive(Drop)]
pub struct MemoryFiles {
    files: BTreeMap<String, Vec<u8>>,
    fails: Vec<u64>,
    fetches: u64,
    faults: u64,
    last: Option<String>,
}

impl MemoryFiles {
    ghost use Rattle.dpi_ports.specs.FilesInMemory.{contents_of, fails_of, fetches_of, faults_of, last_of, replaced};

    /// No files. It fails at the fetches with these numbers, from 1.
    pub fn new(alloc: Global, fails: Vec<u64>) -> MemoryFiles
        ensures empty { (name : List ℕ) → contents_of result name ≡ None }
        ensures fails { fails_of result ≡ fails.items }
        ensures fresh { fetches_of result ≡ 0 }
        ensures clean { faults_of result ≡ 0 }
    {
        MemoryFiles {
            files: BTreeMap::new(alloc),
            fails,
            fetches: 0,
            faults: 0,
            last: None,
        }
    }

    /// Adds a file, in place of the one of that name if there was one. `NoMemory` leaves all as it
    /// was.
    pub fn add(&mut self, name: String, content: Vec<u8>) -> Result<(), NoMemory>
        ensures ok { OnOk result ((asked : List ℕ) →
            contents_of self.new asked ≡ replaced (contents_of self.old) (string_bytes name) content.items asked) }
        ensures err { OnErr result ((asked : List ℕ) → contents_of self.new asked ≡ contents_of self.old asked) }
        ensures fails { fails_of self.new ≡ fails_of self.old }
        ensures fetches { fetches_of self.new ≡ fetches_of self.old }
        ensures faults { faults_of self.new ≡ faults_of self.old }
        ensures last { last_of self.new ≡ last_of self.old }
    {
        self.files.insert(name, content)?;
        Ok(())
    }
}

impl MemoryFiles {
    ghost use Rattle.dpi_ports.specs.FilesInMemory.{contents_of, fails_of, fetches_of, faults_of, last_of};

    // counts a fault, and keeps the name at which it came
    fn fault(&mut self, alloc: Global, name: &str) -> FetchFault
        ensures named { result ≡ FetchFault.Failed → last_of self.new ≡ Some name.now }
        ensures risen { result ≡ FetchFault.Failed → HasRisen (faults_of self.old) (faults_of self.new) }
        ensures later { faults_of self.old ≤ faults_of self.new }
        ensures other { result ≢ FetchFault.Failed → self.new ≡ self.old }
        ensures short { result ≢ FetchFault.TooLong }
        ensures kept { contents_of self.new ≡ contents_of self.old }
        ensures fetches { fetches_of self.new ≡ fetches_of self.old }
        ensures fails { fails_of self.new ≡ fails_of self.old }
    {
        match String::from_str(alloc, name) {
            Ok(kept) => {
                self.faults = self.faults.saturating_add(1);
                self.last = Some(kept);
                FetchFault::Failed
            }
            Err(_) => FetchFault::NoMemory,
        }
    }
}

impl Files for MemoryFiles {
    ghost use Rattle.std.specs.Prelude.{Some};
    ghost use Rattle.dpi_ports.specs.FilesInMemory.{contents_of, fails_of, fetches_of, faults_of, last_of, IsFaulty};
    ghost use Rattle.dpi_ports.specs.Fakes.{next_number};

    ghost told = { λ f. Some (contents_of f) };

    ghost faults = { faults_of };

    ghost last_fault = { last_of };

    /// `FetchFault::Failed` comes exactly where this fetch is one at which it was to fail, or the
    /// name isn't there; or `FetchFault::NoMemory`, since it keeps the name.
    fn fetch(&mut self, alloc: Global, name: &str, into: &mut Vec<u8>) -> Result<(), FetchFault>
        requires { into.old.items ≡ [] }
        ensures ok { OnOk result (contents_of self.old name.now ≡ Some into.new.items) }
        ensures within { OnOk result (length into.new.items ≤ 1_048_576) }
        ensures err { OnErr result (into.new.items ≡ []) }
        ensures kept { contents_of self.new ≡ contents_of self.old }
        ensures later { faults_of self.old ≤ faults_of self.new }
        ensures failed { IsErrOf result FetchFault.Failed → HasRisen (faults_of self.old) (faults_of self.new) }
        ensures named { IsErrOf result FetchFault.Failed → last_of self.new ≡ Some name.now }
        ensures unnamed { result ≢ Err FetchFault.Failed → last_of self.new ≡ last_of self.old }
        ensures too_long { IsErrOf result FetchFault.TooLong → HoldsMore (Some (contents_of self.old)) name.now 1_048_576 }
        ensures faulty { IsErrOf result FetchFault.Failed → IsFaulty self.old name.now }
        ensures sound { IsFaulty self.old name.now → IsErr result × (result ≢ Err FetchFault.TooLong) }
        ensures counted { fetches_of self.new ≡ next_number (fetches_of self.old) }
        ensures set { fails_of self.new ≡ fails_of self.old }
    {
        self.fetches = self.fetches.saturating_add(1);
        if self.fails.contains(&self.fetches) {
            return Err(self.fault(alloc, name));
        }
        let Some(content) = self.files.get(name) else {
            return Err(self.fault(alloc, name));
        };
        if content.len() > 1_048_576 {
            return Err(FetchFault::TooLong);
        }
        match into.extend_from_slice(content) {
            Ok(()) => Ok(()),
            Err(_) => Err(FetchFault::NoMemory),
        }
    }
}
