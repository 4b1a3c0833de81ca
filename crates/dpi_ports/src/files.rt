//! A source of files.

ghost use Rattle.std.specs.Prelude.{◌≡◌, ◌≢◌, ◌≤◌, ℕ, List, [], Option, length, IfSome, OnOk, OnErr, IsErrOf};
ghost use Rattle.dpi_ports.specs.Told.{Contents, HasRisen, Holds, HoldsMore};

use std::alloc::Global;
use thiserror::Error;

/// Why a file was not fetched.
#[derive(Clone, Copy, Debug, PartialEq, Eq, Error)]
pub enum FetchFault {
    /// The source failed, which it counted, or has no file of that name.
    #[error("the file could not be read")]
    Failed,
    /// The file has more than 1,048,576 bytes.
    #[error("the file has more than 1,048,576 bytes")]
    TooLong,
    /// No memory was found.
    #[error("out of memory")]
    NoMemory,
}

/// Gives files by name.
pub trait Files {
    /// The contents that the source has, where it tells them.
    ghost told: { Self → Option Contents };

    /// How often it failed.
    ghost faults: { Self → ℕ };

    /// The name at which it last failed, where it tells that.
    ghost last_fault: { Self → Option (List ℕ) };

    /// Reads the whole file of that name into `into`, which is empty, and stays so after a
    /// refusal. The contents don't change by it.
    ///
    /// `FetchFault::Failed` comes only where the count of faults rose in this call, and the last
    /// fault's name is then this one; `FetchFault::TooLong` exactly where the file has more than
    /// 1,048,576 bytes; each of the three answers can come in place of the other two where the
    /// source fails or finds no memory.
    fn fetch(&mut self, alloc: Global, name: &str, into: &mut Vec<u8>) -> Result<(), FetchFault>
        requires { into.old.items ≡ [] }
        ensures ok { OnOk result (Holds (told self.old) name.now into.new.items) }
        ensures within { OnOk result (length into.new.items ≤ 1_048_576) }
        ensures err { OnErr result (into.new.items ≡ []) }
        ensures kept { told self.new ≡ told self.old }
        ensures later { faults self.old ≤ faults self.new }
        ensures failed { IsErrOf result FetchFault.Failed → HasRisen (faults self.old) (faults self.new) }
        ensures named { IsErrOf result FetchFault.Failed → IfSome (last_fault self.new) (λ n. n ≡ name.now) }
        ensures unnamed { result ≢ Err FetchFault.Failed → last_fault self.new ≡ last_fault self.old }
        ensures too_long { IsErrOf result FetchFault.TooLong → HoldsMore (told self.old) name.now 1_048_576 };
}
