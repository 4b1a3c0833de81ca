//! Where printed bytes go.

ghost use Rattle.std.specs.Prelude.{◌≡◌, ◌<◌, ◌≤◌, ℕ, List, Option, length, take, IfOk, OnOk, OnErr, IsErrOf};
ghost use Rattle.dpi_ports.specs.Told.{HasRisen, Takes, TakesFront};

use thiserror::Error;

/// Why a sink took no more.
#[derive(Clone, Copy, Debug, PartialEq, Eq, Error)]
pub enum SinkFault {
    /// The sink failed, which it counted.
    #[error("the sink failed")]
    Failed,
    /// No memory was found.
    #[error("out of memory")]
    NoMemory,
}

/// Takes bytes.
pub trait Sink {
    /// The bytes that it took so far, where it tells them.
    ghost told: { Self → Option (List ℕ) };

    /// How often it failed.
    ghost faults: { Self → ℕ };

    /// Takes the first bytes of the piece, which isn't empty, and answers how many: at least one.
    ///
    /// `SinkFault::Failed` comes only where the count of faults rose in this call. After a refusal
    /// nothing was taken.
    fn write(&mut self, piece: &[u8]) -> Result<usize, SinkFault>
        requires { 0 < length piece.now }
        ensures some { IfOk result (λ n. 0 < n) }
        ensures within { IfOk result (λ n. n ≤ length piece.now) }
        ensures ok { IfOk result (λ n. Takes (told self.old) (told self.new) (take n piece.now)) }
        ensures err { OnErr result (told self.new ≡ told self.old) }
        ensures later { faults self.old ≤ faults self.new }
        ensures failed { IsErrOf result SinkFault.Failed → HasRisen (faults self.old) (faults self.new) };
}

/// Has the sink take the whole piece, in as many writes as it needs: none for an empty piece.
///
/// `SinkFault::Failed` comes only where the count of faults rose in this call. After a refusal
/// some first bytes of the piece were taken.
pub fn put_all<K: Sink>(sink: &mut K, piece: &[u8]) -> Result<(), SinkFault>
    ensures ok { OnOk result (Takes (K.told sink.old) (K.told sink.new) piece.now) }
    ensures err { OnErr result (TakesFront (K.told sink.old) (K.told sink.new) piece.now) }
    ensures later { K.faults sink.old ≤ K.faults sink.new }
    ensures failed { IsErrOf result SinkFault.Failed → HasRisen (K.faults sink.old) (K.faults sink.new) }
{
    let mut taken = 0;
    while taken < piece.len() {
        taken += sink.write(&piece[taken..])?;
    }
    Ok(())
}
