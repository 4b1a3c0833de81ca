//! What the sinks are given.

ghost use Rattle.std.specs.Prelude.{◌≡◌, ◌⊎◌, ◌<◌, ◌≤◌, OnOk, OnErr, IsErrOf};
ghost use Rattle.dpi_ports.specs.Told.{HasRisen, Takes, TakesFront};
ghost use Rattle.dpirun.specs.Ends.{last_line, TakesFronts};

use crate::outcome::Outcome;
use dpi_ports::{Sink, SinkFault, put_all};

// both texts of an outcome, each to its sink
fn put_both<K: Sink, E: Sink>(outcome: &Outcome, out: &mut K, err: &mut E) -> Result<(), SinkFault>
    ensures printed { OnOk result (Takes (K.told out.old) (K.told out.new) outcome.now.out.items) }
    ensures explained { OnOk result (Takes (E.told err.old) (E.told err.new) outcome.now.err.items) }
    ensures out_front { OnErr result (TakesFront (K.told out.old) (K.told out.new) outcome.now.out.items) }
    ensures err_front { OnErr result (TakesFront (E.told err.old) (E.told err.new) outcome.now.err.items) }
    ensures failed { IsErrOf result SinkFault.Failed
        → HasRisen (K.faults out.old) (K.faults out.new) ⊎ HasRisen (E.faults err.old) (E.faults err.new) }
    ensures later { E.faults err.old ≤ E.faults err.new }
{
    put_all(out, &outcome.out)?;
    put_all(err, &outcome.err)
}

/// Ends a call that was cut short: status 8 where a sink failed, 9 where no memory was found. The
/// status's line goes to `err` once, and what becomes of it is ignored.
pub fn cut_short<E: Sink>(fault: SinkFault, err: &mut E) -> u8
    ensures written { fault ≡ SinkFault.Failed → result ≡ 8 }
    ensures memory { fault ≡ SinkFault.NoMemory → result ≡ 9 }
    ensures front { TakesFront (E.told err.old) (E.told err.new) (last_line result) }
    ensures later { E.faults err.old ≤ E.faults err.new }
{
    match fault {
        SinkFault::Failed => {
            let _ = put_all(err, b"dpirun: cannot write\n");
            8
        }
        SinkFault::NoMemory => {
            let _ = put_all(err, b"dpirun: out of memory\n");
            9
        }
    }
}

/// Gives both sinks what they are due and answers the outcome's status; status 8 where a sink
/// failed, which it counted, and 9 where it found no memory. Then each took some first bytes of
/// what it was due, and `err` after them some of the status's line.
pub fn deliver<K: Sink, E: Sink>(outcome: &Outcome, out: &mut K, err: &mut E) -> u8
    requires { outcome.now.status ≤ 7 }
    ensures whole { result ≤ 7 → result ≡ outcome.now.status }
    ensures printed { result ≤ 7 → Takes (K.told out.old) (K.told out.new) outcome.now.out.items }
    ensures explained { result ≤ 7 → Takes (E.told err.old) (E.told err.new) outcome.now.err.items }
    ensures unwritten { result ≡ 8
        → HasRisen (K.faults out.old) (K.faults out.new) ⊎ HasRisen (E.faults err.old) (E.faults err.new) }
    ensures out_front { 8 ≤ result → TakesFront (K.told out.old) (K.told out.new) outcome.now.out.items }
    ensures err_fronts { 8 ≤ result → TakesFronts (E.told err.old) (E.told err.new) outcome.now.err.items (last_line result) }
    ensures range { result ≤ 9 }
{
    match put_both(outcome, out, err) {
        Ok(()) => outcome.status,
        Err(fault) => cut_short(fault, err),
    }
}
