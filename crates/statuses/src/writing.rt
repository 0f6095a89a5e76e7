//! The writing of a document, with the status that says what came of it.

ghost use Rattle.std.specs.Prelude.{◌≡◌, ◌≢◌, ◌≤◌, true, IfOk};
ghost use Rattle.statuses.specs.Written.{CountsFailedWrites, IsTextOf, Wrote};

use crate::status::{NO_MEMORY, UNWRITTEN};
use rail_base::NoMemory;
use rail_io::{Sink, write_all};

/// Writes a document, which was made whole in memory before the first write, and answers the status that goes with it,
/// one of 0 to 5; or memory ran out before it was made, and then nothing is written.
///
/// - 6 comes only where the sink's count of faults rose, or stands at its last value; a front of the document was
///   written, and not all of it.
/// - 7 comes exactly where there is no document.
///
/// Where the sink counts its failed calls, the count rises by one where the status is 6, unless it stands at its last
/// value, and else stays.
pub fn write_document<K: Sink>(document: Result<Vec<u8>, NoMemory>, status: u8, out: &mut K) -> u8
    requires { IfOk document (λ _. status ≤ 5) }
    ensures wrote { Wrote (IsTextOf document) status result (K.written out.old) (K.written out.new)
        (K.faults out.old) (K.faults out.new) }
    ensures made { IfOk document (λ _. result ≢ 7) }
    ensures lasting { K.faults out.old ≤ K.faults out.new }
    ensures failed_writes { K.counts_failed ≡ true → CountsFailedWrites result (K.faults out.old) (K.faults out.new) }
{
    let Ok(text) = document else {
        return NO_MEMORY;
    };
    match write_all(out, text.as_slice()) {
        Ok(()) => status,
        Err(_) => UNWRITTEN,
    }
}
