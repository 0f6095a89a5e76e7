//! A sink: a place that takes bytes piece by piece.

ghost use Rattle.std.specs.Prelude.{◌≡◌, ◌<◌, ◌≤◌, ℕ, Bool, true, false, List, Option, length, take, IfOk, OnErr};
ghost use Rattle.std.specs.Result.{is_err};
ghost use Rattle.rail_io.specs.Folders.{Rose, faults_after};
ghost use Rattle.rail_io.specs.Sinks.{Appends};

use crate::Failed;

/// A place that takes bytes piece by piece.
pub trait Sink {
    /// All bytes written so far, or `None` where the sink does not tell.
    ghost written: { Self → Option (List ℕ) };

    /// A count of faults: a call that fails raises it, or finds it at a counter's last value, 2^64 - 1. It never falls.
    ghost faults: { Self → ℕ };

    /// Whether the count of faults is that of failed calls: each raises it by one, below its last value, and no other
    /// call changes it. Where nothing else is said, it need not be.
    ghost counts_failed: { Bool } = { false };

    /// Appends a front of the piece, and answers how many bytes that was: at least one of a piece that is not empty.
    /// `Failed` comes only where the count of faults rose or stands at its last value, and then nothing was written.
    /// Where the count of faults is that of failed calls, a write that fails raises it by one, below its last value,
    /// and any other write leaves it.
    fn write(&mut self, piece: &[u8]) -> Result<usize, Failed>
        // What is taken.
        ensures room { IfOk result (λ n. n ≤ length piece.now) }
        ensures some { 0 < length piece.now → IfOk result (λ n. 0 < n) }
        ensures appended { IfOk result (λ n. Appends (take n piece.now) (written self.old) (written self.new)) }

        // When a write fails, and what stays.
        ensures kept { OnErr result (written self.new ≡ written self.old) }
        ensures fault { OnErr result (Rose (faults self.old) (faults self.new)) }
        ensures fault_counted { counts_failed ≡ true
            → faults self.new ≡ faults_after (is_err result) (faults self.old) }
        ensures lasting { faults self.old ≤ faults self.new };
}
