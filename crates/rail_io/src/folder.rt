//! A folder: a place from which files are read piece by piece.

ghost use Rattle.std.specs.Prelude.{◌≡◌, ◌≤◌, Some, IsTrue, length, IfOk, OnErr};
ghost use Rattle.std.specs.Result.{is_err};
ghost use Rattle.rail_io.specs.Folders.{CountsFault, Files, FolderState, IsReadFrom, OnlyReads, Rose, RoseBy, file_at};

use thiserror::Error;

/// One call on a folder or a sink failed. Why is known to the system alone.
#[derive(Clone, Copy, Debug, PartialEq, Eq, Error)]
#[error("the call failed")]
pub struct Failed;

/// A place from which files are read piece by piece. A path that it does not name has the empty file.
pub trait Folder {
    /// What a contract says of the folder as it stands. Its field `holds` is what it holds, the bytes of each path, or
    /// `None` where it does not tell; `faults` is a count of faults, which a call that fails raises, or finds at a
    /// counter's last value, 2^64 - 1; `taken` is how many bytes were handed out, exactly so up to 2^63 as long as no
    /// read failed. `may_fail` says whether a read of a path may fail, and `counts_failed` whether the count of faults
    /// is that of failed calls: each raises it by one, below its last value, and no other call changes it. The two
    /// counts never fall, and the other fields never change. Where no more is known, `may_fail` is `λ _. true` and
    /// `counts_failed` is `false`.
    ghost state: { Self → FolderState };

    /// Puts bytes of the path's file, from place `from` on, at the front of `into`, and answers how many. Where the
    /// folder tells what it holds, it answers 0 exactly where `into` is empty or nothing is left from there on. What
    /// stands in `into` past the bytes put there is left open. `Failed` comes only where the count of faults rose or
    /// stands at its last value, and where a read of this path may fail; of the bytes handed out it says no more than
    /// that their count has not fallen. Where the count of faults is that of failed calls, a read that fails raises it
    /// by one, below its last value, and any other read leaves it.
    fn read_at(&mut self, path: &str, from: u64, into: &mut [u8]) -> Result<usize, Failed>
        // What is handed out.
        ensures told { (files : Files) → (state self.old).holds ≡ Some files →
            IfOk result (λ n. IsReadFrom (file_at files path.now) from n into.new) }
        ensures room { IfOk result (λ n. n ≤ length into.new) }
        ensures taken { IfOk result (λ n. RoseBy n (state self.old).taken (state self.new).taken) }

        // When a read fails, and what stays.
        ensures fault { OnErr result (Rose (state self.old).faults (state self.new).faults) }
        ensures may { OnErr result (IsTrue ((state self.old).may_fail path.now)) }
        ensures fault_counted { CountsFault (is_err result) (state self.old) (state self.new) }
        ensures only_reads { OnlyReads (state self.old) (state self.new) };
}
