//! Whether a buffered source can still be read.

ghost use Rattle.std.specs.Prelude.{◌≡◌, ◌<◌, false, IfErr, OnOk, IsFalse, IsTrue};
ghost use Rattle.timefd_bin_streams.specs.Buffered.{FailsOnlyIf, has_failed};

use crate::buffered::BufferedError;
use std::io::ErrorKind;

/// Whether a source has failed, and how many more calls it takes.
#[derive(Clone, Copy)]
pub(crate) struct Condition {
    failure: Option<ErrorKind>,
    pub(crate) calls_left: u64,
}

impl Condition {
    /// The condition of a source that wasn't called yet.
    pub(crate) fn new() -> Condition
        ensures { has_failed result ≡ false }
    {
        Condition {
            failure: None,
            calls_left: u64::MAX,
        }
    }

    /// Counts one more call. It fails if an earlier one did, or if there were too many.
    pub(crate) fn begin_call(&mut self) -> Result<(), BufferedError>
        ensures calls { OnOk result (self.new.calls_left < self.old.calls_left) }
        ensures works { OnOk result (IsFalse (has_failed self.new)) }
        ensures fails { IfErr result (FailsOnlyIf (has_failed self.new)) }
        ensures stays { IsTrue (has_failed self.old) → IsTrue (has_failed self.new) }
    {
        if let Some(kind) = self.failure {
            return Err(BufferedError::Failed(kind));
        }
        if self.calls_left == 0 {
            return Err(self.after(ErrorKind::Other));
        }
        self.calls_left -= 1;
        Ok(())
    }

    /// What an error of this kind means: memory ran out, or the source has failed.
    pub(crate) fn after(&mut self, kind: ErrorKind) -> BufferedError
        ensures fails { FailsOnlyIf (has_failed self.new) result }
        ensures stays { IsTrue (has_failed self.old) → IsTrue (has_failed self.new) }
    {
        if kind == ErrorKind::OutOfMemory {
            return BufferedError::Memory;
        }
        self.failure = Some(kind);
        BufferedError::Failed(kind)
    }
}
