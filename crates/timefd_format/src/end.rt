//! How a run ends, and its exit status.

ghost use Rattle.std.specs.Prelude.{◌≡◌};
ghost use Rattle.timefd_format.specs.Tallies as spec;

use crate::outcome::WordTally;
use crate::warned::Warned;

/// How a run ends that wasn't broken off.
#[derive(Clone, Copy)]
pub enum RunOutcome {
    /// The description is refused, and nothing is written.
    Refused,
    /// Every moment was looked at. It carries the warnings about the descriptions.
    Done(Warned, WordTally),
}

impl RunOutcome {
    /// The exit status of the program.
    pub fn status(self) -> u8
        ensures { result ≡ spec.status self }
    {
        match self {
            RunOutcome::Refused => 1,
            RunOutcome::Done(_, tally) => {
                if tally.has_failed {
                    4
                } else if tally.not_text {
                    5
                } else if tally.is_refused {
                    1
                } else {
                    0
                }
            }
        }
    }
}
