//! What becomes of a moment, and of all of them.

ghost use Rattle.std.specs.Prelude.{◌≡◌};
ghost use Rattle.timefd_format.specs.Tallies as spec;

use crate::moment::MomentError;
use std::alloc::AllocError;
use timefd_date_format::Unshown;
use timefd_date_moment::Moment;

/// Why a run ends before its last moment.
#[derive(Clone, Copy)]
pub enum RunError {
    /// Memory ran out.
    Memory,
    /// A write failed.
    Write,
    /// A moment isn't written, and `--else fail` ends the run there.
    Refused,
}

impl From<AllocError> for RunError {
    ghost use Rattle.std.specs.Prelude.{◌≡◌};
    ghost use Rattle.timefd_format.specs.declared.outcome.RunError.{RunError};

    ghost from_gives = { λ _ e. e ≡ RunError.Memory };

    fn from(_: AllocError) -> RunError {
        RunError::Memory
    }
}

/// What becomes of a word that should name a moment.
#[derive(Clone, Copy)]
pub enum WordOutcome {
    /// This moment is written.
    Written(Moment),
    /// A component can't show this moment, and nothing is written.
    Unshown(Moment, Unshown),
    /// It names no moment.
    Unread(MomentError),
    /// It isn't UTF-8.
    NotText,
}

/// What the words so far have come to.
#[derive(Clone, Copy)]
pub struct WordTally {
    /// A word names no moment, or its moment can't be shown.
    pub is_refused: bool,
    /// A line isn't UTF-8.
    pub not_text: bool,
    /// The standard input was not read to its end.
    pub has_failed: bool,
}

impl WordTally {
    /// The tally of no words, after a read that failed or didn't.
    pub fn at_end(has_failed: bool) -> WordTally
        ensures { result ≡ spec.at_end has_failed }
    {
        WordTally {
            is_refused: false,
            not_text: false,
            has_failed,
        }
    }

    /// The tally of a record without the field that is asked for, or of a table without its column.
    pub fn refused() -> WordTally
        ensures { result ≡ spec.refused }
    {
        WordTally {
            is_refused: true,
            not_text: false,
            has_failed: false,
        }
    }

    /// The tally of one word.
    pub fn of(outcome: WordOutcome) -> WordTally
        ensures { result ≡ spec.tally_of outcome }
    {
        WordTally {
            is_refused: matches!(outcome, WordOutcome::Unshown(_, _) | WordOutcome::Unread(_)),
            not_text: matches!(outcome, WordOutcome::NotText),
            has_failed: false,
        }
    }

    /// The tally of these words and others.
    pub fn and(self, other: WordTally) -> WordTally
        ensures { result ≡ spec.both self other }
    {
        WordTally {
            is_refused: self.is_refused || other.is_refused,
            not_text: self.not_text || other.not_text,
            has_failed: self.has_failed || other.has_failed,
        }
    }
}
