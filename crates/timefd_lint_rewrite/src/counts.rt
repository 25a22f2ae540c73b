//! The outcomes of lines, and how many lines have each.

ghost use Rattle.std.specs.Prelude.{◌≡◌, ◌<◌, ◌≤◌, ◌^◌, ◌-◌, []};
ghost use Rattle.timefd_lint_rewrite.specs.Rewriting as spec;

/// What happened to a line.
#[derive(Clone, Copy)]
pub enum LineOutcome {
    /// It is empty or a comment, and stays as it is.
    PassedOver,
    /// It is converted to itself, or has nothing to mend, and stays as it is.
    Same,
    /// The text that it is converted or mended to is written instead.
    Rewritten,
    /// Its language refuses it, even mended as far as allowed, and it stays as it is.
    Refused,
    /// It isn't UTF-8, and stays as it is.
    NotText,
    /// The text that it is converted to has a newline, as for strftime's `%n`, and so isn't a line. It stays
    /// as it is.
    NotALine,
}

/// How many lines there are.
#[derive(Clone, Copy)]
pub struct Counts {
    /// All lines.
    pub lines: u64,
    /// The lines that were replaced by another text.
    pub rewritten: u64,
    /// The lines that are refused, aren't UTF-8, or would become more than a line.
    pub refused: u64,
}

impl Counts {
    /// The counts of no lines.
    pub(crate) fn new() -> Counts
        ensures { result ≡ spec.counts_of [] }
    {
        Counts {
            lines: 0,
            rewritten: 0,
            refused: 0,
        }
    }

    /// The counts with one more line.
    pub(crate) fn with(self, outcome: LineOutcome) -> Counts
        requires lines { self.lines < 2 ^ 64 - 1 }
        requires rewritten { self.rewritten ≤ self.lines }
        requires refused { self.refused ≤ self.lines }
        ensures { result ≡ spec.with_one self outcome }
    {
        Counts {
            lines: self.lines + 1,
            rewritten: match outcome {
                LineOutcome::Rewritten => self.rewritten + 1,
                LineOutcome::PassedOver
                | LineOutcome::Same
                | LineOutcome::Refused
                | LineOutcome::NotText
                | LineOutcome::NotALine => self.rewritten,
            },
            refused: match outcome {
                LineOutcome::Refused | LineOutcome::NotText | LineOutcome::NotALine => self.refused
                    + 1,
                LineOutcome::PassedOver | LineOutcome::Same | LineOutcome::Rewritten =>
                    self.refused,
            },
        }
    }
}
