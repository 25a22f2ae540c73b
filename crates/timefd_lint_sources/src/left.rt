//! How much is left of what is wrong with a description that a comment is about.

ghost use Rattle.std.specs.Prelude.{◌≡◌};
ghost use Rattle.timefd_lint_sources.specs.Allowed as spec;

use crate::judgement::{TextJudgement, levels_of};
use timefd_lang_warnings::Level;

/// What is left of what is wrong with a description, if a comment is about it.
#[derive(Clone, Copy)]
pub struct Left {
    /// Whether an error is left, or a denied warning.
    pub is_refused: bool,
    /// How many other warnings are left.
    pub warnings: u64,
    /// How many errors and warnings are allowed. They aren't reported.
    pub allowed: u64,
}

/// One error is allowed, and nothing else is wrong.
pub fn all_allowed() -> Left
    ensures { result ≡ spec.all_allowed }
{
    Left {
        is_refused: false,
        warnings: 0,
        allowed: 1,
    }
}

/// What is left of so many errors and warnings, if comments allow all but `left`.
pub fn left_of(found: u64, left: &TextJudgement) -> Left
    ensures { result ≡ spec.left_of found left.now }
{
    Left {
        is_refused: errors_in(left) > 0,
        warnings: warnings_in(left),
        allowed: found.saturating_sub(count_in(left)),
    }
}

/// How many errors and warnings are reported of a text.
pub fn count_in(judgement: &TextJudgement) -> u64
    ensures { result ≡ spec.count_in judgement.now }
{
    errors_in(judgement).saturating_add(warnings_in(judgement))
}

fn errors_in(judgement: &TextJudgement) -> u64
    ensures { result ≡ spec.errors_in judgement.now }
{
    match judgement {
        TextJudgement::Accepted(_, found) => levels_of(*found).count(Level::Denied),
        TextJudgement::Faulty(faults) => faults.len() as u64,
        TextJudgement::Right(_) => 0,
        TextJudgement::Refused(_) => 1,
    }
}

fn warnings_in(judgement: &TextJudgement) -> u64
    ensures { result ≡ spec.warnings_in judgement.now }
{
    match judgement {
        TextJudgement::Accepted(_, found) => levels_of(*found).count(Level::Warned),
        TextJudgement::Right(traps) => traps.len() as u64,
        TextJudgement::Faulty(_) | TextJudgement::Refused(_) => 0,
    }
}
