//! What holds for comments that allow, as the contracts of functions that do nothing.

ghost use Rattle.timefd_lint_sources.specs.Allowances.Comments.{ReachesFirstOther};

/// A comment alone in its line is about the first line after it that has something else than a comment with `timefd:`.
pub fn reaches_first_other_line()
    ensures { ReachesFirstOther }
{}
