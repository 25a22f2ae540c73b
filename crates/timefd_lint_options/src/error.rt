//! What is wrong with the arguments of the program.

use crate::word::Valued;
use timefd_lint_scan::keys::KeyFault;

/// What is wrong with the arguments of the program.
#[derive(Clone, Copy)]
pub enum OptionError<'a> {
    /// The word looks like an option but isn't one.
    Unknown(&'a str),
    /// No word follows an option that needs a value.
    MissingValue(Valued),
    /// The option doesn't take the word as its value.
    NotAValue(Valued, &'a str),
    /// The word isn't a `KEY=LANGUAGE`, for this reason.
    NotAKey(KeyFault, &'a str),
    /// Some options conflict.
    Conflict(Conflict),
}

/// Options that conflict, or that need something else.
#[derive(Clone, Copy)]
pub enum Conflict {
    /// Trees are only drawn, and have no other form.
    ExplainUndrawn,
    /// An editor is served, so no file is checked.
    ServesFiles,
    /// An editor is served, so nothing is drawn or written.
    ServesAlone,
    /// A log can't hold what is rewritten.
    LogRewritten,
    /// `--write` without `--to`, `--normal` or `--fix`.
    WriteWithoutVersion,
    /// `--partial` without `--write`.
    PartialWithoutWrite,
    /// `--unsafe` without `--fix`.
    UnsafeWithoutFix,
    /// A run either fixes faults or converts correct lines, not both.
    FixesRewritten,
    /// A file is mended line by line, not as a whole.
    FixesWhole,
    /// No file to mend is named.
    FixesNoFile,
    /// The standard input isn't a file, and can't be mended.
    FixesInput,
    /// The normal form is one of version 3, but another version is asked for.
    NormalOfAnother,
    /// No conversion exists from the language of the lines to the version.
    NoConversion,
    /// Trees are those of the languages of `time`.
    ExplainsOther,
    /// Only faults of the languages of `time` are fixed.
    FixesOther,
    /// Warnings are only reported about descriptions that stay as they are.
    RewritesWarned,
    /// A file is rewritten line by line, not as a whole.
    RewritesWhole,
    /// No file to rewrite is named.
    RewritesNoFile,
    /// The standard input isn't a file, and can't be rewritten.
    RewritesInput,
}
