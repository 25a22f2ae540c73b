//! The statuses of runs that fail, and what they report on the standard error.

ghost use Rattle.std.specs.Prelude.{◌≡◌, codes, IsErr, IsTrue, OnOk};
ghost use Rattle.std.specs.Io.KnownBytes.{Appends};
ghost use Rattle.timefd_lint.specs.Arguments.{IsSentence};
ghost use Rattle.timefd_lint.specs.Folders as walks;
ghost use Rattle.timefd_lint.specs.NoCodes.{IsNoCode};
ghost use Rattle.timefd_lint.specs.Statuses as spec;
ghost use Rattle.timefd_lint.specs.Unusable.{unset_status};

use crate::config::ConfigFailure;
use crate::no_code::no_code_sentence;
use crate::{arguments, folders};
use std::alloc::{AllocError, Global};
use timefd_bin_streams::{Failed, Sink};
use timefd_lint_files::WalkReason;
use timefd_lint_options::OptionError;

/// The status for wrong arguments.
pub const WRONG_ARGUMENTS: u8 = 2;

/// The status if memory ran out.
pub const NO_MEMORY: u8 = 3;

/// The status if a file can't be read or rewritten, or a write failed.
pub const FAILED: u8 = 4;

/// The status if a line isn't UTF-8.
pub const NOT_TEXT: u8 = 5;

/// Reports why the status is no verdict, and returns the status. It takes no memory.
pub fn reported<E: Sink>(errors: &mut E, status: u8, sentence: &str) -> u8
    ensures { spec.IsStatus status sentence.now (E.contents errors.old) (E.contents errors.new)
        (E.has_failed errors.new) result }
{
    // A report that can't be written is left out.
    let _ = put_line(errors, sentence);
    status
}

// Writes a sentence in a line of its own.
fn put_line<E: Sink>(errors: &mut E, sentence: &str) -> Result<(), Failed>
    ensures line { OnOk result (Appends (E.contents errors.old) (E.contents errors.new) (spec.line_of sentence.now)) }
    ensures failed { IsErr result → IsTrue (E.has_failed errors.new) }
{
    errors.put_all(b"timefd_lint: ")?;
    errors.put_all(sentence.as_bytes())?;
    errors.put_all(b"\n")
}

/// Reports that memory ran out, and returns the status.
pub fn no_memory<E: Sink>(errors: &mut E) -> u8
    ensures { spec.IsNoMemory (E.contents errors.old) (E.contents errors.new) (E.has_failed errors.new) result }
{
    reported(errors, NO_MEMORY, "memory ran out")
}

/// Reports that a write failed, and returns the status.
pub fn write_failed<E: Sink>(errors: &mut E) -> u8
    ensures { spec.IsStatus 4 (codes "the standard output can't be written") (E.contents errors.old)
        (E.contents errors.new) (E.has_failed errors.new) result }
{
    reported(errors, FAILED, "the standard output can't be written")
}

/// Reports what is wrong with the arguments, and returns the status.
pub fn wrong_arguments<E: Sink>(alloc: Global, errors: &mut E, error: OptionError<'_>) -> u8
    ensures { spec.IsStatusOr 2 (IsSentence error.entry) (E.contents errors.old) (E.contents errors.new)
        (E.has_failed errors.new) result }
{
    match arguments::sentence(alloc, error) {
        Ok(sentence) => reported(errors, WRONG_ARGUMENTS, &sentence),
        Err(AllocError) => no_memory(errors),
    }
}

/// Reports that there is no error and no warning with this code, and returns the status.
pub fn no_code<E: Sink>(alloc: Global, errors: &mut E, name: &str) -> u8
    ensures { spec.IsStatusOr 2 (IsNoCode name.now) (E.contents errors.old) (E.contents errors.new)
        (E.has_failed errors.new) result }
{
    match no_code_sentence(alloc, name) {
        Ok(sentence) => reported(errors, WRONG_ARGUMENTS, &sentence),
        Err(AllocError) => no_memory(errors),
    }
}

/// Reports why the sources below a folder aren't known, and returns the status.
pub fn walk_failed<E: Sink>(alloc: Global, errors: &mut E, path: &str, reason: WalkReason) -> u8
    ensures { spec.IsStatusOr 4 (λ sentence. sentence ≡ walks.sentence path.now reason) (E.contents errors.old)
        (E.contents errors.new) (E.has_failed errors.new) result }
{
    match folders::sentence(alloc, path, reason) {
        Ok(sentence) => reported(errors, FAILED, &sentence),
        Err(AllocError) => no_memory(errors),
    }
}

/// Reports why a file of settings can't be used, and returns the status.
pub fn unset<E: Sink>(errors: &mut E, failure: ConfigFailure) -> u8
    ensures status { result ≡ unset_status failure }
    ensures reported { spec.IsUnsetStatus failure (E.contents errors.old) (E.contents errors.new)
        (E.has_failed errors.new) result }
{
    match failure {
        ConfigFailure::Memory => no_memory(errors),
        ConfigFailure::Wrong(sentence) => reported(errors, WRONG_ARGUMENTS, &sentence),
    }
}

/// Reports why the status of a finished run is no verdict, if it is none, and returns the status.
pub fn run_end<E: Sink>(errors: &mut E, rewrites: bool, status: u8) -> u8
    ensures status { result ≡ status }
    ensures reported { spec.IsToldIf (spec.failed_sentence rewrites status) (E.contents errors.old) (E.contents errors.new)
        (E.has_failed errors.new) }
{
    match status {
        FAILED => reported(errors, status, failed_sentence(rewrites)),
        NOT_TEXT => reported(errors, status, "a line isn't UTF-8"),
        _ => status,
    }
}

// What fails of a file: only a run that rewrites files writes any.
fn failed_sentence(rewrites: bool) -> &'static str
    ensures { result.now ≡ spec.file_sentence rewrites }
{
    if rewrites {
        "a file can't be read, or not be written back"
    } else {
        "a file can't be read"
    }
}
