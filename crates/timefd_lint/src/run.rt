//! A run over files.

ghost use Rattle.std.specs.Prelude.{◌≡◌, ◌≢◌, [], IfErr, IfOk, IsTrue, OnOk};
ghost use Rattle.timefd_lint.specs.Causes.{IsCausedBy};
ghost use Rattle.timefd_lint.specs.Files.{IsNoted, IsOpenedBy, IsRunIn, IsRunOfFile, IsRunOfName, IsRunOfNames, input_name};
ghost use Rattle.timefd_lint.specs.Sources.{IsRunWith, any_source};
ghost use Rattle.timefd_lint.specs.Sources as sources;
ghost use Rattle.timefd_lint.specs.Reported.{IsRun, tally_of};

use crate::failure::OpenError;
use crate::line::LintError;
use crate::lines::{failed, lint_lines, lint_whole};
use crate::options::RunOptions;
use crate::source::FileOpener;
use crate::source_file::{is_source, lint_source};
use crate::tally::LintTally;
use std::alloc::Global;
use timefd_bin_streams::{BufferedSource, Sink};
use timefd_lint_options::is_input;

/// The name that reports use for the standard input.
const INPUT: &str = "<stdin>";

/// Checks each file in order, or the standard input if no file is named, and writes what is wrong. A file
/// that can't be read is noted, and the others are still checked. The name `-` means the standard input. A
/// second `-` finds it already read to its end.
#[tactic(auto, using(crate::proofs::FilesLemmas::input_alone))]
pub fn run<S: FileOpener, I: BufferedSource, W: Sink>(
    source: &S,
    alloc: Global,
    options: RunOptions<'_>,
    input: &mut I,
    writer: &mut W,
) -> Result<LintTally, LintError>
    ensures reported { IfOk result (IsRunWith (any_source options.entry options.entry.files.now)
        options.entry.is_whole options.entry.language options.entry.comment
        options.entry.reporting (W.contents writer.old) (W.contents writer.new)) }

    // If no file is named, the report is about all that the input has.
    ensures input { options.entry.files.now ≡ [] → IfOk result (IsRunIn options.entry input_name
        (I.remaining input.old) (I.remaining input.new) (I.has_failed input.new)
        (W.contents writer.old) (W.contents writer.new)) }

    // If some are named, the report covers each of them in order: what it had when it was opened, or why it
    // wasn't opened.
    ensures files { options.entry.files.now ≢ [] → IfOk result (IsRunOfNames
        (IsOpenedBy (S.opens source.now) S.Opened.has_failed)
        (S.fails source.now) options.entry options.entry.files.now
        (tally_of []) (I.remaining input.old) (I.remaining input.new) (I.has_failed input.new)
        (W.contents writer.old) (W.contents writer.new)) }
    ensures unwritten { IfErr result (IsCausedBy (W.has_failed writer.new)) }
{
    if options.files.is_empty() {
        lint_reader(alloc, options, INPUT, input, writer)
    } else {
        lint_files(source, alloc, options, input, writer)
    }
}

// Checks each named file, in order.
#[tactic(auto, using(crate::proofs::FilesLemmas::no_name, crate::proofs::FilesLemmas::one_name, crate::proofs::FilesLemmas::all_names, crate::proofs::FilesLemmas::run_of_all))]
fn lint_files<S: FileOpener, I: BufferedSource, W: Sink>(
    source: &S,
    alloc: Global,
    options: RunOptions<'_>,
    input: &mut I,
    writer: &mut W,
) -> Result<LintTally, LintError>
    ensures reported { IfOk result (IsRunWith (any_source options.entry options.entry.files.now)
        options.entry.is_whole options.entry.language options.entry.comment
        options.entry.reporting (W.contents writer.old) (W.contents writer.new)) }
    ensures files { IfOk result (IsRunOfNames (IsOpenedBy (S.opens source.now) S.Opened.has_failed)
        (S.fails source.now)
        options.entry options.entry.files.now (tally_of [])
        (I.remaining input.old) (I.remaining input.new) (I.has_failed input.new)
        (W.contents writer.old) (W.contents writer.new)) }
    ensures unwritten { IfErr result (IsCausedBy (W.has_failed writer.new)) }
{
    let mut tally = LintTally::new();
    let mut rest = options.files;
    'names: while let [name, after @ ..] = rest {
        tally = tally.and(lint_named(source, alloc, options, name, input, writer)?);
        rest = after;
    }
    Ok(tally)
}

/// Checks all texts of a file, or all that is left of the input.
#[tactic(auto, using(crate::proofs::FilesLemmas::input_named))]
pub fn lint_named<S: FileOpener, I: BufferedSource, W: Sink>(
    source: &S,
    alloc: Global,
    options: RunOptions<'_>,
    name: &str,
    input: &mut I,
    writer: &mut W,
) -> Result<LintTally, LintError>
    ensures reported { IfOk result (IsRunWith (sources.is_source options.entry name.now)
        options.entry.is_whole options.entry.language options.entry.comment
        options.entry.reporting (W.contents writer.old) (W.contents writer.new)) }
    ensures named { IfOk result (IsRunOfName (IsOpenedBy (S.opens source.now) S.Opened.has_failed)
        (S.fails source.now)
        options.entry name.entry (I.remaining input.old) (I.remaining input.new)
        (I.has_failed input.new) (W.contents writer.old) (W.contents writer.new)) }
    ensures stays { OnOk result (IsTrue (I.has_failed input.old) → IsTrue (I.has_failed input.new)) }
    ensures unwritten { IfErr result (IsCausedBy (W.has_failed writer.new)) }
{
    if is_input(name) {
        lint_reader(alloc, options, INPUT, input, writer)
    } else {
        lint_file(source, alloc, options, name, writer)
    }
}

// Checks all texts of a file.
#[tactic(auto, using(crate::proofs::FilesLemmas::opened, crate::proofs::FilesLemmas::unopened, crate::proofs::SourcesLemmas::with_texts))]
fn lint_file<S: FileOpener, W: Sink>(
    source: &S,
    alloc: Global,
    options: RunOptions<'_>,
    name: &str,
    writer: &mut W,
) -> Result<LintTally, LintError>
    ensures reported { IfOk result (IsRunWith (sources.is_source options.entry name.now)
        options.entry.is_whole options.entry.language options.entry.comment
        options.entry.reporting (W.contents writer.old) (W.contents writer.new)) }
    ensures file { IfOk result (IsRunOfFile (IsOpenedBy (S.opens source.now) S.Opened.has_failed name.now)
        (S.fails source.now name.now) options.entry name.entry
        (W.contents writer.old) (W.contents writer.new)) }
    ensures unwritten { IfErr result (IsCausedBy (W.has_failed writer.new)) }
{
    match source.open(alloc, name) {
        Ok(mut reader) => lint_reader(alloc, options, name, &mut reader, writer),
        Err(error) => note_unopened(alloc, options, name, error, writer),
    }
}

// Notes why a file isn't opened.
fn note_unopened<W: Sink>(
    alloc: Global,
    options: RunOptions<'_>,
    name: &str,
    error: OpenError,
    writer: &mut W,
) -> Result<LintTally, LintError>
    ensures reported { IfOk result (IsRun options.entry.is_whole options.entry.language
        options.entry.comment options.entry.reporting (W.contents writer.old)
        (W.contents writer.new)) }
    ensures noted { IfOk result (IsNoted options.entry name.entry error
        (W.contents writer.old) (W.contents writer.new)) }
    ensures unwritten { IfErr result (IsCausedBy (W.has_failed writer.new)) }
{
    match error {
        OpenError::Memory => Err(LintError::Memory),
        OpenError::Failed(failure) => {
            let end = failed(alloc, options, name, failure, writer)?;
            Ok(LintTally::of(end))
        }
    }
}

// Checks all texts of a reader.
#[tactic(auto, using(crate::proofs::FilesLemmas::in_source, crate::proofs::FilesLemmas::in_whole, crate::proofs::FilesLemmas::in_lines, crate::proofs::SourcesLemmas::with_source, crate::proofs::SourcesLemmas::with_whole, crate::proofs::SourcesLemmas::with_lines))]
fn lint_reader<R: BufferedSource, W: Sink>(
    alloc: Global,
    options: RunOptions<'_>,
    name: &str,
    reader: &mut R,
    writer: &mut W,
) -> Result<LintTally, LintError>
    ensures reported { IfOk result (IsRunWith (sources.is_source options.entry name.now)
        options.entry.is_whole options.entry.language options.entry.comment
        options.entry.reporting (W.contents writer.old) (W.contents writer.new)) }
    ensures all { IfOk result (IsRunIn options.entry name.now (R.remaining reader.old)
        (R.remaining reader.new) (R.has_failed reader.new) (W.contents writer.old) (W.contents writer.new)) }
    ensures stays { OnOk result (IsTrue (R.has_failed reader.old) → IsTrue (R.has_failed reader.new)) }
    ensures unwritten { IfErr result (IsCausedBy (W.has_failed writer.new)) }
{
    if is_source(options, name) {
        lint_source(alloc, options, name, reader, writer)
    } else if options.is_whole {
        lint_whole(alloc, options, name, reader, writer)
    } else {
        lint_lines(alloc, options, name, reader, writer)
    }
}
