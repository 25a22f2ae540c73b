//! The lines of a reader, one after another.

ghost use Rattle.std.specs.Prelude.{◌≡◌, IfErr, IfOk, IsTrue, OnOk};
ghost use Rattle.std.specs.Io.KnownBytes.{Appends};
ghost use Rattle.timefd_lint.specs.Causes.{IsCausedBy};
ghost use Rattle.timefd_lint.specs.Failures as failures;
ghost use Rattle.timefd_lint.specs.Failures.{note_of};
ghost use Rattle.timefd_lint.specs.Reported.{IsNext, IsRunOfAll, IsRunOver, SaysUnread};
ghost use Rattle.timefd_lint.specs.declared.line.TextEnd.TheVariants as ends;

use crate::failure::{Failure, unread};
use crate::line::{LintError, TextEnd, lint_line, lint_text, write};
use crate::mark::note_mark;
use crate::options::RunOptions;
use crate::tally::LintTally;
use std::alloc::Global;
use std::io::ErrorKind;
use timefd_bin_streams::{BufferedError, BufferedSource, Sink};
use timefd_lint_drawing::{Origin, note};
use timefd_lint_rewrite::without_newline;

/// Checks each line of a reader, in order, and writes what is wrong.
#[tactic(auto, using(crate::proofs::ReportedLemmas::no_lines))]
pub fn lint_lines<R: BufferedSource, W: Sink>(
    alloc: Global,
    options: RunOptions<'_>,
    name: &str,
    reader: &mut R,
    writer: &mut W,
) -> Result<LintTally, LintError>
    ensures reported { IfOk result (IsRunOver options.entry.language options.entry.comment
        options.entry.reporting name.now (R.remaining reader.old)
        (R.remaining reader.new) (R.has_failed reader.new)
        (W.contents writer.old) (W.contents writer.new)) }
    ensures stays { OnOk result (IsTrue (R.has_failed reader.old) → IsTrue (R.has_failed reader.new)) }
    ensures unwritten { IfErr result (IsCausedBy (W.has_failed writer.new)) }
{
    let mut tally = LintTally::new();
    let mut bytes = Vec::new(alloc);
    let mut is_first = true;
    'lines: for line in 1..u64::MAX {
        let origin = Origin { file: name, line };
        match lint_next(alloc, options, origin, is_first, &mut bytes, reader, writer)? {
            None => return Ok(tally),
            Some(end) => tally = tally.and(LintTally::of(end)),
        }
        is_first = false;
        if tally.failed {
            return Ok(tally);
        }
    }
    let end = failed(alloc, options, name, Failure::Unread, writer)?;
    Ok(tally.and(LintTally::of(end)))
}

// Checks the next line, with this buffer for it. `None` at the end of the input.
#[tactic(auto, using(crate::proofs::ReportedLemmas::read_none))]
fn lint_next<R: BufferedSource, W: Sink>(
    alloc: Global,
    options: RunOptions<'_>,
    origin: Origin<'_>,
    is_first: bool,
    bytes: &mut Vec<u8>,
    reader: &mut R,
    writer: &mut W,
) -> Result<Option<TextEnd>, LintError>
    ensures next { IfOk result (IsNext is_first options.entry.language options.entry.comment
        options.entry.reporting origin.entry (R.remaining reader.old) (R.remaining reader.new)
        (R.has_failed reader.new) (W.contents writer.old) (W.contents writer.new)) }
    ensures stays { OnOk result (IsTrue (R.has_failed reader.old) → IsTrue (R.has_failed reader.new)) }
    ensures unwritten { IfErr result (IsCausedBy (W.has_failed writer.new)) }
{
    bytes.clear();
    match reader.read_until(b'\n', bytes) {
        Ok(count) => {
            if count == 0 {
                return Ok(None);
            }
            note_mark(alloc, options, origin, is_first, bytes, writer)?;
            let line = without_newline(bytes);
            Ok(Some(lint_line(alloc, options, origin, line, writer)?))
        }
        Err(BufferedError::Memory) => Err(LintError::Memory),
        Err(BufferedError::Failed(kind)) => {
            Ok(Some(read_error(alloc, options, origin.file, kind, writer)?))
        }
    }
}

/// Checks all bytes of a reader as one text, and writes what is wrong.
pub fn lint_whole<R: BufferedSource, W: Sink>(
    alloc: Global,
    options: RunOptions<'_>,
    name: &str,
    reader: &mut R,
    writer: &mut W,
) -> Result<LintTally, LintError>
    ensures reported { IfOk result (IsRunOfAll options.entry.language options.entry.comment
        options.entry.reporting name.now (R.remaining reader.old)
        (R.remaining reader.new) (R.has_failed reader.new)
        (W.contents writer.old) (W.contents writer.new)) }
    ensures stays { OnOk result (IsTrue (R.has_failed reader.old) → IsTrue (R.has_failed reader.new)) }
    ensures unwritten { IfErr result (IsCausedBy (W.has_failed writer.new)) }
{
    let origin = Origin {
        file: name,
        line: 1,
    };
    let mut bytes = Vec::new(alloc);
    match reader.read_to_end(&mut bytes) {
        Ok(_) => {
            note_mark(alloc, options, origin, true, &bytes, writer)?;
            let end = lint_text(alloc, options, origin, &bytes, writer)?;
            Ok(LintTally::of(end))
        }
        Err(BufferedError::Memory) => Err(LintError::Memory),
        Err(BufferedError::Failed(kind)) => {
            let end = read_error(alloc, options, name, kind, writer)?;
            Ok(LintTally::of(end))
        }
    }
}

/// Notes that a file can't be read, by an error of this kind.
#[tactic(auto, using(crate::proofs::ReportedLemmas::says_unread))]
pub fn read_error<W: Sink>(
    alloc: Global,
    options: RunOptions<'_>,
    name: &str,
    kind: ErrorKind,
    writer: &mut W,
) -> Result<TextEnd, LintError>
    ensures end { IfOk result (λ end. end ≡ ends.Failed) }
    ensures said { OnOk result (SaysUnread options.entry.reporting.style name.entry
        (W.contents writer.old) (W.contents writer.new)) }
    ensures noted { OnOk result (Appends (W.contents writer.old) (W.contents writer.new)
        (note_of options.entry.reporting.style name.entry (failures.unread kind))) }
    ensures unwritten { IfErr result (IsCausedBy (W.has_failed writer.new)) }
{
    failed(alloc, options, name, unread(kind), writer)
}

/// Notes why a file fails.
pub fn failed<W: Sink>(
    alloc: Global,
    options: RunOptions<'_>,
    name: &str,
    failure: Failure,
    writer: &mut W,
) -> Result<TextEnd, LintError>
    ensures end { IfOk result (λ end. end ≡ ends.Failed) }
    ensures noted { OnOk result (Appends (W.contents writer.old) (W.contents writer.new)
        (note_of options.entry.reporting.style name.entry failure)) }
    ensures unwritten { IfErr result (IsCausedBy (W.has_failed writer.new)) }
{
    let origin = Origin {
        file: name,
        line: 1,
    };
    let message = note(
        alloc,
        options.reporting.style,
        origin,
        failure.code(),
        failure.sentence(),
    )?;
    write(writer, &message)?;
    Ok(TextEnd::Failed)
}
