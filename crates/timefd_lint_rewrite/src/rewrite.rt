//! The lines of a reader, rewritten into a writer.

ghost use Rattle.std.specs.Prelude.{◌≡◌, IfOk, OnOk};
ghost use Rattle.std.specs.Result.{IfErr};
ghost use Rattle.std.specs.Io.KnownBytes.{Appends};
ghost use Rattle.timefd_lint_rewrite.specs.Rewriting.{AreCutShort, AreRewritten, IsNext, IsUnwritten, Positions, PositionsAnswer};
ghost use Rattle.timefd_lint_rewrite.specs.declared.rewrite.RewriteError.TheVariants as errors;

use crate::counts::{Counts, LineOutcome};
use crate::line_change::{LineChange, changed_text};
use crate::lines::{has_newline, is_passed_over, without_newline};
use std::alloc::Global;
use std::io::{BufRead, ErrorKind, Write};
use std::str;

/// Why the lines of a reader weren't all rewritten.
#[derive(Clone, Copy)]
pub enum RewriteError {
    /// Memory ran out.
    Memory,
    /// A read failed.
    Read,
    /// A write failed.
    Write,
}

/// Rewrites the lines of a reader: writes what each description is converted or mended to, with the line's
/// own end. Lines that are passed over or refused, that aren't UTF-8, or that would become two lines, are
/// written as they are.
pub fn rewrite_lines<R: BufRead, W: Write>(
    alloc: Global,
    comment: Option<&str>,
    change: LineChange,
    reader: &mut R,
    writer: &mut W,
) -> Result<Counts, RewriteError>
    ensures all { IfOk result (AreRewritten change comment.entry (R.remaining reader.old)
        (W.contents writer.old) (W.contents writer.new)) }
    ensures cut_short { IfErr result (AreCutShort change comment.entry (R.remaining reader.old)
        (W.contents writer.old) (W.contents writer.new)) }
{
    let mut counts = Counts::new();
    let mut bytes = Vec::new(alloc);
    'lines: for _line in 0..u64::MAX {
        match rewrite_next(alloc, comment, change, &mut bytes, reader, writer)? {
            None => return Ok(counts),
            Some(outcome) => counts = counts.with(outcome),
        }
    }
    Err(RewriteError::Read)
}

// Rewrites one more line, with `bytes` as the buffer for it. Returns `None` at the end.
fn rewrite_next<R: BufRead, W: Write>(
    alloc: Global,
    comment: Option<&str>,
    change: LineChange,
    bytes: &mut Vec<u8>,
    reader: &mut R,
    writer: &mut W,
) -> Result<Option<LineOutcome>, RewriteError>
    ensures next { IfOk result (IsNext change comment.entry (R.remaining reader.old)
        (R.remaining reader.new) (W.contents writer.old) (W.contents writer.new)) }
    ensures unwritten { IfErr result (IsUnwritten (W.contents writer.old)
        (W.contents writer.new)) }
{
    bytes.clear();
    match reader.read_until(b'\n', bytes) {
        Ok(count) => {
            if count == 0 {
                return Ok(None);
            }
            Ok(Some(rewrite_line(alloc, comment, change, bytes, writer)?))
        }
        Err(error) => {
            if error.kind() == ErrorKind::OutOfMemory {
                return Err(RewriteError::Memory);
            }
            Err(RewriteError::Read)
        }
    }
}

// Writes the replacement of a line.
#[tactic(auto, using(crate::proofs::RewriteLemmas::converted_placed, crate::proofs::RewriteLemmas::refused_placed))]
fn rewrite_line<W: Write>(
    alloc: Global,
    comment: Option<&str>,
    change: LineChange,
    line: &[u8],
    writer: &mut W,
) -> Result<LineOutcome, RewriteError>
    ensures positions { IfOk result (Positions change comment.entry line.now (W.contents writer.old)
        (W.contents writer.new)) }
    ensures unwritten { IfErr result (IsUnwritten (W.contents writer.old)
        (W.contents writer.new)) }
{
    let text = without_newline(line);
    if is_passed_over(comment, text) {
        return keep(line, LineOutcome::PassedOver, writer);
    }
    let Ok(text) = str::from_utf8(text) else {
        return keep(line, LineOutcome::NotText, writer);
    };
    match changed_text(alloc, change, text) {
        Ok(Some(answer)) => write_answer(line, answer.as_bytes(), writer),
        Ok(None) => keep(line, LineOutcome::Refused, writer),
        Err(_) => Err(RewriteError::Memory),
    }
}

// Writes a line as it is.
fn keep<W: Write>(
    line: &[u8],
    outcome: LineOutcome,
    writer: &mut W,
) -> Result<LineOutcome, RewriteError>
    ensures outcome { IfOk result (λ o. o ≡ outcome) }
    ensures kept { OnOk result (Appends (W.contents writer.old) (W.contents writer.new) line.now) }
    ensures error { IfErr result (λ e. e ≡ errors.Write) }
{
    match writer.write_all(line) {
        Ok(()) => Ok(outcome),
        Err(_) => Err(RewriteError::Write),
    }
}

// Writes a text instead of a line, with the line's own end. The line is written as it is if it has that text
// already, or if the text has a newline.
fn write_answer<W: Write>(
    line: &[u8],
    answer: &[u8],
    writer: &mut W,
) -> Result<LineOutcome, RewriteError>
    ensures positions { IfOk result (PositionsAnswer line.now answer.now (W.contents writer.old)
        (W.contents writer.new)) }
    ensures error { IfErr result (λ e. e ≡ errors.Write) }
{
    let text = without_newline(line);
    if answer == text {
        return keep(line, LineOutcome::Same, writer);
    }
    if has_newline(answer) {
        return keep(line, LineOutcome::NotALine, writer);
    }
    keep(answer, LineOutcome::Rewritten, writer)?;
    keep(&line[text.len()..], LineOutcome::Rewritten, writer)
}
