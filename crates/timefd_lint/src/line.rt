//! One text of a file.

ghost use Rattle.std.specs.Prelude.{◌≡◌, IfErr, IfOk, OnOk};
ghost use Rattle.std.specs.Io.KnownBytes.{Appends};
ghost use Rattle.timefd_lint_sources.specs.Whole.{no_text_note};
ghost use Rattle.timefd_lint.specs.declared.line.TextEnd.TheVariants as ends;
ghost use Rattle.timefd_lint.specs.Causes.{IsCausedBy};
ghost use Rattle.timefd_lint.specs.Lines as spec;
ghost use Rattle.timefd_lint.specs.Lines.{IsEndOf, IsLineEnd};
ghost use Rattle.timefd_lint.specs.Reported.{Says};

use crate::drawn::drawn;
use crate::options::RunOptions;
use std::alloc::{AllocError, Global};
use std::str;
use timefd_bin_streams::{Failed, Sink};
use timefd_lang_warnings::Levels;
use timefd_lint_drawing::{Origin, note};
use timefd_lint_options::LineLanguage;
use timefd_lint_rewrite::is_passed_over;
use timefd_lint_scan::Items;
use timefd_lint_sources::{Left, RefusedParts, TextJudgement, TextPlace, judge, levels_of};

/// Why a run ends before its last text.
#[derive(Clone, Copy)]
pub enum LintError {
    /// Memory ran out.
    Memory,
    /// A write failed.
    Write,
}

impl From<AllocError> for LintError {
    ghost use Rattle.std.specs.Prelude.{◌≡◌};
    ghost use Rattle.timefd_lint.specs.declared.line.LintError.{LintError};

    ghost from_gives = { λ _ e. e ≡ LintError.Memory };

    fn from(_: AllocError) -> LintError {
        LintError::Memory
    }
}

/// How the check of a text ended.
#[derive(Clone, Copy)]
pub enum TextEnd {
    /// A line that is passed over: it is empty, or begins with the comment mark.
    PassedOver,
    /// A description, with its warnings that are reported. All other warnings count as allowed.
    Accepted(Levels),
    /// A format of another language that version 3 writes too, with so many traps that were reported.
    Converted(u64),
    /// Not a description, or a format that version 3 can't write. What is wrong was written.
    Refused,
    /// Not UTF-8. A note was written.
    NotText,
    /// A description of a source that a comment is about, and what is left of what is wrong with it.
    Allowed(Left),
    /// No text: a file can't be read or can't be written back. A note was written.
    Failed,
    /// No text: a call has a name instead of a literal, and no text is found for the name.
    UnreadCall,
    /// No text: a value of a key isn't looked at.
    UnreadValue,
    /// No text: a comment names no language, or allows what isn't the code of an error or a warning.
    WrongComment,
}

/// Checks a line, without its newline, and writes what is wrong with it. An `Err` says why the run ends here.
pub fn lint_line<W: Sink>(
    alloc: Global,
    options: RunOptions<'_>,
    origin: Origin<'_>,
    line: &[u8],
    writer: &mut W,
) -> Result<TextEnd, LintError>
    ensures end { IfOk result (IsLineEnd options.entry.language options.entry.comment
        options.entry.reporting line.now) }
    ensures said { IfOk result (λ end. Says options.entry.language options.entry.reporting origin.entry
        line.now end (W.contents writer.old) (W.contents writer.new)) }
    ensures unwritten { IfErr result (IsCausedBy (W.has_failed writer.new)) }
{
    if is_passed_over(options.comment, line) {
        return Ok(TextEnd::PassedOver);
    }
    lint_text(alloc, options, origin, line, writer)
}

/// Checks a text, and writes what is wrong with it. An `Err` says why the run ends here.
#[tactic(auto, using(crate::proofs::TextLemmas::end_of_bytes, crate::proofs::TextLemmas::said_of_bytes, crate::proofs::TextLemmas::no_text_is, crate::proofs::TextLemmas::no_text_said))]
pub fn lint_text<W: Sink>(
    alloc: Global,
    options: RunOptions<'_>,
    origin: Origin<'_>,
    bytes: &[u8],
    writer: &mut W,
) -> Result<TextEnd, LintError>
    ensures end { IfOk result (IsEndOf options.entry.language options.entry.reporting bytes.now) }
    ensures said { IfOk result (λ end. Says options.entry.language options.entry.reporting origin.entry
        bytes.now end (W.contents writer.old) (W.contents writer.new)) }
    ensures unwritten { IfErr result (IsCausedBy (W.has_failed writer.new)) }
{
    match str::from_utf8(bytes) {
        Ok(text) => judged(alloc, options, origin, text, writer),
        Err(_) => not_text(alloc, options, origin, writer),
    }
}

// Checks a text that is UTF-8.
#[tactic(auto, using(crate::proofs::TextLemmas::ended, crate::proofs::TextLemmas::said))]
fn judged<W: Sink>(
    alloc: Global,
    options: RunOptions<'_>,
    origin: Origin<'_>,
    text: &str,
    writer: &mut W,
) -> Result<TextEnd, LintError>
    ensures end { IfOk result (IsEndOf options.entry.language options.entry.reporting text.now) }
    ensures said { IfOk result (λ end. Says options.entry.language options.entry.reporting origin.entry
        text.now end (W.contents writer.old) (W.contents writer.new)) }
    ensures unwritten { IfErr result (IsCausedBy (W.has_failed writer.new)) }
{
    let place = place_of(options.language);
    let judgement = judge(alloc, place, options.reporting.levels, text)?;
    let message = drawn(alloc, options.reporting, origin, text, &judgement)?;
    write(writer, &message)?;
    Ok(end_of(&judgement))
}

// Where lines in this language stand. They don't take items that `parse` refuses, and each part of a format of another
// language is refused for which version 3 has no text.
fn place_of(language: LineLanguage) -> TextPlace
    ensures { result ≡ spec.place_of language }
{
    match language {
        LineLanguage::Own(language) => TextPlace::Own(language, Items::Refused),
        LineLanguage::Other(dialect) => TextPlace::Other(dialect, RefusedParts::Unwritable),
    }
}

// How the check of a text ends.
fn end_of(judgement: &TextJudgement) -> TextEnd
    ensures { result ≡ spec.end_of judgement.now }
{
    match judgement {
        TextJudgement::Accepted(_, found) => TextEnd::Accepted(levels_of(*found)),
        TextJudgement::Right(traps) => TextEnd::Converted(traps.len() as u64),
        TextJudgement::Faulty(_) | TextJudgement::Refused(_) => TextEnd::Refused,
    }
}

// Notes that a text isn't UTF-8.
fn not_text<W: Sink>(
    alloc: Global,
    options: RunOptions<'_>,
    origin: Origin<'_>,
    writer: &mut W,
) -> Result<TextEnd, LintError>
    ensures end { IfOk result (λ end. end ≡ ends.NotText) }
    ensures written { OnOk result (Appends (W.contents writer.old) (W.contents writer.new)
        (no_text_note options.entry.reporting.style origin.entry)) }
    ensures unwritten { IfErr result (IsCausedBy (W.has_failed writer.new)) }
{
    let message = note(
        alloc,
        options.reporting.style,
        origin,
        "not-text",
        "the bytes aren't UTF-8",
    )?;
    write(writer, &message)?;
    Ok(TextEnd::NotText)
}

/// Writes all of the bytes.
pub fn write<W: Sink>(writer: &mut W, bytes: &[u8]) -> Result<(), LintError>
    ensures written { OnOk result (Appends (W.contents writer.old) (W.contents writer.new) bytes.now) }
    ensures unwritten { IfErr result (IsCausedBy (W.has_failed writer.new)) }
{
    match writer.put_all(bytes) {
        Ok(()) => Ok(()),
        Err(Failed) => Err(LintError::Write),
    }
}
