//! A whole run: from descriptions and words to lines.

ghost use Rattle.std.specs.Prelude.{IfErr, IfOk};
ghost use Rattle.timefd_lint_diagnosis.specs.Words.{texts};
ghost use Rattle.timefd_format.specs.Failures.{IsUnreadEndOnlyIf, IsUnreadOnlyIf};
ghost use Rattle.timefd_format.specs.Frames.{EndsOnlyAsAsked};
ghost use Rattle.timefd_format.specs.RunReports.{ReportsInput, ReportsMoments, ReportsRun, ReportsRunFrom};
ghost use Rattle.timefd_format.specs.Runs.{IsInputRun, IsRun, IsRunFrom, IsRunOf};

use crate::column::Column;
use crate::description::{DescriptionReading, read};
use crate::end::RunOutcome;
use crate::language::Languages;
use crate::lines::write_lines;
use crate::message::Manner;
use crate::otherwise::Otherwise;
use crate::outcome::{RunError, WordTally};
use crate::report::report_fault;
use crate::source::{Clocks, MomentSource, source_of};
use crate::table::write_table;
use crate::warned::{Texts, WRITTEN, report_warnings, warned_by};
use crate::words::write_words;
use std::alloc::Global;
use timefd_bin_streams::{BufferedSource, Sink};
use timefd_parse::{BorrowedOutput, StrftimeTables};

/// Writes the moments that the words name, by the description, one a line. Without words, the moments
/// come from the input. If there is a description to read by, the moments are texts of it.
///
/// If a description is refused, its fault is written to `errors`, and nothing to the output.
/// Otherwise `errors` gets the warnings about the descriptions first.
pub fn run<I: BufferedSource, W: Sink, E: Sink>(
    alloc: Global,
    clocks: Clocks<'_>,
    manner: Manner,
    languages: Languages,
    read: Option<&str>,
    description: &str,
    otherwise: Otherwise,
    column: Option<Column<'_>>,
    words: &[&str],
    input: &mut I,
    output: &mut W,
    errors: &mut E,
) -> Result<RunOutcome, RunError>
    ensures ends { IfErr result (EndsOnlyAsAsked otherwise (W.has_failed output.new)) }
    ensures unread { IfOk result (IsUnreadEndOnlyIf (I.has_failed input.new)) }
    ensures run { IfOk result (IsRun column.entry otherwise clocks.entry manner.is_quiet languages read.entry description.now
        (texts words.now) (I.remaining input.old) (W.contents output.old)
        (W.contents output.new)) }
    ensures reports { IfOk result (ReportsRun column.entry clocks.entry manner.is_colored languages read.entry
        description.entry (texts words.now) (I.remaining input.old) (E.contents errors.old) (E.contents errors.new)
        (E.has_failed errors.old) (E.has_failed errors.new)) }
{
    let tables = StrftimeTables::new();
    match source_of(
        alloc,
        clocks,
        manner.is_colored,
        languages.read,
        &tables,
        read,
        errors,
    )? {
        Some(source) => run_from(
            alloc,
            &source,
            manner,
            languages,
            read,
            description,
            otherwise,
            column,
            words,
            input,
            output,
            errors,
        ),
        None => Ok(RunOutcome::Refused),
    }
}

// Reports the warnings about the descriptions, and writes the moments that the words name or show.
fn run_from<I: BufferedSource, W: Sink, E: Sink>(
    alloc: Global,
    source: &MomentSource<'_>,
    manner: Manner,
    languages: Languages,
    read_by: Option<&str>,
    description: &str,
    otherwise: Otherwise,
    column: Option<Column<'_>>,
    words: &[&str],
    input: &mut I,
    output: &mut W,
    errors: &mut E,
) -> Result<RunOutcome, RunError>
    ensures ends { IfErr result (EndsOnlyAsAsked otherwise (W.has_failed output.new)) }
    ensures unread { IfOk result (IsUnreadEndOnlyIf (I.has_failed input.new)) }
    ensures run { IfOk result (IsRunFrom column.entry otherwise source.now manner.is_quiet languages description.now
        (texts words.now) (I.remaining input.old) (W.contents output.old)
        (W.contents output.new)) }
    ensures reports { IfOk result (ReportsRunFrom column.entry source.now manner.is_colored languages read_by.entry
        description.entry (texts words.now) (I.remaining input.old) (E.contents errors.old) (E.contents errors.new)
        (E.has_failed errors.old) (E.has_failed errors.new)) }
{
    let tables = StrftimeTables::new();
    let texts = Texts {
        read: read_by,
        written: description,
    };
    match read(alloc, languages.written, &tables, description)? {
        DescriptionReading::Refused(diagnostic) => {
            report_fault(
                alloc,
                manner.is_colored,
                WRITTEN,
                description,
                &diagnostic,
                errors,
            )?;
            Ok(RunOutcome::Refused)
        }
        DescriptionReading::Description(description) => {
            let warned = warned_by(manner.is_quiet, languages, source, &description);
            report_warnings(alloc, manner.is_colored, texts, warned, errors)?;
            let tally = write_all(
                alloc,
                source,
                &description,
                otherwise,
                column,
                words,
                input,
                output,
                errors,
            )?;
            Ok(RunOutcome::Done(warned, tally))
        }
    }
}

// Writes the moments of the words, or those of the input.
fn write_all<I: BufferedSource, W: Sink, E: Sink>(
    alloc: Global,
    source: &MomentSource<'_>,
    description: &BorrowedOutput<'_>,
    otherwise: Otherwise,
    column: Option<Column<'_>>,
    words: &[&str],
    input: &mut I,
    output: &mut W,
    errors: &mut E,
) -> Result<WordTally, RunError>
    ensures ends { IfErr result (EndsOnlyAsAsked otherwise (W.has_failed output.new)) }
    ensures unread { IfOk result (IsUnreadOnlyIf (I.has_failed input.new)) }
    ensures run { IfOk result (IsRunOf column.entry otherwise source.now description.now (texts words.now) (I.remaining input.old)
        (W.contents output.old) (W.contents output.new)) }
    ensures reports { IfOk result (ReportsMoments column.entry source.now description.now (texts words.now)
        (I.remaining input.old) (E.contents errors.old) (E.contents errors.new) (E.has_failed errors.old)
        (E.has_failed errors.new)) }
{
    if words.is_empty() {
        write_input(
            alloc,
            source,
            description,
            otherwise,
            column,
            input,
            output,
            errors,
        )
    } else {
        write_words(alloc, source, description, otherwise, words, output, errors)
    }
}

// Writes the moments of the input: one from each line, or from a column.
fn write_input<I: BufferedSource, W: Sink, E: Sink>(
    alloc: Global,
    source: &MomentSource<'_>,
    description: &BorrowedOutput<'_>,
    otherwise: Otherwise,
    column: Option<Column<'_>>,
    input: &mut I,
    output: &mut W,
    errors: &mut E,
) -> Result<WordTally, RunError>
    ensures unread { IfOk result (IsUnreadOnlyIf (I.has_failed input.new)) }
    ensures run { IfOk result (IsInputRun column.entry otherwise source.now description.now (I.remaining input.old)
        (W.contents output.old) (W.contents output.new)) }
    ensures ends { IfErr result (EndsOnlyAsAsked otherwise (W.has_failed output.new)) }
    ensures reports { IfOk result (ReportsInput column.entry source.now description.now (I.remaining input.old)
        (E.contents errors.old) (E.contents errors.new) (E.has_failed errors.old) (E.has_failed errors.new)) }
{
    match column {
        Some(column) => write_table(
            alloc,
            source,
            description,
            otherwise,
            column,
            input,
            output,
            errors,
        ),
        None => write_lines(alloc, source, description, otherwise, input, output, errors),
    }
}
