//! A table of comma-separated values, with one column rewritten.

ghost use Rattle.std.specs.Prelude.{◌≡◌, false, IfErr, IfOk, OnOk};
ghost use Rattle.timefd_lint_drawing.specs.People.{for_people};
ghost use Rattle.timefd_format.specs.Failures.{IsUnreadOnlyIf};
ghost use Rattle.timefd_format.specs.Frames.{EndsOnlyAsAsked};
ghost use Rattle.timefd_format.specs.Messages.{open_message};
ghost use Rattle.timefd_format.specs.ReadBack.{AreLeavesOf};
ghost use Rattle.timefd_format.specs.Records.{is_open};
ghost use Rattle.timefd_format.specs.Sources.{AreLeavesIn};
ghost use Rattle.timefd_format.specs.Reports.{Gets};
ghost use Rattle.timefd_format.specs.TableReports.{ReportsNamed, ReportsRecord, ReportsRecords, ReportsTable};
ghost use Rattle.timefd_format.specs.Tallies.{refused};
ghost use Rattle.timefd_format.specs.Tables.{IsNamedTable, IsRecord, IsTable, ReplacesRecord, RunsRecordsOver};

use crate::column::Column;
use crate::entry::tally_one;
use crate::fast::take::batch_room;
use crate::fields::{cell_after, text_in};
use crate::frame::{LineFrame, MomentText, send};
use crate::header::named_in;
use crate::lines::line_room;
use crate::message::{no_field_message, no_header_message, open_message, unnamed_message};
use crate::next_record::{NextRecords, write_next_records};
use crate::otherwise::Otherwise;
use crate::outcome::{RunError, WordTally};
use crate::read_back::leaves_of;
use crate::records::{RecordRead, read_record};
use crate::report::report;
use crate::source::{MomentSource, source_leaves};
use std::alloc::Global;
use timefd_bin_streams::{BufferedSource, Sink};
use timefd_lang_node_list::Leaf;
use timefd_lint_rewrite::without_newline;
use timefd_parse::BorrowedOutput;

/// Writes the records of a reader, one after another. In each, one field is replaced with its moment's
/// text, and every other byte stays as it is. A field that isn't a moment is reported with the number
/// of its line, and what `--else` asks for is written instead.
#[tactic(auto, using(crate::proofs::LineLemmas::borrowed_in, crate::proofs::LineLemmas::borrowed_of))]
pub fn write_table<R: BufferedSource, W: Sink, E: Sink>(
    alloc: Global,
    source: &MomentSource<'_>,
    description: &BorrowedOutput<'_>,
    otherwise: Otherwise,
    column: Column<'_>,
    reader: &mut R,
    output: &mut W,
    errors: &mut E,
) -> Result<WordTally, RunError>
    ensures table { IfOk result (IsTable otherwise source.now description.now column.entry
        (R.remaining reader.old) (W.contents output.old) (W.contents output.new)) }
    ensures unread { IfOk result (IsUnreadOnlyIf (R.has_failed reader.new)) }
    ensures reports { IfOk result (λ tally. ReportsTable source.now description.now column.entry tally.has_failed
        (R.remaining reader.old) (E.contents errors.old) (E.contents errors.new) (E.has_failed errors.old)
        (E.has_failed errors.new)) }
    ensures ends { IfErr result (EndsOnlyAsAsked otherwise (W.has_failed output.new)) }
{
    let read = source_leaves(alloc, source)?;
    let written = leaves_of(alloc, description)?;
    match column {
        Column::After(count) => write_records(
            alloc,
            source,
            read.as_deref(),
            description,
            written.as_deref(),
            otherwise,
            count,
            1,
            reader,
            output,
            errors,
        ),
        Column::Named(name) => write_named(
            alloc,
            source,
            read.as_deref(),
            description,
            written.as_deref(),
            otherwise,
            name,
            reader,
            output,
            errors,
        ),
    }
}

// Writes the table by the column that the first record gives this name.
#[tactic(auto, using(crate::proofs::TableReportLemmas::no_header_reported, crate::proofs::TableReportLemmas::header_unread, crate::proofs::TableReportLemmas::unnamed_reported, crate::proofs::TableReportLemmas::named_reported))]
fn write_named<R: BufferedSource, W: Sink, E: Sink>(
    alloc: Global,
    source: &MomentSource<'_>,
    source_leaves: Option<&[Leaf<'_>]>,
    description: &BorrowedOutput<'_>,
    leaves: Option<&[Leaf<'_>]>,
    otherwise: Otherwise,
    name: &str,
    reader: &mut R,
    output: &mut W,
    errors: &mut E,
) -> Result<WordTally, RunError>
    requires source { AreLeavesIn source.now source_leaves }
    requires written { AreLeavesOf description.now leaves }
    ensures table { IfOk result (IsNamedTable otherwise source.now description.now name.now
        (R.remaining reader.old) (W.contents output.old) (W.contents output.new)) }
    ensures unread { IfOk result (IsUnreadOnlyIf (R.has_failed reader.new)) }
    ensures reports { IfOk result (λ tally. ReportsNamed source.now description.now name.now tally.has_failed
        (R.remaining reader.old) (E.contents errors.old) (E.contents errors.new) (E.has_failed errors.old)
        (E.has_failed errors.new)) }
    ensures ends { IfErr result (EndsOnlyAsAsked otherwise (W.has_failed output.new)) }
{
    let mut header = Vec::new(alloc);
    let lines = match read_record(reader, &mut header)? {
        RecordRead::Record(lines) => lines,
        RecordRead::Open => 1,
        RecordRead::End => {
            let message = no_header_message(alloc, name)?;
            report(alloc, errors, message.as_bytes())?;
            return Ok(WordTally::refused());
        }
        RecordRead::Failed => return Ok(WordTally::at_end(true)),
    };
    match named_in(alloc, name, &header)? {
        Ok(count) => {
            send(&header, output)?;
            write_records(
                alloc,
                source,
                source_leaves,
                description,
                leaves,
                otherwise,
                count,
                lines.saturating_add(1),
                reader,
                output,
                errors,
            )
        }
        Err(error) => {
            let message = unnamed_message(alloc, name, error)?;
            report(alloc, errors, message.as_bytes())?;
            Ok(WordTally::refused())
        }
    }
}

// Writes the records from a line on. The field to replace is the one after `count` others.
#[tactic(auto, using(crate::proofs::TableLemmas::starts, crate::proofs::TableReportLemmas::starts, crate::proofs::TableLemmas::records_fail, crate::proofs::RecordTakenLemmas::batch_more, crate::proofs::RecordTakenLemmas::next_more, crate::proofs::RecordTakenLemmas::next_ends, crate::proofs::RecordTakenLemmas::next_fails))]
fn write_records<R: BufferedSource, W: Sink, E: Sink>(
    alloc: Global,
    source: &MomentSource<'_>,
    source_leaves: Option<&[Leaf<'_>]>,
    description: &BorrowedOutput<'_>,
    leaves: Option<&[Leaf<'_>]>,
    otherwise: Otherwise,
    count: usize,
    first_line: u64,
    reader: &mut R,
    output: &mut W,
    errors: &mut E,
) -> Result<WordTally, RunError>
    requires source { AreLeavesIn source.now source_leaves }
    requires written { AreLeavesOf description.now leaves }
    ensures runs { IfOk result (RunsRecordsOver otherwise source.now description.now count
        (R.remaining reader.old) (W.contents output.old) (W.contents output.new)) }
    ensures unread { IfOk result (IsUnreadOnlyIf (R.has_failed reader.new)) }
    ensures reports { IfOk result (λ tally. ReportsRecords source.now description.now count first_line tally.has_failed
        (R.remaining reader.old) (E.contents errors.old) (E.contents errors.new) (E.has_failed errors.old)
        (E.has_failed errors.new)) }
    ensures ends { IfErr result (EndsOnlyAsAsked otherwise (W.has_failed output.new)) }
{
    let mut tally = WordTally::at_end(false);
    let mut line = first_line;
    let mut row = Vec::new(alloc);
    let mut text = Vec::new(alloc);
    let mut room = line_room(alloc, description)?;
    let mut space = batch_room(alloc)?;
    'records: loop {
        match write_next_records(
            alloc,
            source,
            source_leaves,
            description,
            leaves,
            otherwise,
            count,
            line,
            &mut row,
            &mut text,
            &mut room,
            &mut space,
            reader,
            output,
            errors,
        )? {
            NextRecords::Batch(record_count) => line = line.saturating_add(record_count as u64),
            NextRecords::Record(one, lines) => {
                tally = tally.and(one);
                line = line.saturating_add(lines);
            }
            NextRecords::End => return Ok(tally),
            NextRecords::Failed => return Ok(tally.and(WordTally::at_end(true))),
        }
    }
}

/// Writes a record, and returns what it adds to the tally. `row` is the record with its newline, `text` is room for
/// the text of its field.
#[tactic(auto, using(crate::proofs::TableLemmas::of_cell, crate::proofs::TableReportLemmas::empty_reported))]
pub fn tally_record<W: Sink, E: Sink>(
    alloc: Global,
    source: &MomentSource<'_>,
    source_leaves: Option<&[Leaf<'_>]>,
    description: &BorrowedOutput<'_>,
    leaves: Option<&[Leaf<'_>]>,
    otherwise: Otherwise,
    count: usize,
    line: u64,
    row: &[u8],
    text: &mut Vec<u8>,
    room: &mut [u8],
    output: &mut W,
    errors: &mut E,
) -> Result<WordTally, RunError>
    requires source { AreLeavesIn source.now source_leaves }
    requires written { AreLeavesOf description.now leaves }
    requires closed { is_open row.now ≡ false }
    ensures one { IfOk result (IsRecord otherwise source.now description.now count row.now
        (W.contents output.old) (W.contents output.new)) }
    ensures read { IfOk result (λ tally. tally.has_failed ≡ false) }
    ensures reports { OnOk result (ReportsRecord source.now description.now count line row.now
        (E.contents errors.old) (E.contents errors.new) (E.has_failed errors.old) (E.has_failed errors.new)) }
    ensures ends { IfErr result (EndsOnlyAsAsked otherwise (W.has_failed output.new)) }
{
    if without_newline(row).is_empty() {
        send(row, output)?;
        return Ok(WordTally::at_end(false));
    }
    match cell_after(count, row) {
        Some(cell) => {
            text_in(cell.field, text)?;
            tally_one(
                alloc,
                source,
                source_leaves,
                description,
                leaves,
                otherwise,
                MomentText {
                    line: Some(line),
                    text: text.as_slice(),
                    frame: LineFrame::Field(cell),
                },
                room,
                output,
                errors,
            )
        }
        None => {
            let message = no_field_message(alloc, line)?;
            report(alloc, errors, message.as_bytes())?;
            replace_record(otherwise, row, output)?;
            Ok(WordTally::refused())
        }
    }
}

/// Writes the rest of an input whose quotes aren't closed, and returns what it adds to the tally.
pub fn tally_open<W: Sink, E: Sink>(
    alloc: Global,
    otherwise: Otherwise,
    line: u64,
    row: &[u8],
    output: &mut W,
    errors: &mut E,
) -> Result<WordTally, RunError>
    ensures replaced { OnOk result (ReplacesRecord otherwise row.now (W.contents output.old)
        (W.contents output.new)) }
    ensures tally { IfOk result (λ tally. tally ≡ refused) }
    ensures reports { OnOk result (Gets (for_people false (open_message line)) (E.contents errors.old)
        (E.contents errors.new) (E.has_failed errors.old) (E.has_failed errors.new)) }
    ensures ends { IfErr result (EndsOnlyAsAsked otherwise (W.has_failed output.new)) }
{
    let message = open_message(alloc, line)?;
    report(alloc, errors, message.as_bytes())?;
    replace_record(otherwise, row, output)?;
    Ok(WordTally::refused())
}

// Writes what `--else` asks for instead of a record that has no such field.
fn replace_record<W: Sink>(otherwise: Otherwise, row: &[u8], output: &mut W) -> Result<(), RunError>
    ensures replaced { OnOk result (ReplacesRecord otherwise row.now (W.contents output.old)
        (W.contents output.new)) }
    ensures ends { IfErr result (EndsOnlyAsAsked otherwise (W.has_failed output.new)) }
{
    match otherwise {
        Otherwise::Nothing => Ok(()),
        Otherwise::Keep | Otherwise::Empty => send(row, output),
        Otherwise::Fail => Err(RunError::Refused),
    }
}
