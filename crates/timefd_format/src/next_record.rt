//! The records that come next in a table: many at once, or one by itself.

ghost use Rattle.std.specs.Prelude.{IfErr, IfOk};
ghost use Rattle.timefd_format.specs.Failures.{IsSourceAfterRecords};
ghost use Rattle.timefd_format.specs.Frames.{EndsOnlyAsAsked};
ghost use Rattle.timefd_format.specs.ReadBack.{AreLeavesOf};
ghost use Rattle.timefd_format.specs.RecordBatches.{IsNextRecords};
ghost use Rattle.timefd_format.specs.Sources.{AreLeavesIn};
ghost use Rattle.timefd_format.specs.TableReports.{ReportsNextRecords};

use crate::fast::take::BatchTaken;
use crate::fast::take_records::take_records;
use crate::otherwise::Otherwise;
use crate::outcome::{RunError, WordTally};
use crate::records::{RecordRead, read_record};
use crate::source::MomentSource;
use crate::table::{tally_open, tally_record};
use std::alloc::Global;
use timefd_bin_streams::{BufferedSource, Sink};
use timefd_lang_node_list::Leaf;
use timefd_parse::BorrowedOutput;

/// What came next.
#[derive(Clone, Copy)]
pub enum NextRecords {
    /// This many records of one line each, all of which are written.
    Batch(usize),
    /// A record that adds this to the tally, and that has this many lines.
    Record(WordTally, u64),
    /// The end of the input.
    End,
    /// A read that failed.
    Failed,
}

/// Writes the next records in a batch. If that can't be done with the first of them, which begins in the line
/// with this number, it is looked at by itself.
#[tactic(auto, using(crate::proofs::RecordTakenLemmas::batch_next, crate::proofs::RecordTakenLemmas::end_next, crate::proofs::RecordTakenLemmas::failed_next, crate::proofs::RecordTakenLemmas::nothing_next, crate::proofs::RecordTakenLemmas::source_after, crate::proofs::TableReportLemmas::batch_reported, crate::proofs::TableReportLemmas::after_nothing, crate::proofs::TableReportLemmas::end_reported, crate::proofs::TableReportLemmas::failure_reported))]
pub fn write_next_records<R: BufferedSource, W: Sink, E: Sink>(
    alloc: Global,
    source: &MomentSource<'_>,
    source_leaves: Option<&[Leaf<'_>]>,
    description: &BorrowedOutput<'_>,
    leaves: Option<&[Leaf<'_>]>,
    otherwise: Otherwise,
    count: usize,
    line: u64,
    row: &mut Vec<u8>,
    text: &mut Vec<u8>,
    room: &mut [u8],
    space: &mut [u8],
    reader: &mut R,
    output: &mut W,
    errors: &mut E,
) -> Result<NextRecords, RunError>
    requires source { AreLeavesIn source.now source_leaves }
    requires written { AreLeavesOf description.now leaves }
    ensures next { IfOk result (IsNextRecords otherwise source.now description.now count
        (R.remaining reader.old) (R.remaining reader.new) (W.contents output.old) (W.contents output.new)) }
    ensures source { IfOk result (IsSourceAfterRecords (R.calls_left reader.old) (R.calls_left reader.new)
        (R.has_failed reader.new)) }
    ensures reports { IfOk result (ReportsNextRecords source.now description.now count line (R.remaining reader.old)
        (R.remaining reader.new) (E.contents errors.old) (E.contents errors.new) (E.has_failed errors.old)
        (E.has_failed errors.new)) }
    ensures ends { IfErr result (EndsOnlyAsAsked otherwise (W.has_failed output.new)) }
{
    match take_records(
        source,
        source_leaves,
        description,
        leaves,
        count,
        space,
        reader,
        output,
    )? {
        BatchTaken::Lines(record_count) => Ok(NextRecords::Batch(record_count)),
        BatchTaken::Nothing => write_record_by_itself(
            alloc,
            source,
            source_leaves,
            description,
            leaves,
            otherwise,
            count,
            line,
            row,
            text,
            room,
            reader,
            output,
            errors,
        ),
        BatchTaken::End => Ok(NextRecords::End),
        BatchTaken::Failed => Ok(NextRecords::Failed),
    }
}

// Reads one more record, which begins in the line with this number, and writes it.
#[tactic(auto, using(crate::proofs::RecordTakenLemmas::record_looked, crate::proofs::RecordTakenLemmas::open_looked, crate::proofs::RecordTakenLemmas::no_record_looked, crate::proofs::RecordTakenLemmas::source_after_record, crate::proofs::RecordTakenLemmas::source_after_open, crate::proofs::RecordTakenLemmas::source_failed, crate::proofs::TableReportLemmas::record_reported, crate::proofs::TableReportLemmas::open_reported, crate::proofs::TableReportLemmas::no_record_reported, crate::proofs::TableReportLemmas::failure_reported))]
fn write_record_by_itself<R: BufferedSource, W: Sink, E: Sink>(
    alloc: Global,
    source: &MomentSource<'_>,
    source_leaves: Option<&[Leaf<'_>]>,
    description: &BorrowedOutput<'_>,
    leaves: Option<&[Leaf<'_>]>,
    otherwise: Otherwise,
    count: usize,
    line: u64,
    row: &mut Vec<u8>,
    text: &mut Vec<u8>,
    room: &mut [u8],
    reader: &mut R,
    output: &mut W,
    errors: &mut E,
) -> Result<NextRecords, RunError>
    requires source { AreLeavesIn source.now source_leaves }
    requires written { AreLeavesOf description.now leaves }
    ensures next { IfOk result (IsNextRecords otherwise source.now description.now count
        (R.remaining reader.old) (R.remaining reader.new) (W.contents output.old) (W.contents output.new)) }
    ensures source { IfOk result (IsSourceAfterRecords (R.calls_left reader.old) (R.calls_left reader.new)
        (R.has_failed reader.new)) }
    ensures reports { IfOk result (ReportsNextRecords source.now description.now count line (R.remaining reader.old)
        (R.remaining reader.new) (E.contents errors.old) (E.contents errors.new) (E.has_failed errors.old)
        (E.has_failed errors.new)) }
    ensures ends { IfErr result (EndsOnlyAsAsked otherwise (W.has_failed output.new)) }
{
    match read_record(reader, row)? {
        RecordRead::Record(lines) => {
            let one = tally_record(
                alloc,
                source,
                source_leaves,
                description,
                leaves,
                otherwise,
                count,
                line,
                row.as_slice(),
                text,
                room,
                output,
                errors,
            )?;
            Ok(NextRecords::Record(one, lines))
        }
        RecordRead::Open => {
            let one = tally_open(alloc, otherwise, line, row.as_slice(), output, errors)?;
            Ok(NextRecords::Record(one, 1))
        }
        RecordRead::End => Ok(NextRecords::End),
        RecordRead::Failed => Ok(NextRecords::Failed),
    }
}
