//! The moments that the lines of a reader name, one after another.

ghost use Rattle.std.specs.Prelude.{◌≡◌, IfErr, IfOk, length};
ghost use Rattle.timefd_format.specs.Batches.{IsNext};
ghost use Rattle.timefd_format.specs.Failures.{IsSourceAfterLine, IsSourceAfterNext, IsUnreadOnlyIf};
ghost use Rattle.timefd_format.specs.Frames.{EndsOnlyAsAsked};
ghost use Rattle.timefd_format.specs.LineReports.{ReportsLines, ReportsNext};
ghost use Rattle.timefd_format.specs.ReadBack.{AreLeavesOf};
ghost use Rattle.timefd_format.specs.Sources.{AreLeavesIn};
ghost use Rattle.timefd_format.specs.Written as spec;
ghost use Rattle.timefd_format.specs.Written.{IsRead, IsReadMore, RunsOver};

use crate::entry::tally_one;
use crate::fast::take::{BatchTaken, batch_room, take_batch};
use crate::frame::{LineFrame, MomentText};
use crate::otherwise::Otherwise;
use crate::outcome::{RunError, WordTally};
use crate::read_back::leaves_of;
use crate::source::{MomentSource, source_leaves};
use std::alloc::{AllocError, Global};
use timefd_bin_streams::{BufferedError, BufferedSource, Sink};
use timefd_lang_node_list::Leaf;
use timefd_lint_rewrite::without_newline;
use timefd_parse::BorrowedOutput;

// How many bytes are reserved for a line: this many for items, whose length isn't known, and at most
// `MOST_ROOM` for a description.
const ITEM_ROOM: usize = 256;

const MOST_ROOM: usize = 65_536;

// Extra bytes. Writing a text from the front of the room needs some space after it.
const SPARE_ROOM: usize = 64;

/// What reading a line came to.
#[derive(Clone, Copy)]
pub enum LineRead {
    /// One more line.
    Line,
    /// The end of the input.
    End,
    /// The read failed.
    Failed,
}

/// Reads one more line and appends it with its newline to these bytes. An `Err` says that memory ran out.
#[tactic(auto, using(crate::proofs::ReadLemmas::one_line, crate::proofs::ReadLemmas::no_line))]
pub fn read_more<R: BufferedSource>(
    reader: &mut R,
    bytes: &mut Vec<u8>,
) -> Result<LineRead, RunError>
    ensures read { IfOk result (IsReadMore (R.remaining reader.old) (R.remaining reader.new)
        bytes.old.items bytes.new.items) }
    ensures source { IfOk result (IsSourceAfterLine (R.calls_left reader.old) (R.calls_left reader.new)
        (R.has_failed reader.new)) }
    ensures memory { IfErr result (λ error. error ≡ RunError.Memory) }
{
    match reader.read_until(b'\n', bytes) {
        Ok(count) => {
            if count == 0 {
                Ok(LineRead::End)
            } else {
                Ok(LineRead::Line)
            }
        }
        Err(BufferedError::Memory) => Err(RunError::Memory),
        Err(BufferedError::Failed(_)) => Ok(LineRead::Failed),
    }
}

/// Reads one more line instead of these bytes. An `Err` says that memory ran out.
#[tactic(auto, using(crate::proofs::ReadLemmas::whole_line))]
pub fn read_line<R: BufferedSource>(
    reader: &mut R,
    bytes: &mut Vec<u8>,
) -> Result<LineRead, RunError>
    ensures read { IfOk result (IsRead (R.remaining reader.old) (R.remaining reader.new)
        bytes.new.items) }
    ensures source { IfOk result (IsSourceAfterLine (R.calls_left reader.old) (R.calls_left reader.new)
        (R.has_failed reader.new)) }
    ensures memory { IfErr result (λ error. error ≡ RunError.Memory) }
{
    bytes.clear();
    read_more(reader, bytes)
}

/// Room for the longest text of the description, or for most texts if that length is unknown or large. An
/// `Err` says that memory ran out.
pub fn line_room(alloc: Global, description: &BorrowedOutput<'_>) -> Result<Vec<u8>, AllocError>
    ensures { IfOk result (λ room. length room.items ≡ spec.line_room description.now) }
{
    vec![in alloc; 0u8; room_of(description)]
}

// How many bytes are reserved for a line.
fn room_of(description: &BorrowedOutput<'_>) -> usize
    ensures { result ≡ spec.line_room description.now }
{
    match description {
        BorrowedOutput::Items(_) => ITEM_ROOM,
        BorrowedOutput::Description(description) => {
            description.max_bytes_needed().min(MOST_ROOM) + SPARE_ROOM
        }
    }
}

/// Writes a line for each line of the reader: the moment that it names or shows. Lines without a moment are
/// reported, and the others are still written.
#[tactic(auto, using(crate::proofs::LineLemmas::borrowed_in, crate::proofs::LineLemmas::borrowed_of))]
pub fn write_lines<R: BufferedSource, W: Sink, E: Sink>(
    alloc: Global,
    source: &MomentSource<'_>,
    description: &BorrowedOutput<'_>,
    otherwise: Otherwise,
    reader: &mut R,
    output: &mut W,
    errors: &mut E,
) -> Result<WordTally, RunError>
    ensures runs { IfOk result (RunsOver otherwise source.now description.now (R.remaining reader.old)
        (W.contents output.old) (W.contents output.new)) }
    ensures unread { IfOk result (IsUnreadOnlyIf (R.has_failed reader.new)) }
    ensures reports { IfOk result (λ tally. ReportsLines source.now description.now tally.has_failed
        (R.remaining reader.old) (E.contents errors.old) (E.contents errors.new) (E.has_failed errors.old)
        (E.has_failed errors.new)) }
    ensures ends { IfErr result (EndsOnlyAsAsked otherwise (W.has_failed output.new)) }
{
    let read = source_leaves(alloc, source)?;
    let written = leaves_of(alloc, description)?;
    write_by(
        alloc,
        source,
        read.as_deref(),
        description,
        written.as_deref(),
        otherwise,
        reader,
        output,
        errors,
    )
}

// Writes those lines by the leaves of both descriptions, if they have some.
#[tactic(auto, using(crate::proofs::RunLemmas::lines_start, crate::proofs::LineReportLemmas::starts, crate::proofs::TakenLemmas::batch_more, crate::proofs::TakenLemmas::next_more, crate::proofs::TakenLemmas::next_ends, crate::proofs::TakenLemmas::next_fails))]
fn write_by<R: BufferedSource, W: Sink, E: Sink>(
    alloc: Global,
    source: &MomentSource<'_>,
    source_leaves: Option<&[Leaf<'_>]>,
    description: &BorrowedOutput<'_>,
    leaves: Option<&[Leaf<'_>]>,
    otherwise: Otherwise,
    reader: &mut R,
    output: &mut W,
    errors: &mut E,
) -> Result<WordTally, RunError>
    requires source { AreLeavesIn source.now source_leaves }
    requires written { AreLeavesOf description.now leaves }
    ensures runs { IfOk result (RunsOver otherwise source.now description.now (R.remaining reader.old)
        (W.contents output.old) (W.contents output.new)) }
    ensures unread { IfOk result (IsUnreadOnlyIf (R.has_failed reader.new)) }
    ensures reports { IfOk result (λ tally. ReportsLines source.now description.now tally.has_failed
        (R.remaining reader.old) (E.contents errors.old) (E.contents errors.new) (E.has_failed errors.old)
        (E.has_failed errors.new)) }
    ensures ends { IfErr result (EndsOnlyAsAsked otherwise (W.has_failed output.new)) }
{
    let mut tally = WordTally::at_end(false);
    let mut line: u64 = 1;
    let mut bytes = Vec::new(alloc);
    let mut room = line_room(alloc, description)?;
    let mut space = batch_room(alloc)?;
    'lines: loop {
        match write_next(
            alloc,
            source,
            source_leaves,
            description,
            leaves,
            otherwise,
            line,
            &mut bytes,
            &mut room,
            &mut space,
            reader,
            output,
            errors,
        )? {
            NextLine::Lines(count) => line = line.saturating_add(count as u64),
            NextLine::Line(one) => {
                tally = tally.and(one);
                line = line.saturating_add(1);
            }
            NextLine::End => return Ok(tally),
            NextLine::Failed => return Ok(tally.and(WordTally::at_end(true))),
        }
    }
}

/// What came next.
#[derive(Clone, Copy)]
pub enum NextLine {
    /// This many lines, each of which is written.
    Lines(usize),
    /// A line that adds this to the tally.
    Line(WordTally),
    /// The end of the input.
    End,
    /// A read that failed.
    Failed,
}

// Writes the next lines in a batch. If that can't be done with the first of them, which has this number, it is
// looked at by itself.
#[tactic(auto, using(crate::proofs::TakenLemmas::lines_next, crate::proofs::TakenLemmas::end_next, crate::proofs::TakenLemmas::failed_next, crate::proofs::TakenLemmas::nothing_next, crate::proofs::TakenLemmas::source_after, crate::proofs::LineReportLemmas::batch_reported, crate::proofs::LineReportLemmas::after_nothing, crate::proofs::LineReportLemmas::end_reported, crate::proofs::LineReportLemmas::failure_reported))]
fn write_next<R: BufferedSource, W: Sink, E: Sink>(
    alloc: Global,
    source: &MomentSource<'_>,
    source_leaves: Option<&[Leaf<'_>]>,
    description: &BorrowedOutput<'_>,
    leaves: Option<&[Leaf<'_>]>,
    otherwise: Otherwise,
    line: u64,
    bytes: &mut Vec<u8>,
    room: &mut [u8],
    space: &mut [u8],
    reader: &mut R,
    output: &mut W,
    errors: &mut E,
) -> Result<NextLine, RunError>
    requires source { AreLeavesIn source.now source_leaves }
    requires written { AreLeavesOf description.now leaves }
    ensures next { IfOk result (IsNext otherwise source.now description.now (R.remaining reader.old)
        (R.remaining reader.new) (W.contents output.old) (W.contents output.new)) }
    ensures source { IfOk result (IsSourceAfterNext (R.calls_left reader.old) (R.calls_left reader.new)
        (R.has_failed reader.new)) }
    ensures reports { IfOk result (ReportsNext source.now description.now line (R.remaining reader.old)
        (R.remaining reader.new) (E.contents errors.old) (E.contents errors.new) (E.has_failed errors.old)
        (E.has_failed errors.new)) }
    ensures ends { IfErr result (EndsOnlyAsAsked otherwise (W.has_failed output.new)) }
{
    match take_batch(
        source,
        source_leaves,
        description,
        leaves,
        space,
        reader,
        output,
    )? {
        BatchTaken::Lines(count) => Ok(NextLine::Lines(count)),
        BatchTaken::Nothing => write_line_by_itself(
            alloc,
            source,
            source_leaves,
            description,
            leaves,
            otherwise,
            line,
            bytes,
            room,
            reader,
            output,
            errors,
        ),
        BatchTaken::End => Ok(NextLine::End),
        BatchTaken::Failed => Ok(NextLine::Failed),
    }
}

// Reads one more line, which has this number, and writes the moment that it names or shows.
#[tactic(auto, using(crate::proofs::TakenLemmas::line_looked, crate::proofs::TakenLemmas::no_line_looked, crate::proofs::LineReportLemmas::line_reported, crate::proofs::LineReportLemmas::no_line_reported, crate::proofs::LineReportLemmas::failure_reported))]
fn write_line_by_itself<R: BufferedSource, W: Sink, E: Sink>(
    alloc: Global,
    source: &MomentSource<'_>,
    source_leaves: Option<&[Leaf<'_>]>,
    description: &BorrowedOutput<'_>,
    leaves: Option<&[Leaf<'_>]>,
    otherwise: Otherwise,
    line: u64,
    bytes: &mut Vec<u8>,
    room: &mut [u8],
    reader: &mut R,
    output: &mut W,
    errors: &mut E,
) -> Result<NextLine, RunError>
    requires source { AreLeavesIn source.now source_leaves }
    requires written { AreLeavesOf description.now leaves }
    ensures next { IfOk result (IsNext otherwise source.now description.now (R.remaining reader.old)
        (R.remaining reader.new) (W.contents output.old) (W.contents output.new)) }
    ensures source { IfOk result (IsSourceAfterNext (R.calls_left reader.old) (R.calls_left reader.new)
        (R.has_failed reader.new)) }
    ensures reports { IfOk result (ReportsNext source.now description.now line (R.remaining reader.old)
        (R.remaining reader.new) (E.contents errors.old) (E.contents errors.new) (E.has_failed errors.old)
        (E.has_failed errors.new)) }
    ensures ends { IfErr result (EndsOnlyAsAsked otherwise (W.has_failed output.new)) }
{
    match read_line(reader, bytes)? {
        LineRead::Line => {
            let one = tally_one(
                alloc,
                source,
                source_leaves,
                description,
                leaves,
                otherwise,
                MomentText {
                    line: Some(line),
                    text: without_newline(bytes.as_slice()),
                    frame: LineFrame::Line,
                },
                room,
                output,
                errors,
            )?;
            Ok(NextLine::Line(one))
        }
        LineRead::End => Ok(NextLine::End),
        LineRead::Failed => Ok(NextLine::Failed),
    }
}
