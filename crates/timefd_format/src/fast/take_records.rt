//! Batches of records, taken from a reader.

ghost use Rattle.std.specs.Prelude.{IfErr, IfOk};
ghost use Rattle.timefd_format.specs.Failures.{IsSourceAfterBatch};
ghost use Rattle.timefd_format.specs.Frames.{IsFailure};
ghost use Rattle.timefd_format.specs.ReadBack.{AreLeavesOf};
ghost use Rattle.timefd_format.specs.RecordBatches.{AreRecordsTaken};
ghost use Rattle.timefd_format.specs.Sources.{AreLeavesIn};

use crate::fast::record_batch::record_batch_of;
use crate::fast::take::BatchTaken;
use crate::frame::send;
use crate::outcome::RunError;
use crate::source::MomentSource;
use timefd_bin_streams::{BufferedError, BufferedSource, Sink};
use timefd_lang_node_list::Leaf;
use timefd_parse::BorrowedOutput;

/// Takes records from what the reader has in its buffer, and writes them, each with the text of its moment in
/// place of the field after `count` others. Each record is a line.
///
/// An `Err` says that memory ran out, or that the output failed.
#[tactic(auto, using(crate::proofs::RecordTakenLemmas::batch_taken, crate::proofs::TakenLemmas::end_shown))]
pub fn take_records<R: BufferedSource, W: Sink>(
    source: &MomentSource<'_>,
    source_leaves: Option<&[Leaf<'_>]>,
    description: &BorrowedOutput<'_>,
    leaves: Option<&[Leaf<'_>]>,
    count: usize,
    room: &mut [u8],
    reader: &mut R,
    output: &mut W,
) -> Result<BatchTaken, RunError>
    requires source { AreLeavesIn source.now source_leaves }
    requires written { AreLeavesOf description.now leaves }
    ensures taken { IfOk result (AreRecordsTaken source.now description.now count (R.remaining reader.old)
        (R.remaining reader.new) (W.contents output.old) (W.contents output.new)) }
    ensures source { IfOk result (IsSourceAfterBatch (R.calls_left reader.old) (R.calls_left reader.new)
        (R.has_failed reader.new)) }
    ensures error { IfErr result (IsFailure (W.has_failed output.new)) }
{
    let Some(leaves) = leaves else {
        return Ok(BatchTaken::Nothing);
    };
    if let Err(error) = reader.fill() {
        return match error {
            BufferedError::Memory => Err(RunError::Memory),
            BufferedError::Failed(_) => Ok(BatchTaken::Failed),
        };
    }
    let text = reader.buffer();
    if text.is_empty() {
        return Ok(BatchTaken::End);
    }
    let batch = record_batch_of(
        source,
        source_leaves,
        description,
        leaves,
        count,
        text,
        room,
    );
    if batch.line_count == 0 {
        return Ok(BatchTaken::Nothing);
    }
    send(&room[..batch.written], output)?;
    reader.consume(batch.read);
    Ok(BatchTaken::Lines(batch.line_count))
}
