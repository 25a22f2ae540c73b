//! Batches of lines, taken from a reader.

ghost use Rattle.std.specs.Prelude.{◌≡◌, IfErr, IfOk, length};
ghost use Rattle.timefd_format.specs.Batches as spec;
ghost use Rattle.timefd_format.specs.Batches.{IsTaken};
ghost use Rattle.timefd_format.specs.Failures.{IsSourceAfterBatch};
ghost use Rattle.timefd_format.specs.Frames.{IsFailure};
ghost use Rattle.timefd_format.specs.ReadBack.{AreLeavesOf};
ghost use Rattle.timefd_format.specs.Sources.{AreLeavesIn};

use crate::fast::batch::batch_of;
use crate::frame::send;
use crate::outcome::RunError;
use crate::source::MomentSource;
use std::alloc::{AllocError, Global};
use timefd_bin_streams::{BufferedError, BufferedSource, Sink};
use timefd_lang_node_list::Leaf;
use timefd_parse::BorrowedOutput;

// How many bytes are reserved for the lines of a batch.
const BATCH_ROOM: usize = 65_536;

/// What taking a batch came to.
#[derive(Clone, Copy)]
pub enum BatchTaken {
    /// This many lines are read and written: one or more.
    Lines(usize),
    /// No line. The next one has to be looked at by itself.
    Nothing,
    /// The end of the input.
    End,
    /// The read failed.
    Failed,
}

/// Room for the lines of a batch. An `Err` says that memory ran out.
pub fn batch_room(alloc: Global) -> Result<Vec<u8>, AllocError>
    ensures { IfOk result (λ room. length room.items ≡ spec.batch_room) }
{
    vec![in alloc; 0u8; BATCH_ROOM]
}

/// Takes lines from what the reader has in its buffer, and writes their moments, a line each.
///
/// An `Err` says that memory ran out, or that the output failed.
#[tactic(auto, using(crate::proofs::TakenLemmas::batch_taken, crate::proofs::TakenLemmas::end_shown))]
pub fn take_batch<R: BufferedSource, W: Sink>(
    source: &MomentSource<'_>,
    source_leaves: Option<&[Leaf<'_>]>,
    description: &BorrowedOutput<'_>,
    leaves: Option<&[Leaf<'_>]>,
    room: &mut [u8],
    reader: &mut R,
    output: &mut W,
) -> Result<BatchTaken, RunError>
    requires source { AreLeavesIn source.now source_leaves }
    requires written { AreLeavesOf description.now leaves }
    ensures taken { IfOk result (IsTaken source.now description.now (R.remaining reader.old)
        (R.remaining reader.new) (W.contents output.old) (W.contents output.new)) }
    ensures source { IfOk result (IsSourceAfterBatch (R.calls_left reader.old) (R.calls_left reader.new)
        (R.has_failed reader.new)) }
    ensures error { IfErr result (IsFailure (W.has_failed output.new)) }
{
    let Some(leaves) = leaves else {
        return Ok(BatchTaken::Nothing);
    };
    if let Err(error) = reader.fill() {
        return match error {
            BufferedError::Memory => Err(RunError::Memory),
            BufferedError::Failed(_) => Ok(BatchTaken::Failed),
        };
    }
    let text = reader.buffer();
    if text.is_empty() {
        return Ok(BatchTaken::End);
    }
    let batch = batch_of(source, source_leaves, description, leaves, text, room);
    if batch.line_count == 0 {
        return Ok(BatchTaken::Nothing);
    }
    send(&room[..batch.written], output)?;
    reader.consume(batch.read);
    Ok(BatchTaken::Lines(batch.line_count))
}
