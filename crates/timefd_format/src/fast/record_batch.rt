//! A batch of records, from a text into a room, and where a record without quotes ends.

ghost use Rattle.std.specs.Prelude.{◌≤◌, IfSome, length, take};
ghost use Rattle.timefd_format.specs.ReadBack.{IsMadeOf};
ghost use Rattle.timefd_format.specs.RecordBatches.{IsPlainRecord, IsRecordBatch, TriesToGrowByRecord};
ghost use Rattle.timefd_format.specs.Sources.{AreLeavesIn};

use crate::fast::batch::Batch;
use crate::fast::record::append_record;
use crate::source::MomentSource;
use memchr::memchr2;
use timefd_lang_node_list::Leaf;
use timefd_parse::BorrowedOutput;

/// How many bytes the first record has, with its newline, if no quote is in it. `None` says nothing about the
/// record.
#[inline(always)]
#[tactic(auto, using(crate::proofs::PlainRecordLemmas::up_to_newline, crate::proofs::PlainRecordLemmas::newline_within))]
pub fn plain_record_len(text: &[u8]) -> Option<usize>
    ensures within { IfSome result (λ len. len ≤ length text.now) }
    ensures record { IfSome result (λ len. IsPlainRecord (take len text.now)) }
{
    let at = memchr2(b'\n', b'"', text)?;
    if text[at] != b'\n' {
        return None;
    }
    Some(at + 1)
}

/// Reads records without quotes from the front of a text, and writes them to the front of the room, each with
/// the text of its moment in place of the field after `count` others: as many as can be read and written
/// without a message or memory. Each record is a line.
#[inline(never)]
#[tactic(auto, using(crate::proofs::RecordBatchLemmas::empty_batch))]
pub fn record_batch_of(
    source: &MomentSource<'_>,
    source_leaves: Option<&[Leaf<'_>]>,
    description: &BorrowedOutput<'_>,
    leaves: &[Leaf<'_>],
    count: usize,
    text: &[u8],
    room: &mut [u8],
) -> Batch
    requires source { AreLeavesIn source.now source_leaves }
    requires written { IsMadeOf description.now leaves.now }
    ensures { IsRecordBatch source.now description.now count text.now room.new result }
{
    let mut batch = Batch::new();
    'records: for _ in 0..text.len() {
        match grown(
            source,
            source_leaves,
            description,
            leaves,
            count,
            text,
            room,
            batch,
        ) {
            Some(more) => batch = more,
            None => return batch,
        }
    }
    batch
}

// The batch with one more record. `None` says nothing about the next record; then the batch stays what it is.
#[inline(always)]
#[tactic(auto, using(crate::proofs::RecordBatchLemmas::one_more, crate::proofs::RecordBatchLemmas::same_batch))]
fn grown(
    source: &MomentSource<'_>,
    source_leaves: Option<&[Leaf<'_>]>,
    description: &BorrowedOutput<'_>,
    leaves: &[Leaf<'_>],
    count: usize,
    text: &[u8],
    room: &mut [u8],
    batch: Batch,
) -> Option<Batch>
    requires source { AreLeavesIn source.now source_leaves }
    requires written { IsMadeOf description.now leaves.now }
    requires batch { IsRecordBatch source.now description.now count text.now room.old batch }
    ensures { TriesToGrowByRecord source.now description.now count text.now batch room.new result }
{
    let rest = &text[batch.read..];
    let len = plain_record_len(rest)?;
    let row = &rest[..len];
    let end = append_record(
        source,
        source_leaves,
        description,
        leaves,
        count,
        row,
        room,
        batch.written,
    )?;
    Some(Batch {
        line_count: batch.line_count + 1,
        read: batch.read + len,
        written: end,
    })
}
