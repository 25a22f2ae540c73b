//! One record of a batch.

ghost use Rattle.std.specs.Prelude.{◌≡◌, ◌≤◌, ◌≢◌, All, Ok, length};
ghost use Rattle.timefd_date_format.specs.Appends.{TriesToAppend};
ghost use Rattle.timefd_format.specs.Fields.{IsCell};
ghost use Rattle.timefd_format.specs.ReadBack.{IsMadeOf};
ghost use Rattle.timefd_format.specs.RecordBatches.{IsPlainRecord, TriesToAppendRecord, in_cell};
ghost use Rattle.timefd_format.specs.Sources.{AreLeavesIn};
ghost use Rattle.timefd_format.specs.Written.{written_of};

use crate::fast::moment::moment_found;
use crate::fast::plain_cell::plain_cell;
use crate::field::any_wants_quotes;
use crate::frame::Cell;
use crate::source::MomentSource;
use timefd_date_format::{append_leaves, append_literal};
use timefd_date_moment::Moment;
use timefd_lang_node_list::Leaf;
use timefd_parse::BorrowedOutput;

/// Appends a record without quotes, with the text of its moment in place of the field after `count` others, and
/// returns the position after it. `None` says nothing about the record, and what is in front of `at` stays as it
/// was.
#[inline(always)]
#[tactic(auto, using(crate::proofs::RecordBatchLemmas::record_appended, timefd_date_format::proofs::AppendLemmas::kept))]
pub fn append_record(
    source: &MomentSource<'_>,
    source_leaves: Option<&[Leaf<'_>]>,
    description: &BorrowedOutput<'_>,
    leaves: &[Leaf<'_>],
    count: usize,
    row: &[u8],
    room: &mut [u8],
    at: usize,
) -> Option<usize>
    requires source { AreLeavesIn source.now source_leaves }
    requires written { IsMadeOf description.now leaves.now }
    requires plain { IsPlainRecord row.now }
    requires within { at ≤ length room.old }
    ensures { TriesToAppendRecord source.now description.now count row.now room.old at room.new result }
{
    let cell = plain_cell(count, row)?;
    if cell.field.is_empty() {
        return None;
    }
    let moment = moment_found(source, source_leaves, description, cell.field)?;
    append_cell(&moment, description, leaves, cell, room, at)
}

// Appends a record with the text of the moment in place of its field. `None` also if the text needs quotes.
#[inline(never)]
#[tactic(auto, using(crate::proofs::RecordBatchLemmas::cell_appended, crate::proofs::RecordBatchLemmas::front_within, crate::proofs::RecordBatchLemmas::kept_before_text, crate::proofs::RecordBatchLemmas::kept_before_quotes, crate::proofs::BatchLemmas::text_within))]
fn append_cell(
    moment: &Moment,
    description: &BorrowedOutput<'_>,
    leaves: &[Leaf<'_>],
    cell: Cell<'_>,
    room: &mut [u8],
    at: usize,
) -> Option<usize>
    requires written { IsMadeOf description.now leaves.now }
    requires plain { All (λ b. b ≢ 34) cell.field.now }
    requires within { at ≤ length room.old }
    ensures { TriesToAppend (in_cell cell.entry (written_of moment.now description.now)) room.old at
        room.new result }
{
    let begin = append_part(cell.front, room, at)?;
    let end = append_leaves(moment, leaves, room, begin)?;
    if any_wants_quotes(&room[begin..end]) {
        return None;
    }
    append_part(cell.after, room, end)
}

// Appends bytes of the record as they are.
#[inline(always)]
#[tactic(auto, using(timefd_date_format::proofs::AppendLemmas::kept))]
fn append_part(bytes: &[u8], room: &mut [u8], at: usize) -> Option<usize>
    requires { at ≤ length room.old }
    ensures { TriesToAppend (Ok bytes.now) room.old at room.new result }
{
    if room.len() - at < 32 {
        return None;
    }
    append_literal(bytes, room, at)
}
