//! One line of a batch.

ghost use Rattle.std.specs.Prelude.{◌≤◌, Ok, length};
ghost use Rattle.timefd_date_format.specs.Appends.{TriesToAppend};
ghost use Rattle.timefd_format.specs.Batches.{TriesToAppendLine, with_newline};
ghost use Rattle.timefd_format.specs.ReadBack.{IsMadeOf};
ghost use Rattle.timefd_format.specs.Sources.{AreLeavesIn};
ghost use Rattle.timefd_format.specs.Written.{written_of};

use crate::fast::moment::{date_found, moment_found};
use crate::source::MomentSource;
use timefd_date_format::{append_leaves, append_literal};
use timefd_date_moment::Moment;
use timefd_lang_node_list::Leaf;
use timefd_parse::BorrowedOutput;

/// Appends the line of the moment that a line without its newline names or shows, and returns the position
/// after it. `None` says nothing about the line, and what is in front of `at` stays as it was.
#[inline(always)]
#[tactic(auto, using(crate::proofs::BatchLemmas::moment_appended, timefd_date_format::proofs::AppendLemmas::kept))]
pub fn append_line(
    source: &MomentSource<'_>,
    source_leaves: Option<&[Leaf<'_>]>,
    description: &BorrowedOutput<'_>,
    leaves: &[Leaf<'_>],
    line: &[u8],
    room: &mut [u8],
    at: usize,
) -> Option<usize>
    requires source { AreLeavesIn source.now source_leaves }
    requires written { IsMadeOf description.now leaves.now }
    requires within { at ≤ length room.old }
    ensures { TriesToAppendLine source.now description.now line.now room.old at room.new result }
{
    // Most lines are a date. Its moment is made where it is appended from.
    if let Some(date) = date_found(source, source_leaves, description, line) {
        return append_moment(&date, description, leaves, room, at);
    }
    let moment = moment_found(source, source_leaves, description, line)?;
    append_moment(&moment, description, leaves, room, at)
}

// Appends the text of the moment and a newline.
#[inline(never)]
#[tactic(auto, using(crate::proofs::BatchLemmas::line_appended, crate::proofs::BatchLemmas::text_kept, crate::proofs::BatchLemmas::text_within))]
fn append_moment(
    moment: &Moment,
    description: &BorrowedOutput<'_>,
    leaves: &[Leaf<'_>],
    room: &mut [u8],
    at: usize,
) -> Option<usize>
    requires written { IsMadeOf description.now leaves.now }
    requires within { at ≤ length room.old }
    ensures { TriesToAppend (with_newline (written_of moment.now description.now)) room.old at room.new
        result }
{
    let end = append_leaves(moment, leaves, room, at)?;
    if room.len() - end < 32 {
        return None;
    }
    append_literal(b"\n", room, end)
}
