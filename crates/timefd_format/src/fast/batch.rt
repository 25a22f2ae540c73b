//! A batch of lines, from a text into a room, and where a line ends.

ghost use Rattle.std.specs.Prelude.{◌≡◌, ◌≤◌, IfSome, length, take};
ghost use Rattle.timefd_format.specs.Batches as spec;
ghost use Rattle.timefd_format.specs.Batches.{IsBatch, IsWholeLine, TriesToGrow};
ghost use Rattle.timefd_format.specs.ReadBack.{IsMadeOf};
ghost use Rattle.timefd_format.specs.Sources.{AreLeavesIn};

use crate::fast::line::append_line;
use crate::source::MomentSource;
use memchr::memchr;
use timefd_lang_node_list::Leaf;
use timefd_lint_rewrite::without_newline;
use timefd_parse::BorrowedOutput;

/// The lines at the front of a text that are written to the front of a room.
#[derive(Clone, Copy)]
pub struct Batch {
    /// How many lines there are.
    pub line_count: usize,
    /// How many bytes they have, with their newlines.
    pub read: usize,
    /// How many bytes of the room have what is written for them.
    pub written: usize,
}

impl Batch {
    /// The batch without a line.
    pub fn new() -> Batch
        ensures { result ≡ spec.no_batch }
    {
        Batch {
            line_count: 0,
            read: 0,
            written: 0,
        }
    }
}

/// How many bytes the first line has, with its newline. `None` if there is no newline.
#[inline(always)]
#[tactic(auto, using(crate::proofs::BatchLemmas::up_to_newline, crate::proofs::BatchLemmas::newline_within))]
pub fn first_line_len(text: &[u8]) -> Option<usize>
    ensures within { IfSome result (λ len. len ≤ length text.now) }
    ensures line { IfSome result (λ len. IsWholeLine (take len text.now)) }
{
    let newline = memchr(b'\n', text)?;
    Some(newline + 1)
}

/// Reads lines from the front of a text, and writes their moments to the front of the room, a line each: as
/// many as can be read and written without a message or memory.
#[inline(never)]
#[tactic(auto, using(crate::proofs::BatchLemmas::empty_batch))]
pub fn batch_of(
    source: &MomentSource<'_>,
    source_leaves: Option<&[Leaf<'_>]>,
    description: &BorrowedOutput<'_>,
    leaves: &[Leaf<'_>],
    text: &[u8],
    room: &mut [u8],
) -> Batch
    requires source { AreLeavesIn source.now source_leaves }
    requires written { IsMadeOf description.now leaves.now }
    ensures { IsBatch source.now description.now text.now room.new result }
{
    let mut batch = Batch::new();
    'lines: for _ in 0..text.len() {
        match grown(
            source,
            source_leaves,
            description,
            leaves,
            text,
            room,
            batch,
        ) {
            Some(more) => batch = more,
            None => return batch,
        }
    }
    batch
}

// The batch with one more line. `None` says nothing about the next line; then the batch stays what it is.
#[inline(always)]
#[tactic(auto, using(crate::proofs::BatchLemmas::one_more, crate::proofs::BatchLemmas::same_batch))]
fn grown(
    source: &MomentSource<'_>,
    source_leaves: Option<&[Leaf<'_>]>,
    description: &BorrowedOutput<'_>,
    leaves: &[Leaf<'_>],
    text: &[u8],
    room: &mut [u8],
    batch: Batch,
) -> Option<Batch>
    requires source { AreLeavesIn source.now source_leaves }
    requires written { IsMadeOf description.now leaves.now }
    requires batch { IsBatch source.now description.now text.now room.old batch }
    ensures { TriesToGrow source.now description.now text.now batch room.new result }
{
    let rest = &text[batch.read..];
    let len = first_line_len(rest)?;
    let line = without_newline(&rest[..len]);
    let end = append_line(
        source,
        source_leaves,
        description,
        leaves,
        line,
        room,
        batch.written,
    )?;
    Some(Batch {
        line_count: batch.line_count + 1,
        read: batch.read + len,
        written: end,
    })
}
