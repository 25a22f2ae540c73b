//! Texts written over the front of a buffer.

ghost use Rattle.std.specs.Prelude.{◌≡◌, IfSome, None, Ok, map};
ghost use Rattle.timefd_lang_component.specs.Tree.{trees};
ghost use Rattle.timefd_date_format.specs.Fronts.{IsFront};
ghost use Rattle.timefd_date_format.specs.Written.{written_all};
ghost use Rattle.timefd_lang_node_list.specs.LeafMeaning.{leaf_tree};

use crate::forward::append_leaves;
use crate::long::write_long;
use crate::write::FormatError;
use timefd_date_moment::Moment;
use timefd_lang_node_list::Leaf;

// A text is written here first. Few are longer.
const ROOM: usize = 128;

/// Writes the moment by components and literals, one after another, over the front of the buffer, and returns
/// the length of the text in bytes. After an `Err` the buffer is as it was. Allocates no memory.
#[inline(never)]
pub fn write_front(
    moment: &Moment,
    leaves: &[Leaf<'_>],
    buffer: &mut [u8],
) -> Result<usize, FormatError>
    ensures { IsFront (written_all moment.now (trees (map leaf_tree leaves.now))) buffer.old
        buffer.new result }
{
    match write_short(moment, leaves, &mut [0; ROOM], buffer) {
        Some(answer) => answer,
        None => write_long(moment, leaves, buffer),
    }
}

/// Does what `write_front` does if each component shows something and `room` has bytes to spare. `None` if it
/// can't be done this way; then `buffer` is as it was.
#[inline(always)]
#[tactic(auto, using(crate::proofs::ForwardLemmas::front_is, crate::proofs::ForwardLemmas::front_within))]
fn write_short(
    moment: &Moment,
    leaves: &[Leaf<'_>],
    room: &mut [u8],
    buffer: &mut [u8],
) -> Option<Result<usize, FormatError>>
    ensures front { IfSome result (IsFront (written_all moment.now (trees (map leaf_tree leaves.now)))
        buffer.old buffer.new) }
    ensures kept { result ≡ None → buffer.new ≡ buffer.old }
{
    let len = append_leaves(moment, leaves, room, 0)?;
    Some(copy_front(&room[..len], buffer))
}

/// Copies a text over the front of the buffer, if there is room for it.
#[inline(always)]
fn copy_front(text: &[u8], buffer: &mut [u8]) -> Result<usize, FormatError>
    ensures { IsFront (Ok text.now) buffer.old buffer.new result }
{
    if text.len() > buffer.len() {
        return Err(FormatError::Room);
    }
    buffer[..text.len()].copy_from_slice(text);
    Ok(text.len())
}
