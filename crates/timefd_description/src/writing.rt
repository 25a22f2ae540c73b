//! A moment written by a description over the front of a buffer, without memory.

ghost use Rattle.std.specs.Prelude.{◌≡◌, ◌≤◌, IfErr, IfSome, None, Ok, drop, length, map};
ghost use Rattle.timefd_parse.specs.Reserved.{reserve};
ghost use Rattle.timefd_date_format.specs.Fronts.{IsFront, IsLen};
ghost use Rattle.timefd_date_format.specs.Written.{written};
ghost use Rattle.timefd_lang_node_list.specs.LeafMeaning.{leaf_tree};
ghost use Rattle.timefd_lang_node_list.specs.Leaves.{leaves};
ghost use Rattle.timefd_lang_node_list.specs.Views.{view_tree};

use timefd_date_format::{
    FormatError, Unshown, component_len, len_of_both, write_description, write_front,
};
use timefd_date_moment::Moment;
use timefd_lang_node_list::{Leaf, View};

// Few descriptions have more components and literals.
const FEW: usize = 24;

/// Writes the moment by a description over the front of the buffer, and returns the length of the text in
/// bytes. After an `Err` the buffer is as it was. A buffer of the reserved bytes has room.
#[tactic(auto, using(crate::proofs::WritingLemmas::enough))]
pub fn write_view(
    moment: &Moment,
    view: View<'_, '_>,
    buffer: &mut [u8],
) -> Result<usize, FormatError>
    ensures front { IsFront (written moment.now (view_tree view.entry)) buffer.old buffer.new result }
    ensures enough { reserve (view_tree view.entry) ≤ length buffer.old
        → IfErr result (λ error. ¬ (error ≡ FormatError.Room)) }
{
    match write_few(moment, view, &mut [Leaf::Literal(""); FEW], buffer) {
        Some(answer) => answer,
        None => write_many(moment, view, buffer),
    }
}

// Writes by all components and literals, listed in the room. `None` if there are more than it holds; then the
// buffer is as it was.
fn write_few<'v>(
    moment: &Moment,
    view: View<'v, '_>,
    room: &mut [Leaf<'v>],
    buffer: &mut [u8],
) -> Option<Result<usize, FormatError>>
    ensures front { IfSome result (IsFront (written moment.now (view_tree view.entry)) buffer.old
        buffer.new) }
    ensures kept { result ≡ None → buffer.new ≡ buffer.old }
{
    let from = list_leaves(view, room)?;
    Some(write_front(moment, &room[from..], buffer))
}

// Lists the components and literals that are written at the end of the room, and returns the index of the first
// one. `None` if there are more than the room holds.
#[tactic(auto, using(crate::proofs::WritingLemmas::none_listed, crate::proofs::WritingLemmas::one_listed, crate::proofs::WritingLemmas::all_listed))]
fn list_leaves<'v>(view: View<'v, '_>, room: &mut [Leaf<'v>]) -> Option<usize>
    ensures within { IfSome result (λ from. from ≤ length room.new) }
    ensures listed { IfSome result (λ from. leaves (view_tree view.entry)
        ≡ map leaf_tree (drop from room.new)) }
{
    let mut from = room.len();
    let mut left = view.leaves();
    'leaves: while let Some((front, leaf)) = left.split_last() {
        if from == 0 {
            return None;
        }
        from -= 1;
        room[from] = leaf;
        left = front;
    }
    Some(from)
}

// Writes a text whose length is found first.
#[tactic(auto, using(timefd_date_format::proofs::LongLemmas::none_shown))]
fn write_many(moment: &Moment, view: View<'_, '_>, buffer: &mut [u8]) -> Result<usize, FormatError>
    ensures { IsFront (written moment.now (view_tree view.entry)) buffer.old buffer.new result }
{
    match text_len(moment, view) {
        Ok(len) => write_counted(moment, view, len, buffer),
        Err(unshown) => Err(FormatError::Unshown(unshown)),
    }
}

#[tactic(auto, using(timefd_date_format::proofs::LongLemmas::too_short, timefd_date_format::proofs::LongLemmas::exact))]
fn write_counted(
    moment: &Moment,
    view: View<'_, '_>,
    len: usize,
    buffer: &mut [u8],
) -> Result<usize, FormatError>
    requires { IsLen (written moment.now (view_tree view)) (Ok len) }
    ensures { IsFront (written moment.now (view_tree view.entry)) buffer.old buffer.new result }
{
    if len > buffer.len() {
        return Err(FormatError::Room);
    }
    let _ = write_description(*moment, view, &mut buffer[..len]);
    Ok(len)
}

// How many bytes the description writes, at most `usize::MAX`. An `Err` names the first component that shows
// nothing.
#[tactic(auto, using(crate::proofs::WritingLemmas::none_counted, crate::proofs::WritingLemmas::one_counted, crate::proofs::WritingLemmas::all_counted))]
fn text_len(moment: &Moment, view: View<'_, '_>) -> Result<usize, Unshown>
    ensures { IsLen (written moment.now (view_tree view.entry)) result }
{
    let mut len = Ok(0);
    let mut left = view.leaves();
    'leaves: while let Some((front, leaf)) = left.split_last() {
        len = len_of_both(leaf_len(moment, leaf), len);
        left = front;
    }
    len
}

fn leaf_len(moment: &Moment, leaf: Leaf<'_>) -> Result<usize, Unshown>
    ensures { IsLen (written moment.now (leaf_tree leaf.entry)) result }
{
    match leaf {
        Leaf::Literal(text) => Ok(text.len()),
        Leaf::Component(component) => component_len(*moment, component),
    }
}
