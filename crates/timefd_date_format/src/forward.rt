//! Components and literals, written one after another from the first one on.

ghost use Rattle.std.specs.Prelude.{◌≤◌, ◌+◌, Ok, length, map};
ghost use Rattle.timefd_lang_component.specs.Tree.{trees};
ghost use Rattle.timefd_date_format.specs.Appends.{TriesToAppend};
ghost use Rattle.timefd_date_format.specs.Written.{shown, written, written_all};
ghost use Rattle.timefd_lang_node_list.specs.LeafMeaning.{leaf_tree};

use crate::append::{append_both, append_bytes};
use crate::quick::append_component;
use timefd_date_moment::Moment;
use timefd_lang_component::Component;
use timefd_lang_node_list::Leaf;

// No component shows more bytes.
const LONGEST: usize = 32;

/// Appends what components and literals show, one after another, and returns the position after it. `None` if
/// a component shows nothing, or little room is left; then the bytes in front of `from` are as they were.
#[inline(always)]
#[tactic(auto, using(crate::proofs::ForwardLemmas::none_so_far, crate::proofs::ForwardLemmas::one_so_far, crate::proofs::ForwardLemmas::all_so_far, crate::proofs::ForwardLemmas::kept_so_far))]
pub fn append_leaves(
    moment: &Moment,
    leaves: &[Leaf<'_>],
    room: &mut [u8],
    from: usize,
) -> Option<usize>
    requires { from ≤ length room.old }
    ensures { TriesToAppend (written_all moment.now (trees (map leaf_tree leaves.now))) room.old from
        room.new result }
{
    let mut at = from;
    'leaves: for leaf in leaves {
        at = append_leaf(moment, leaf, room, at)?;
    }
    Some(at)
}

#[inline(always)]
fn append_leaf(moment: &Moment, leaf: &Leaf<'_>, room: &mut [u8], at: usize) -> Option<usize>
    requires { at ≤ length room.old }
    ensures { TriesToAppend (written moment.now (leaf_tree leaf.now)) room.old at room.new result }
{
    match leaf {
        Leaf::Component(component) => append_shown(moment, component, room, at),
        Leaf::Literal(text) => append_plain(text.as_bytes(), room, at),
    }
}

/// Appends what a component shows. `None` also if fewer bytes are left than the longest component takes.
#[inline(always)]
pub(crate) fn append_shown(
    moment: &Moment,
    component: &Component,
    room: &mut [u8],
    at: usize,
) -> Option<usize>
    requires { at ≤ length room.old }
    ensures { TriesToAppend (shown moment.now component.now) room.old at room.new result }
{
    if room.len() - at < LONGEST {
        return None;
    }
    append_component(moment, component, room, at)
}

/// Appends a literal. `None` if there is no room for it and the longest component.
#[inline(always)]
pub(crate) fn append_plain(bytes: &[u8], room: &mut [u8], at: usize) -> Option<usize>
    requires { at ≤ length room.old }
    ensures { TriesToAppend (Ok bytes.now) room.old at room.new result }
{
    if room.len() - at < LONGEST {
        return None;
    }
    append_literal(bytes, room, at)
}

/// Appends a literal, and returns the position after it. `None` if there is no room. Most literals have one
/// byte, and many others two.
#[inline(always)]
pub fn append_literal(bytes: &[u8], room: &mut [u8], at: usize) -> Option<usize>
    requires { at + 32 ≤ length room.old }
    ensures { TriesToAppend (Ok bytes.now) room.old at room.new result }
{
    if let [byte] = bytes {
        room[at] = *byte;
        return Some(at + 1);
    }
    append_longer(bytes, room, at)
}

/// The result of `append_literal` for a literal of another length.
#[inline(never)]
fn append_longer(bytes: &[u8], room: &mut [u8], at: usize) -> Option<usize>
    requires { at + 32 ≤ length room.old }
    ensures { TriesToAppend (Ok bytes.now) room.old at room.new result }
{
    if let [first, second] = bytes {
        return Some(append_both(*first, *second, room, at));
    }
    append_text(bytes, room, at)
}

fn append_text(bytes: &[u8], room: &mut [u8], at: usize) -> Option<usize>
    requires { at ≤ length room.old }
    ensures { TriesToAppend (Ok bytes.now) room.old at room.new result }
{
    if bytes.len() > room.len() - at {
        return None;
    }
    Some(append_bytes(bytes, room, at))
}
