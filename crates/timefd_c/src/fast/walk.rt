//! Nodes from the first to the last.

ghost use Rattle.std.specs.Prelude.{◌≡◌, ◌<◌, ◌≤◌, [], IfSome, None, Ok, Some, length, take, true};
ghost use Rattle.timefd_c.specs.Fast.{IsWhole};
ghost use Rattle.timefd_c.specs.Moments.{IsMoment, has_date, range_fault};

use crate::fast::leaf::append_leaf;
use crate::moment::MomentFields;
use timefd_c_nodes::RawNode;
use timefd_date_moment::Moment;

// What members one after another are, as a node says it.
const COMPOUND: u8 = 3;

/// Writes what nodes show of the moment with these numbers to the front of a room, and returns where it ends.
#[inline(always)]
#[tactic(auto, using(crate::proofs::FastLemmas::WalkLemmas::none_written, crate::proofs::FastLemmas::WalkLemmas::all_written))]
pub(crate) fn append_nodes(
    moment: &Moment,
    fields: &MomentFields,
    nodes: &[RawNode],
    literals: &[u8],
    room: &mut [u8],
) -> Option<usize>
    requires date { has_date fields.now ≡ true }
    requires range { range_fault fields.now ≡ None }
    requires moment { IsMoment fields.now moment.now }
    ensures { IfSome result (IsWhole moment.now literals.now nodes.now room.new) }
{
    let mut at = 0;
    let mut left = nodes;
    'nodes: while left.len() > 0 {
        if room.len() < 33 || at > room.len() - 33 {
            return None;
        }
        let node = &left[0];
        if node.component == 0 && node.what == COMPOUND {
            return end_of(nodes, node, left, at);
        }
        at += append_leaf(moment, fields, node, literals, room, at)?;
        left = &left[1..];
    }
    Some(at)
}

// Where the text ends, if this is the last node, and has no more members than there are nodes in front of it.
#[inline(always)]
fn end_of(nodes: &[RawNode], node: &RawNode, left: &[RawNode], at: usize) -> Option<usize>
    ensures end { IfSome result (λ end. end ≡ at) }
    ensures last { IfSome result (λ end. length left.now ≡ 1) }
    ensures fits { IfSome result (λ end. node.now.count < length nodes.now) }
{
    if left.len() == 1 && node.count < nodes.len() {
        Some(at)
    } else {
        None
    }
}
