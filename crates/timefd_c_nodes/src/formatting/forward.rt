//! Nodes that write a short text, from the first to the last: one walk, which also finds whether
//! they are a description.

ghost use Rattle.std.specs.Prelude.{◌≡◌, ◌+◌, ◌<◌, ◌≤◌, IfSome, None, Some, Ok, length, take};
ghost use Rattle.timefd_c_nodes.specs.Formatting.Forward.{IsAfter};
ghost use Rattle.timefd_c_nodes.specs.Formatting.Nodes as spec;
ghost use Rattle.timefd_c_nodes.specs.Formatting.Nodes.{node_trees};
ghost use Rattle.timefd_c_nodes.specs.Decoding as decoded;
ghost use Rattle.timefd_lang_component.specs.Tree.{trees};
ghost use Rattle.timefd_date_format.specs.Appends.{TriesToAppend};
ghost use Rattle.timefd_date_format.specs.Written.{shown, written_all};

use crate::RawNode;
use crate::formatting::component::component_of;
use crate::formatting::part::{WritingPart, part_of};
use timefd_date_format::{append_literal, append_quickly, append_slowly};
use timefd_date_moment::Moment;
use timefd_lang_component::Component;

/// How far nodes are written: where the written text ends, and how many trees there are.
#[derive(Clone, Copy)]
pub struct Reached {
    pub at: usize,
    pub count: usize,
}

/// Writes what nodes show to the front of a buffer, and returns where it ends. `None` says nothing
/// about the nodes.
#[inline(always)]
#[tactic(auto, using(crate::proofs::FormattingLemmas::ForwardLemmas::none_read, crate::proofs::FormattingLemmas::ForwardLemmas::one_read, crate::proofs::FormattingLemmas::ForwardLemmas::all_sound, crate::proofs::FormattingLemmas::ForwardLemmas::all_shown))]
pub(crate) fn append_nodes(
    moment: &Moment,
    nodes: &[RawNode],
    literals: &[u8],
    room: &mut [u8],
) -> Option<usize>
    ensures sound { IfSome result (λ end. spec.node_fault literals.now nodes.now ≡ None) }
    ensures within { IfSome result (λ end. end ≤ length room.new) }
    ensures shows { IfSome result (λ end. written_all moment.now (trees (node_trees literals.now nodes.now))
        ≡ Ok (take end room.new)) }
{
    let mut at = 0;
    let mut count = 0;
    'nodes: for node in nodes {
        let reached = append_node(moment, node, literals, room, at, count)?;
        at = reached.at;
        count = reached.count;
    }
    Some(at)
}

/// Appends what a node shows by itself. It is `None` too if some of its members aren't written.
#[inline(always)]
fn append_node(
    moment: &Moment,
    node: &RawNode,
    literals: &[u8],
    room: &mut [u8],
    at: usize,
    count: usize,
) -> Option<Reached>
    requires position { at ≤ length room.old }
    requires few { count < 18446744073709551615 }
    ensures { IfSome result (IsAfter moment.now literals.now node.now count room.old at room.new) }
{
    if room.len() - at < 32 {
        return None;
    }
    match part_of(node, literals)? {
        WritingPart::Component(component) => {
            let at = append_component_of(moment, node, &component, room, at)?;
            Some(Reached {
                at,
                count: count + 1,
            })
        }
        WritingPart::Literal(bytes) => {
            let at = append_literal(bytes, room, at)?;
            Some(Reached {
                at,
                count: count + 1,
            })
        }
        WritingPart::Compound(members) => {
            if members > count {
                return None;
            }
            Some(Reached {
                at,
                count: count - members + 1,
            })
        }
        WritingPart::Optional(_) | WritingPart::First(_) => None,
    }
}

/// Appends what the component of a node shows.
#[inline(always)]
fn append_component_of(
    moment: &Moment,
    node: &RawNode,
    component: &Component,
    room: &mut [u8],
    at: usize,
) -> Option<usize>
    requires there { at + 32 ≤ length room.old }
    requires component { decoded.component_of node.now ≡ Some component.now }
    ensures { TriesToAppend (shown moment.now component.now) room.old at room.new result }
{
    match append_quickly(moment, component, room, at) {
        Some(end) => Some(end),
        None => append_again(moment, node, room, at),
    }
}

/// Appends what the component of a node shows, by the rule for every component. The component is
/// decoded again, so that the first one stays in registers.
#[inline(never)]
fn append_again(moment: &Moment, node: &RawNode, room: &mut [u8], at: usize) -> Option<usize>
    requires { at + 32 ≤ length room.old }
    ensures { IfSome (decoded.component_of node.now) (λ component. TriesToAppend (shown moment.now component)
        room.old at room.new result) }
{
    let component = component_of(node)?;
    append_slowly(moment, &component, room, at)
}
