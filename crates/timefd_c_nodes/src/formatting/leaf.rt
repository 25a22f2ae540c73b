//! The parts of nodes that a formatter writes, from the last to the first.

ghost use Rattle.std.specs.Prelude.{◌≡◌, ◌++◌, ◌∷◌, ◌<◌, ◌≤◌, [], IfSome, MatchOption, None, length};
ghost use Rattle.timefd_lang_node_list.specs.Nodes.{arity, before, grown};
ghost use Rattle.timefd_c_nodes.specs.Formatting.Nodes as spec;
ghost use Rattle.timefd_c_nodes.specs.Formatting.Nodes.{leaf_tree, node_leaves, node_trees};
ghost use Rattle.timefd_c_nodes.specs.Formatting.Parts.{role};

use crate::RawNode;
use crate::formatting::part::{WritingPart, members, part_of, unwritten_members};
use timefd_lang_component::Component;

/// A part that is written.
#[derive(Clone, Copy)]
pub enum WrittenLeaf<'l> {
    /// A component, in its modern form.
    Component(Component),
    /// Bytes, written as they are.
    Literal(&'l [u8]),
}

/// The last written part, and the nodes in front of it.
pub(crate) fn split_last<'n, 'l>(
    nodes: &'n [RawNode],
    literals: &'l [u8],
) -> Option<(&'n [RawNode], WrittenLeaf<'l>)>
    requires { spec.node_fault literals.now nodes.now ≡ None }
    ensures sound { IfSome result (λ r. spec.node_fault literals.now r.0.now ≡ None) }
    ensures leaves { MatchOption result (node_leaves literals.now nodes.now ≡ [])
        (λ r. node_leaves literals.now nodes.now ≡ node_leaves literals.now r.0.now ++ leaf_tree r.1 ∷ []) }
{
    let mut left = nodes;
    'nodes: while left.len() > 0 {
        let (front, last) = last_node(left, literals);
        match last {
            WritingPart::Literal(bytes) => return Some((front, WrittenLeaf::Literal(bytes))),
            WritingPart::Component(component) => return Some((
                front,
                WrittenLeaf::Component(component.modern()),
            )),
            WritingPart::Compound(_) | WritingPart::Optional(_) | WritingPart::First(_) => {
                left = in_front(front, literals, unwritten_members(last));
            }
        }
    }
    None
}

/// The last node, and the nodes in front of it, which end with its members.
#[tactic(auto, using(crate::proofs::FormattingLemmas::CutLemmas::last_sound, crate::proofs::FormattingLemmas::CutLemmas::last_is_there, crate::proofs::FormattingLemmas::CutLemmas::last_members, crate::proofs::FormattingLemmas::CutLemmas::last_grown))]
fn last_node<'n, 'l>(nodes: &'n [RawNode], literals: &'l [u8]) -> (&'n [RawNode], WritingPart<'l>)
    requires sound { spec.node_fault literals.now nodes.now ≡ None }
    requires there { 1 ≤ length nodes.now }
    ensures sound { spec.node_fault literals.now result.0.now ≡ None }
    ensures shorter { length result.0.now < length nodes.now }
    ensures small { length result.0.now < 18446744073709551615 }
    ensures members { arity (role result.1) ≤ length (node_trees literals.now result.0.now) }
    ensures trees { node_trees literals.now nodes.now ≡ grown (node_trees literals.now result.0.now)
        (record { role = role result.1; nodes = 0; bytes = 0 }) }
{
    let count = nodes.len() - 1;
    let part = part_of(&nodes[count], literals).unwrap();
    (&nodes[..count], part)
}

/// The nodes in front of the last `count` trees.
#[tactic(auto, using(crate::proofs::FormattingLemmas::CutLemmas::few))]
fn in_front<'n>(nodes: &'n [RawNode], literals: &[u8], count: usize) -> &'n [RawNode]
    requires sound { spec.node_fault literals.now nodes.now ≡ None }
    requires there { count ≤ length (node_trees literals.now nodes.now) }
    ensures sound { spec.node_fault literals.now result.now ≡ None }
    ensures shorter { length result.now ≤ length nodes.now }
    ensures trees { node_trees literals.now result.now ≡ before count (node_trees literals.now nodes.now) }
{
    let mut front = nodes;
    let mut left = count;
    'nodes: while left > 0 {
        let (rest, last) = last_node(front, literals);
        front = rest;
        left = left - 1 + members(last);
    }
    front
}
