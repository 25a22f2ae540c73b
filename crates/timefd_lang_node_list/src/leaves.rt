//! The parts of a description that a formatter writes, from the last one on. This is this port's
//! own.

ghost use Rattle.std.specs.Prelude.{◌≡◌, ◌++◌, ◌∷◌, ◌<◌, ◌≤◌, [], MatchOption, length, map};
ghost use Rattle.timefd_lang_node_list.specs.Nodes.{Fit, Fit-prop, arity, before, grown, grown_by, part};
ghost use Rattle.timefd_lang_node_list.specs.Leaves.{leaves_in, role_leaves, unwritten};

use crate::node::Node;
use crate::tally::ending_tally;
use timefd_lang_component::Component;

/// What is left to be written of a description: its components and literals, without those that no
/// formatter writes. It takes no memory, and no stack for nesting.
#[derive(Clone, Copy)]
pub struct Leaves<'v, 'a> {
    nodes: &'v [Node<'a>],
    ghost fit: { Fit [] (map part nodes.now) } by { Fit-prop [] (map part nodes.now) },
}

/// A part that is written.
#[derive(Clone, Copy)]
pub enum Leaf<'v> {
    /// A component, in its modern form.
    Component(Component),
    /// Text as it is written.
    Literal(&'v str),
}

impl<'v, 'a> Leaves<'v, 'a> {
    ghost use Rattle.timefd_lang_node_list.specs.LeafMeaning.{leaf_tree, leaves_left};

    pub(crate) fn new(nodes: &'v [Node<'a>]) -> Self
        requires { Fit [] (map part nodes.now) }
        ensures { leaves_left result ≡ leaves_in (grown_by [] (map part nodes.now)) }
    {
        Leaves { nodes }
    }

    /// The last leaf, and those before it. `None` if no leaf is left.
    pub fn split_last(self) -> Option<(Self, Leaf<'v>)>
        ensures { MatchOption result (leaves_left self.entry ≡ [])
            (λ r. leaves_left self.entry ≡ leaves_left r.0 ++ leaf_tree r.1 ∷ []) }
    {
        let mut nodes = self.nodes;
        'nodes: while nodes.len() > 0 {
            let (front, last) = last_node(nodes);
            match last {
                &Node::Literal(text) => {
                    return Some((Leaves::new(front), Leaf::Literal(text)));
                }
                Node::OwnedLiteral(text) => {
                    return Some((Leaves::new(front), Leaf::Literal(text.as_str())));
                }
                Node::Component(component, _) => {
                    return Some((Leaves::new(front), Leaf::Component(component.modern())));
                }
                Node::Compound(_) | Node::Optional { .. } | Node::First(_) => {
                    nodes = in_front(front, unwritten_members(last));
                }
            }
        }
        None
    }
}

/// How many of the node's last members no formatter writes.
fn unwritten_members(node: &Node<'_>) -> usize
    ensures { result ≡ unwritten (part node.now).role }
{
    match node {
        Node::Literal(_) | Node::OwnedLiteral(_) | Node::Component(_, _) | Node::Compound(_) => 0,
        Node::Optional { format, .. } => if *format { 0 } else { 1 },
        Node::First(members) => members.count.saturating_sub(1),
    }
}

/// The last node, and the nodes before it, which end with its members.
fn last_node<'n, 'a>(nodes: &'n [Node<'a>]) -> (&'n [Node<'a>], &'n Node<'a>)
    requires fit { Fit [] (map part nodes.now) }
    requires there { 1 ≤ length nodes.now }
    ensures fit { Fit [] (map part result.0.now) }
    ensures shorter { length result.0.now < length nodes.now }
    ensures members { arity (part result.1.now).role ≤ length (grown_by [] (map part result.0.now)) }
    ensures trees { grown_by [] (map part nodes.now) ≡ grown (grown_by [] (map part result.0.now))
        (part result.1.now) }
{
    let count = nodes.len() - 1;
    let last = &nodes[count];
    (&nodes[..count], last)
}

/// The nodes before those of the last `count` trees.
fn in_front<'n, 'a>(nodes: &'n [Node<'a>], count: usize) -> &'n [Node<'a>]
    requires fit { Fit [] (map part nodes.now) }
    requires there { count ≤ length (grown_by [] (map part nodes.now)) }
    ensures fit { Fit [] (map part result.now) }
    ensures shorter { length result.now ≤ length nodes.now }
    ensures trees { grown_by [] (map part result.now) ≡ before count (grown_by [] (map part nodes.now)) }
{
    let after = ending_tally(nodes, count).nodes;
    let rest = nodes.len() - after;
    &nodes[..rest]
}
