//! What the last trees of a list add up to.

ghost use Rattle.std.specs.Prelude.{◌≡◌, ◌+◌, ◌<◌, ◌≤◌, if◌then◌else◌, [], length, map};
ghost use Rattle.timefd_lang_node_list.specs.Nodes.{Fit, arity, ending, grown_by, last_kept, part};
ghost use Rattle.timefd_lang_node_list.specs.Tallies as spec;
ghost use Rattle.timefd_lang_node_list.specs.Tallies.{IsTally, kept_of};

use crate::node::{Members, Node};

/// What is known about trees side by side.
#[derive(Clone, Copy)]
pub struct Tally {
    /// How many nodes they have.
    pub nodes: usize,
    /// The sum of the bytes that they keep; `None` if it doesn't fit a `usize`.
    pub bytes: Option<usize>,
    /// The bytes that the first of them keeps, or 0 if there is none.
    pub first: usize,
}

impl Tally {
    /// What a node keeps of `count` members, one after another.
    pub fn of_all(self, count: usize) -> Members
        ensures { result ≡ record { count = count; nodes = self.nodes; bytes = kept_of self.bytes } }
    {
        Members {
            count,
            nodes: self.nodes,
            bytes: match self.bytes {
                Some(bytes) => bytes,
                None => usize::MAX,
            },
        }
    }

    /// What a node keeps of `count` alternatives.
    pub fn of_first(self, count: usize) -> Members
        ensures { result ≡ record { count = count; nodes = self.nodes; bytes = self.first } }
    {
        Members {
            count,
            nodes: self.nodes,
            bytes: self.first,
        }
    }

    /// The bytes that a node keeps of a member that a parser may skip. `format` says whether a
    /// formatter writes it.
    pub fn of_optional(self, format: bool) -> usize
        ensures { result ≡ (if format then self.first else 0) }
    {
        if format { self.first } else { 0 }
    }

    /// The tally of these trees and one more before them, with this many nodes and bytes.
    fn after(self, nodes: usize, bytes: usize) -> Tally
        requires { self.nodes + nodes ≤ usize.MAX }
        ensures { result ≡ record {
          nodes = self.nodes + nodes;
          bytes =
              spec.sum_within self.bytes bytes;
          first = bytes;
        } }
    {
        Tally {
            nodes: self.nodes + nodes,
            bytes: sum_within(self.bytes, bytes),
            first: bytes,
        }
    }
}

/// A sum and this many bytes more; `None` if the sum isn't known or doesn't fit a `usize`.
pub fn sum_within(sum: Option<usize>, bytes: usize) -> Option<usize>
    ensures { result ≡ spec.sum_within sum bytes }
{
    match sum {
        Some(sum) => sum.checked_add(bytes),
        None => None,
    }
}

/// What the last `count` trees add up to. Each is found by going back over the nodes of the tree
/// after it.
pub fn ending_tally(nodes: &[Node<'_>], count: usize) -> Tally
    requires fit { Fit [] (map part nodes.now) }
    requires there { count ≤ length (grown_by [] (map part nodes.now)) }
    ensures { IsTally (ending count (grown_by [] (map part nodes.now))) result }
{
    let mut tally = Tally {
        nodes: 0,
        bytes: Some(0),
        first: 0,
    };
    'trees: for at in 0..count {
        let node = &nodes[nodes.len() - 1 - tally.nodes];
        tally = tally.after(1 + node.inner_nodes(), node.bytes());
    }
    tally
}

/// The bytes that the last tree keeps, or 0 if there is none.
pub fn last_kept_bytes(nodes: &[Node<'_>]) -> usize
    requires { Fit [] (map part nodes.now) }
    ensures { result ≡ last_kept (grown_by [] (map part nodes.now)) }
{
    let count = nodes.len();
    if count == 0 {
        return 0;
    }
    nodes[count - 1].bytes()
}

/// The last node, and the nodes before it, which end with its members.
pub fn split_last<'n, 'a>(nodes: &'n [Node<'a>]) -> (&'n [Node<'a>], &'n Node<'a>)
    requires fit { Fit [] (map part nodes.now) }
    requires there { 1 ≤ length nodes.now }
    ensures fit { Fit [] (map part result.0.now) }
    ensures shorter { length result.0.now < length nodes.now }
    ensures members { arity (part result.1.now).role ≤ length (grown_by [] (map part result.0.now)) }
{
    let count = nodes.len() - 1;
    let last = &nodes[count];
    (&nodes[..count], last)
}

/// The nodes without those of the last `count` trees.
pub fn without_ending<'n, 'a>(nodes: &'n [Node<'a>], count: usize) -> &'n [Node<'a>]
    requires fit { Fit [] (map part nodes.now) }
    requires there { count ≤ length (grown_by [] (map part nodes.now)) }
    ensures fit { Fit [] (map part result.now) }
    ensures shorter { length result.now ≤ length nodes.now }
    ensures left { count + length (grown_by [] (map part result.now)) ≡ length
        (grown_by [] (map part nodes.now)) }
{
    let after = ending_tally(nodes, count).nodes;
    let rest = nodes.len() - after;
    &nodes[..rest]
}
