//! All parts of a description, one after another. This is this port's own.

ghost use Rattle.std.specs.Prelude.{◌≡◌, ◌+◌, ◌++◌, ◌∷◌, ◌<◌, ◌≤◌, [], length, map};
ghost use Rattle.timefd_lang_node_list.specs.Nodes.{Fit, Fit-prop, part};
ghost use Rattle.timefd_lang_node_list.specs.Views.{made_each, view_tree, view_trees, walk_from};

use crate::node::Node;
use crate::view::View;

/// The parts of a description, each after its members, and the whole description last. Each takes
/// the same time, and none takes memory.
#[derive(Clone, Copy)]
pub struct Walk<'v, 'a> {
    nodes: &'v [Node<'a>],
    at: usize,
    // What comes after the nodes: the compound of nothing, if there are no nodes.
    last: Option<View<'v, 'a>>,
    ghost fit: { Fit [] (map part nodes.now) } by { Fit-prop [] (map part nodes.now) },
    ghost inside: { at ≤ length nodes.now },
}

impl<'v, 'a> Walk<'v, 'a> {
    ghost use Rattle.timefd_lang_node_list.specs.Turns.{walk_trees};

    pub(crate) fn new(nodes: &'v [Node<'a>], last: Option<View<'v, 'a>>) -> Self
        requires { Fit [] (map part nodes.now) }
        ensures { walk_trees result ≡ made_each [] (map part nodes.now) ++ view_trees last.entry }
    {
        Walk { nodes, at: 0, last }
    }
}

impl<'v, 'a> Iterator for Walk<'v, 'a> {
    ghost use Rattle.std.specs.Iterator.{YieldsFirstBy, item_count};
    ghost use Rattle.timefd_lang_node_list.specs.Turns.{walk_trees};

    type Item = View<'v, 'a>;

    ghost next_gives = { YieldsFirstBy view_tree walk_trees };

    ghost remaining = { item_count walk_trees };

    fn next(&mut self) -> Option<View<'v, 'a>> {
        if self.at < self.nodes.len() {
            let part = part_at(self.nodes, self.at);
            self.at += 1;
            return Some(part);
        }
        self.last.take()
    }
}

/// The tree of a node: the node and those before it that are its parts.
fn part_at<'v, 'a>(nodes: &'v [Node<'a>], at: usize) -> View<'v, 'a>
    requires fit { Fit [] (map part nodes.now) }
    requires there { at < length nodes.now }
    ensures { walk_from nodes.now at ≡ view_tree result ∷ walk_from nodes.now (at + 1) }
{
    let inner = nodes[at].inner_nodes();
    let (front, _) = nodes.split_at(at + 1);
    let (_, own) = front.split_at(at - inner);
    View::new(own)
}
