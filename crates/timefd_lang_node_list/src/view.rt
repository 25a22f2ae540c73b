//! A description of version 3, looked at in place. This is this port's own.

ghost use Rattle.std.specs.Prelude.{◌≡◌, ◌≤◌, [], length, map};
ghost use Rattle.timefd_lang_node_list.specs.Nodes.{Fit, Fit-prop, arity, grown_by, kept_bytes, made, part};
ghost use Rattle.timefd_lang_component.specs.Reserved.{reserve};
ghost use Rattle.timefd_lang_component.specs.Tree.{pack};

use crate::debug::write_last;
use crate::leaves::Leaves;
use crate::members::Members;
use crate::node::Node;
use crate::walk::Walk;
use std::fmt;
use timefd_lang_component::Component;

/// A description, or a part of one. It borrows the description, takes no memory, and may be copied.
#[derive(Clone, Copy)]
pub struct View<'v, 'a> {
    // The nodes of one tree, or none for the compound of nothing.
    nodes: &'v [Node<'a>],
    ghost fit: { Fit [] (map part nodes.now) } by { Fit-prop [] (map part nodes.now) },
    ghost one: { length (grown_by [] (map part nodes.now)) ≤ 1 },
}

/// What a description is.
#[derive(Clone, Copy)]
pub enum Shape<'v, 'a> {
    /// A component, in its modern form.
    Component(Component),
    /// Text as it is written.
    Literal(&'v str),
    /// Descriptions one after another.
    Compound(Members<'v, 'a>),
    /// A description that a parser may skip.
    Optional {
        /// Whether a formatter writes it.
        format: bool,
        /// What may be skipped.
        member: View<'v, 'a>,
    },
    /// Alternatives: a parser takes the first that fits, a formatter writes the first.
    First(Members<'v, 'a>),
}

impl<'v, 'a> View<'v, 'a> {
    ghost use Rattle.timefd_lang_component.specs.Reserved.{tree_count};
    ghost use Rattle.timefd_lang_node_list.specs.LeafMeaning.{leaves_left};
    ghost use Rattle.timefd_lang_node_list.specs.Leaves.{leaves};
    ghost use Rattle.timefd_lang_node_list.specs.Turns.{walk_trees};
    ghost use Rattle.timefd_lang_node_list.specs.Views.{shape_tree, view_tree, walked};

    /// The view of these nodes: those of one tree, or none for the compound of nothing.
    pub fn new(nodes: &'v [Node<'a>]) -> Self
        requires fit { Fit [] (map part nodes.now) }
        requires one { length (grown_by [] (map part nodes.now)) ≤ 1 }
        ensures { view_tree result ≡ pack (grown_by [] (map part nodes.now)) }
    {
        View { nodes }
    }

    /// What the description is.
    pub fn shape(self) -> Shape<'v, 'a>
        ensures { shape_tree result ≡ view_tree self.entry }
    {
        if self.nodes.is_empty() {
            return Shape::Compound(Members::new(self.nodes, 0));
        }
        let (inner, last) = split_one(self.nodes);
        match last {
            &Node::Literal(text) => Shape::Literal(text),
            Node::OwnedLiteral(text) => Shape::Literal(text.as_str()),
            Node::Component(component, _) => Shape::Component(component.modern()),
            Node::Compound(members) => Shape::Compound(Members::new(inner, members.count)),
            Node::Optional { format, .. } => Shape::Optional {
                format: *format,
                member: View::new(inner),
            },
            Node::First(members) => Shape::First(Members::new(inner, members.count)),
        }
    }

    /// The parts of the description that a formatter writes.
    pub fn leaves(self) -> Leaves<'v, 'a>
        ensures { leaves_left result ≡ leaves (view_tree self.entry) }
    {
        Leaves::new(self.nodes)
    }

    /// How many parts the description has, itself included: as many as `walk` gives.
    pub fn part_count(self) -> usize
        ensures { result ≡ tree_count (view_tree self.entry) }
    {
        self.nodes.len().max(1)
    }

    /// How many bytes are reserved for the description, at most `usize::MAX`: the most that a
    /// formatter writes for it.
    pub fn max_bytes_needed(self) -> usize
        ensures { result ≡ kept_bytes (reserve (view_tree self.entry)) }
    {
        if self.nodes.is_empty() {
            return 0;
        }
        let (_, last) = split_one(self.nodes);
        last.bytes()
    }

    /// All parts of the description, each after its members, and itself last.
    pub fn walk(self) -> Walk<'v, 'a>
        ensures { walk_trees result ≡ walked (view_tree self.entry) }
    {
        if self.nodes.is_empty() {
            return Walk::new(self.nodes, Some(self));
        }
        Walk::new(self.nodes, None)
    }
}

/// Prints like the whole description.
impl fmt::Debug for View<'_, '_> {
    fn fmt<W: fmt::Write>(&self, f: &mut fmt::Formatter<W>) -> fmt::Result {
        if self.nodes.is_empty() {
            return f.write_str("Compound([])");
        }
        write_last(self.nodes, f)
    }
}

/// The nodes of the members of one tree, and its own node.
fn split_one<'n, 'a>(nodes: &'n [Node<'a>]) -> (&'n [Node<'a>], &'n Node<'a>)
    requires fit { Fit [] (map part nodes.now) }
    requires one { length (grown_by [] (map part nodes.now)) ≤ 1 }
    requires there { 1 ≤ length nodes.now }
    ensures fit { Fit [] (map part result.0.now) }
    ensures members { arity (part result.1.now).role ≡ length (grown_by [] (map part result.0.now)) }
    ensures tree { pack (grown_by [] (map part nodes.now)) ≡ made (part result.1.now).role
        (grown_by [] (map part result.0.now)) }
    ensures bytes { (part result.1.now).bytes ≡ kept_bytes
        (reserve (pack (grown_by [] (map part nodes.now)))) }
{
    let count = nodes.len() - 1;
    let last = &nodes[count];
    (&nodes[..count], last)
}
