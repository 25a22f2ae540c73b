//! One part of a description, which follows its members.

ghost use Rattle.std.specs.Prelude.{◌≡◌, IfOk};

use std::alloc::{AllocError, Global};
use timefd_lang_component::Component;

/// What a description is made of. A node knows how many members it has, and how many nodes those
/// have. They are the nodes right before it, so each member is found by going back over the nodes
/// of the member after it. A node has 32 bytes.
#[derive(Drop)]
pub enum Node<'a> {
    /// Borrowed text.
    Literal(&'a str),
    /// Owned text.
    OwnedLiteral(String),
    /// A component, and how many bytes it reserves.
    Component(Component, usize),
    /// Its members, one after another.
    Compound(Members),
    /// The one member that a parser may skip.
    Optional {
        /// Whether a formatter writes it.
        format: bool,
        /// How many nodes the member has.
        nodes: usize,
        /// How many bytes are reserved for it, at most `usize::MAX`.
        bytes: usize,
    },
    /// Its members as alternatives.
    First(Members),
}

/// What a node knows about its members.
#[derive(Clone, Copy)]
pub struct Members {
    /// How many members there are.
    pub count: usize,
    /// How many nodes they have.
    pub nodes: usize,
    /// How many bytes are reserved for them, at most `usize::MAX`.
    pub bytes: usize,
}

impl<'a> Node<'a> {
    ghost use Rattle.timefd_lang_node_list.specs.Nodes.{part};
    ghost use Rattle.timefd_lang_node_list.specs.Owners.{is_text, owns_text};

    /// How many bytes its tree reserves, at most `usize::MAX`.
    pub fn bytes(&self) -> usize
        ensures { result ≡ (part self.now).bytes }
    {
        match self {
            Node::Literal(text) => text.len(),
            Node::OwnedLiteral(text) => text.len(),
            Node::Component(_, bytes) => *bytes,
            Node::Compound(members) => members.bytes,
            Node::Optional { bytes, .. } => *bytes,
            Node::First(members) => members.bytes,
        }
    }

    /// How many nodes right before it are parts of its tree.
    pub fn inner_nodes(&self) -> usize
        ensures { result ≡ (part self.now).nodes }
    {
        match self {
            Node::Literal(_) | Node::OwnedLiteral(_) | Node::Component(_, _) => 0,
            Node::Compound(members) => members.nodes,
            Node::Optional { nodes, .. } => *nodes,
            Node::First(members) => members.nodes,
        }
    }

    /// A copy that borrows what this one borrows and owns what it owns. An `Err` says that memory
    /// ran out.
    pub fn copied(&self, alloc: Global) -> Result<Node<'a>, AllocError>
        ensures part { IfOk result (λ copy. part copy ≡ part self.now) }
        ensures owner { IfOk result (λ copy. owns_text copy ≡ owns_text self.now) }
    {
        match self {
            &Node::Literal(text) => Ok(Node::Literal(text)),
            _ => self.owned(alloc),
        }
    }

    /// A copy that borrows nothing. An `Err` says that memory ran out.
    pub fn owned(&self, alloc: Global) -> Result<Node<'static>, AllocError>
        ensures part { IfOk result (λ copy. part copy ≡ part self.now) }
        ensures owner { IfOk result (λ copy. owns_text copy ≡ is_text (part self.now).role) }
    {
        match self {
            &Node::Literal(text) => Ok(Node::OwnedLiteral(String::from_str(alloc, text)?)),
            Node::OwnedLiteral(text) => Ok(Node::OwnedLiteral(String::from_str(alloc, text)?)),
            Node::Component(component, bytes) => Ok(Node::Component(*component, *bytes)),
            Node::Compound(members) => Ok(Node::Compound(*members)),
            Node::Optional {
                format,
                nodes,
                bytes,
            } => Ok(Node::Optional {
                format: *format,
                nodes: *nodes,
                bytes: *bytes,
            }),
            Node::First(members) => Ok(Node::First(*members)),
        }
    }
}
