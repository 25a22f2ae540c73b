//! Trees as one list of nodes, each after its members.

ghost use Rattle.std.specs.Prelude.{◌≡◌, ◌∷◌, ◌++◌, ◌≤◌, [], length, map, IfOk, string_bytes, vec_capacity, IsOk, OnOk};
ghost use Rattle.std.specs.Bool.{IsFalse, IsTrue};
ghost use Rattle.timefd_lang_node_list.specs.Nodes.{Fit, Fit-prop, Fits, arity, before, ending, grown, last_kept, part};
ghost use Rattle.timefd_lang_node_list.specs.Owners.{IsFlag, IsFlag-prop, owns_text};
ghost use Rattle.timefd_lang_component.specs.Modern.{modern};
ghost use Rattle.timefd_lang_component.specs.Reserved.{reserve_all, reserved};
ghost use Rattle.timefd_lang_component.specs.Tree as spec;
ghost use Rattle.timefd_lang_component.specs.Tree.{compound, first, literal, optional, pack, trees};

use crate::node::{Members, Node};
use crate::tally::{ending_tally, last_kept_bytes};
use std::alloc::{AllocError, Global};
use std::mem::forget;
use timefd_lang_component::Component;
use timefd_lang_component::reserved::reserved_bytes;

/// Trees side by side. Nothing is moved when some of them become one: its node is added after them.
pub struct NodeList<'a> {
    nodes: Vec<Node<'a>>,
    // Whether a node may own its text.
    owns: bool,
    ghost fit: { Fit [] (map part nodes.items) } by { Fit-prop [] (map part nodes.items) },
    ghost flag: { IsFlag owns nodes.items } by { IsFlag-prop owns nodes.items },
}

/// If no node owns its text, only the list has to be freed, and its nodes are forgotten.
impl Drop for NodeList<'_> {
    fn drop(self) {
        let NodeList { mut nodes, owns } = self;
        if !owns {
            'borrowed: while let Some(node) = nodes.pop() {
                forget_borrowed(node);
            }
        }
    }
}

/// Leaves a node that owns nothing as it is: there is nothing to free.
#[inline(always)]
fn forget_borrowed(node: Node<'_>)
    requires { IsFalse (owns_text node) }
{
    forget(node);
}

impl<'a> NodeList<'a> {
    ghost use Rattle.timefd_lang_node_list.specs.NodeTrees.{Adds, AddsNode, HasRoom, list_owners, list_parts, list_trees, node_count, room};

    /// No trees.
    pub fn new(alloc: Global) -> Self
        ensures empty { list_trees result ≡ [] }
        ensures nodes { node_count result ≡ 0 }
    {
        NodeList {
            nodes: Vec::new(alloc),
            owns: false,
        }
    }

    /// No trees, with room for `count` nodes. An `Err` says that memory ran out.
    pub fn with_capacity(alloc: Global, count: usize) -> Result<Self, AllocError>
        ensures empty { IfOk result (λ list. list_trees list ≡ []) }
        ensures nodes { IfOk result (λ list. node_count list ≡ 0) }
        ensures room { IfOk result (λ list. HasRoom list count) }
        ensures no_memory { count ≡ 0 → IsOk result }
    {
        Ok(NodeList {
            nodes: Vec::with_capacity(alloc, count)?,
            owns: false,
        })
    }

    /// The nodes.
    pub fn nodes(&self) -> &[Node<'a>]
        ensures parts { map part result.now ≡ list_parts self.now }
        ensures fit { Fit [] (map part result.now) }
    {
        self.nodes.as_slice()
    }

    /// How many nodes there are.
    pub fn node_count(&self) -> usize
        ensures { result ≡ node_count self.now }
    {
        self.nodes.len()
    }

    /// The bytes that the last tree reserves, at most `usize::MAX`, or 0 if there is none.
    pub fn last_bytes(&self) -> usize
        ensures { result ≡ last_kept (list_trees self.now) }
    {
        last_kept_bytes(&self.nodes)
    }

    /// A copy that borrows what this one borrows and owns what it owns, with no room for more. An
    /// `Err` says that memory ran out.
    pub fn copied(&self, alloc: Global) -> Result<Self, AllocError>
        ensures parts { IfOk result (λ copy. list_parts copy ≡ list_parts self.now) }
        ensures owners { IfOk result (λ copy. list_owners copy ≡ list_owners self.now) }
        ensures exact { IfOk result (λ copy. room copy ≡ 0) }
    {
        let mut copies = Vec::with_capacity(alloc, self.nodes.len())?;
        'nodes: for at in 0..self.nodes.len() {
            let copy = self.nodes[at].copied(alloc)?;
            copies.push_reserved(copy);
        }
        Ok(NodeList {
            nodes: copies,
            owns: self.owns,
        })
    }

    /// A copy that borrows nothing, with no room for more. An `Err` says that memory ran out.
    pub fn owned(&self, alloc: Global) -> Result<NodeList<'static>, AllocError>
        ensures parts { IfOk result (λ copy. list_parts copy ≡ list_parts self.now) }
        ensures exact { IfOk result (λ copy. room copy ≡ 0) }
    {
        let mut copies = Vec::with_capacity(alloc, self.nodes.len())?;
        'nodes: for at in 0..self.nodes.len() {
            let copy = self.nodes[at].owned(alloc)?;
            copies.push_reserved(copy);
        }
        Ok(NodeList {
            nodes: copies,
            owns: true,
        })
    }

    /// Makes room for `count` more nodes. An `Err` says that memory ran out.
    pub fn reserve(&mut self, count: usize) -> Result<(), AllocError>
        ensures room { OnOk result (HasRoom self.new count) }
        ensures kept { list_trees self.new ≡ list_trees self.old }
        ensures nodes { node_count self.new ≡ node_count self.old }
        ensures no_memory { count ≡ 0 → IsOk result }
        ensures succeeds { count ≤ room self.old → IsOk result }
        ensures grows { room self.old ≤ room self.new }
    {
        self.nodes.reserve(count)
    }

    /// For how many more nodes there is room.
    pub fn room(&self) -> usize
        ensures { result ≡ room self.now }
    {
        self.nodes.capacity() - self.nodes.len()
    }

    /// Adds a borrowed text.
    pub fn literal(&mut self, text: &'a str)
        requires { HasRoom self.old 1 }
        ensures { Adds self.old self.new (literal text.now ∷ []) }
    {
        self.push(Node::Literal(text));
    }

    /// Adds an owned text.
    pub fn owned_literal(&mut self, text: String)
        requires { HasRoom self.old 1 }
        ensures { Adds self.old self.new (literal (string_bytes text) ∷ []) }
    {
        self.owns = true;
        self.push(Node::OwnedLiteral(text));
    }

    /// Adds a component, in its modern form, and returns how many bytes it reserves.
    pub fn component(&mut self, component: Component) -> usize
        requires { HasRoom self.old 1 }
        ensures added { Adds self.old self.new (spec.component (modern component) ∷ []) }
        ensures bytes { result ≡ reserved (modern component) }
    {
        let bytes = reserved_bytes(component);
        self.push(Node::Component(component, bytes));
        bytes
    }

    /// Makes the last `count` trees their compound.
    pub fn compound(&mut self, count: usize)
        requires there { count ≤ length (list_trees self.old) }
        requires room { HasRoom self.old 1 }
        ensures trees { list_trees self.new ≡ before count (list_trees self.old) ++ compound
            (trees (ending count (list_trees self.old))) ∷ [] }
        ensures node { AddsNode self.old self.new }
    {
        let members = ending_tally(&self.nodes, count);
        self.push(Node::Compound(members.of_all(count)));
    }

    /// Makes all `count` trees their compound. They reserve `bytes` bytes.
    pub fn compound_of_all(&mut self, count: usize, bytes: usize)
        requires all { count ≡ length (list_trees self.old) }
        requires bytes { bytes ≡ reserve_all (trees (list_trees self.old)) }
        requires room { HasRoom self.old 1 }
        ensures trees { list_trees self.new ≡ before count (list_trees self.old) ++ compound
            (trees (ending count (list_trees self.old))) ∷ [] }
        ensures node { AddsNode self.old self.new }
    {
        let nodes = self.nodes.len();
        self.push(Node::Compound(Members {
            count,
            nodes,
            bytes,
        }));
    }

    /// Makes the last `count` trees the alternatives of one tree.
    pub fn first(&mut self, count: usize)
        requires there { count ≤ length (list_trees self.old) }
        requires room { HasRoom self.old 1 }
        ensures trees { list_trees self.new ≡ before count (list_trees self.old) ++ first
            (trees (ending count (list_trees self.old))) ∷ [] }
        ensures node { AddsNode self.old self.new }
    {
        let members = ending_tally(&self.nodes, count);
        self.push(Node::First(members.of_first(count)));
    }

    /// Makes the last tree one that a parser may skip.
    pub fn optional(&mut self, format: bool)
        requires there { 1 ≤ length (list_trees self.old) }
        requires room { HasRoom self.old 1 }
        ensures trees { list_trees self.new ≡ before 1 (list_trees self.old) ++ optional format
            (pack (ending 1 (list_trees self.old))) ∷ [] }
        ensures node { AddsNode self.old self.new }
    {
        let member = ending_tally(&self.nodes, 1);
        self.push(Node::Optional {
            format,
            nodes: member.nodes,
            bytes: member.of_optional(format),
        });
    }

    fn push(&mut self, node: Node<'a>)
        requires fits { Fits (list_trees self.old) (part node) }
        requires flag { IsTrue (owns_text node) → IsTrue self.old.owns }
        requires room { HasRoom self.old 1 }
        ensures trees { list_trees self.new ≡ grown (list_trees self.old) (part node.entry) }
        ensures node { AddsNode self.old self.new }
    {
        self.nodes.push_reserved(node);
    }
}
