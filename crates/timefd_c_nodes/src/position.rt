//! Where nodes and the bytes of literals are written.

ghost use Rattle.std.specs.Prelude.{◌≡◌, ◌+◌, ◌≤◌, ◌^◌, None, IfSome, length};
ghost use Rattle.timefd_lang_component.specs.Reserved.{reserve};
ghost use Rattle.timefd_lang_component.specs.Tree.{literal};
ghost use Rattle.timefd_lang_node_list.specs.Views.{walked};
ghost use Rattle.timefd_c_nodes.specs.Encoding as spec;
ghost use Rattle.timefd_c_nodes.specs.Writing.{IsPast, IsWritten, Puts, overwritten};

use crate::component::{component_bytes, make_component};
use crate::node::RawNode;
use timefd_items::Component;

/// The index of the next node, and of the next byte of a literal. These are also how many come
/// before.
#[derive(Clone, Copy)]
pub struct WritePosition {
    pub nodes: usize,
    pub literals: usize,
}

/// The position of the first node.
pub const START: WritePosition = WritePosition {
    nodes: 0,
    literals: 0,
};

/// What was written.
#[derive(Clone, Copy)]
pub struct Written {
    /// The position after it, even if there was no room for it.
    pub end: WritePosition,
    /// How many bytes are reserved for it, at most `usize::MAX`.
    pub bytes: usize,
}

/// Writes a node that adds nothing to the literals and reserves `bytes` bytes, if there is room for
/// it. `None` says that a `usize` can't count the nodes.
#[inline(always)]
pub fn put(node: RawNode, bytes: usize, at: WritePosition, nodes: &mut [RawNode]) -> Option<Written>
    ensures some { IfSome result (Puts node bytes at nodes.old nodes.new) }
    ensures none { result ≡ None → 2 ^ 64 ≤ at.nodes + 1 }
{
    if at.nodes < nodes.len() {
        nodes[at.nodes] = node;
    }
    after_node(at, bytes)
}

/// The position after a node that adds nothing to the literals and reserves `bytes` bytes.
#[inline(always)]
fn after_node(at: WritePosition, bytes: usize) -> Option<Written>
    ensures some { IfSome result (λ w. (w.end.nodes ≡ at.nodes + 1)
        × (w.end.literals ≡ at.literals) × (w.bytes ≡ bytes)) }
    ensures none { result ≡ None → 2 ^ 64 ≤ at.nodes + 1 }
{
    let end = WritePosition {
        nodes: at.nodes.checked_add(1)?,
        literals: at.literals,
    };
    Some(Written { end, bytes })
}

/// Writes the node of a component right into its slot, if there is room for it. `None` says that a
/// `usize` can't count the nodes.
#[inline(always)]
pub fn put_component(
    component: Component,
    at: WritePosition,
    nodes: &mut [RawNode],
) -> Option<Written>
    ensures some { IfSome result (Puts (spec.component_node component at.nodes)
        (spec.component_table component).bytes at nodes.old nodes.new) }
    ensures none { result ≡ None → 2 ^ 64 ≤ at.nodes + 1 }
{
    if at.nodes >= nodes.len() {
        return after_node(at, component_bytes(component));
    }
    make_component(&mut nodes[at.nodes], component, at.nodes);
    after_node(at, nodes[at.nodes].bytes as usize)
}

/// Writes the node of a literal, and its bytes, each if its buffer has room for it. `None` says
/// that a `usize` can't count the nodes or the bytes.
#[inline(always)]
pub fn put_literal(
    text: &[u8],
    at: WritePosition,
    nodes: &mut [RawNode],
    literals: &mut [u8],
) -> Option<Written>
    ensures some { IfSome result (IsWritten (walked (literal text.now)) (reserve (literal text.now))
        at nodes.old nodes.new literals.old literals.new) }
    ensures none { result ≡ None → IsPast (walked (literal text.now)) at }
{
    let node = RawNode::literal(at.literals, text.len());
    let written = put(node, text.len(), at, nodes)?;
    let after = at.literals.checked_add(text.len())?;
    if after <= literals.len() {
        copy_over(text, at.literals, literals);
    }
    let end = WritePosition {
        nodes: written.end.nodes,
        literals: after,
    };
    Some(Written {
        end,
        bytes: text.len(),
    })
}

/// Copies bytes over those from an index on.
#[tactic(auto, using(crate::proofs::WriteLemmas::one_byte))]
#[inline(always)]
fn copy_over(text: &[u8], at: usize, literals: &mut [u8])
    requires { at + length text.now ≤ length literals.old }
    ensures { literals.new ≡ overwritten at text.now literals.old }
{
    // Most literals have one byte, which is stored without a call.
    if let [byte] = text {
        literals[at] = *byte;
    } else {
        literals[at..at + text.len()].copy_from_slice(text);
    }
}
