//! One part of a description of version 3 is written.

ghost use Rattle.std.specs.Prelude.{◌≡◌, ◌-◌, ◌∷◌, [], None, IfSome};
ghost use Rattle.timefd_lang_component.specs.Reserved.{tree_count};
ghost use Rattle.timefd_lang_node_list.specs.Views.{view_tree};
ghost use Rattle.timefd_c_nodes.specs.Writing.{IsPast, WritesWithin};

use crate::node::RawNode;
use crate::position::{WritePosition, Written, put, put_component, put_literal};
use timefd_items::{Shape, View};

/// Writes the node of a part and its bytes at a position, as far as there is room. The members are
/// right before the position. `None` says that a `usize` can't count what is written.
#[inline(always)]
pub fn put_part(
    part: View<'_, '_>,
    at: WritePosition,
    nodes: &mut [RawNode],
    literals: &mut [u8],
) -> Option<Written>
    ensures some { IfSome result (λ w. WritesWithin (view_tree part.entry ∷ []) at w.end nodes.old
        nodes.new literals.old literals.new) }
    ensures none { result ≡ None → IsPast (view_tree part.entry ∷ []) at }
{
    match part.shape() {
        Shape::Literal(text) => put_literal(text.as_bytes(), at, nodes, literals),
        Shape::Component(component) => put_component(component, at, nodes),
        Shape::Compound(members) => {
            let bytes = part.max_bytes_needed();
            let node = RawNode::compound(first_inner(part, at), members.len(), bytes);
            put(node, bytes, at, nodes)
        }
        Shape::Optional { format, .. } => {
            let bytes = part.max_bytes_needed();
            let node = RawNode::optional(first_inner(part, at), format, bytes);
            put(node, bytes, at, nodes)
        }
        Shape::First(members) => {
            let bytes = part.max_bytes_needed();
            let node = RawNode::first(first_inner(part, at), members.len(), bytes);
            put(node, bytes, at, nodes)
        }
    }
}

/// The index of the first node of a part's members.
fn first_inner(part: View<'_, '_>, at: WritePosition) -> usize
    ensures { result ≡ at.nodes - (tree_count (view_tree part.entry) - 1) }
{
    at.nodes.saturating_sub(part.part_count().saturating_sub(1))
}
