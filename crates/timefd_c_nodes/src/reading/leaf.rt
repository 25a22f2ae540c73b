//! Literals and components, each of one node.

ghost use Rattle.std.specs.Prelude.{◌≡◌, ◌+◌, ◌≤◌, ◌^◌, None, IfSome};
ghost use Rattle.timefd_lang_component.specs.Reserved.{reserve};
ghost use Rattle.timefd_lang_component.specs.Tree as spec;
ghost use Rattle.timefd_lang_component.specs.Tree.{Text, Tree};
ghost use Rattle.timefd_lang_node_list.specs.Views.{walked};
ghost use Rattle.timefd_c_nodes.specs.Writing.{IsPast, IsWritten};
ghost use Rattle.timefd_parse.specs.Pieces.{IsLeaf, IsLeafTree};

use crate::{RawNode, WritePosition, Written, put_component, put_literal};
use timefd_items::Component;
use timefd_parse::Piece;

/// Writes the node of a component at a position, if there is room for it. `None` says that a
/// `usize` can't count the nodes.
#[inline(always)]
pub fn write_component(
    component: Component,
    at: WritePosition,
    nodes: &mut [RawNode],
) -> Option<Written>
    ensures some { (literals : Text) → IfSome result (IsWritten (walked (spec.component component))
        (reserve (spec.component component)) at nodes.old nodes.new literals literals) }
    ensures none { result ≡ None → 2 ^ 64 ≤ at.nodes + 1 }
{
    put_component(component, at, nodes)
}

/// Writes the node of a piece without nested descriptions at a position, and the bytes of a
/// literal, as far as there is room. `None` says that a `usize` can't count them.
#[inline(always)]
pub fn write_leaf(
    piece: Piece<'_>,
    at: WritePosition,
    nodes: &mut [RawNode],
    literals: &mut [u8],
) -> Option<Written>
    requires { IsLeaf piece }
    ensures some { (tree : Tree) → IsLeafTree piece.entry tree → IfSome result (IsWritten (walked tree)
        (reserve tree) at nodes.old nodes.new literals.old literals.new) }
    ensures none { (tree : Tree) → IsLeafTree piece.entry tree → result ≡ None
        → IsPast (walked tree) at }
{
    match piece {
        Piece::Literal(text) => put_literal(text.as_bytes(), at, nodes, literals),
        Piece::Component(component, _) => write_component(component, at, nodes),
        Piece::Compound => unreachable!(),
    }
}
