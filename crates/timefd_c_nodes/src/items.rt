//! The nodes of items.

ghost use Rattle.std.specs.Prelude.{◌≡◌, ◌+◌, None, IfSome, true};
ghost use Rattle.timefd_lang_node_list.specs.Item.Meaning.{item_tree, item_trees};
ghost use Rattle.timefd_lang_node_list.specs.Nodes.{kept_bytes};
ghost use Rattle.timefd_lang_component.specs.Reserved.{reserve, reserve_all};
ghost use Rattle.timefd_lang_component.specs.Tree.{compound, first, optional, trees};
ghost use Rattle.timefd_lang_node_list.specs.Views.{walked, walked_all};
ghost use Rattle.timefd_c_nodes.specs.Writing.{IsPast, IsWritten};

use crate::node::RawNode;
use crate::position::{WritePosition, Written, put, put_component, put_literal};
use timefd_items::{BorrowedFormatItem, item_bytes};

/// Writes items one after another from a position on.
#[cycle(write)]
fn write_all(
    items: &[BorrowedFormatItem<'_>],
    from: WritePosition,
    nodes: &mut [RawNode],
    literals: &mut [u8],
) -> Option<Written>
    ensures some { IfSome result (IsWritten (walked_all (trees (item_trees items.now)))
        (reserve_all (trees (item_trees items.now))) from nodes.old nodes.new literals.old literals.new) }
    ensures none { result ≡ None → IsPast (walked_all (trees (item_trees items.now))) from }
{
    let mut end = from;
    let mut bytes: usize = 0;
    'items: for at in 0..items.len() {
        let written = write_item(&items[at], end, nodes, literals)?;
        end = written.end;
        bytes = capped_sum(bytes, written.bytes);
    }
    Some(Written { end, bytes })
}

/// Writes an item: first the nodes of its members, then its own node.
#[cycle(write)]
#[inline(always)]
fn write_item(
    item: &BorrowedFormatItem<'_>,
    from: WritePosition,
    nodes: &mut [RawNode],
    literals: &mut [u8],
) -> Option<Written>
    ensures some { IfSome result (IsWritten (walked (item_tree item.now)) (reserve (item_tree item.now))
        from nodes.old nodes.new literals.old literals.new) }
    ensures none { result ≡ None → IsPast (walked (item_tree item.now)) from }
{
    match *item {
        BorrowedFormatItem::Literal(text) => put_literal(text, from, nodes, literals),
        BorrowedFormatItem::StringLiteral(text) => {
            put_literal(text.as_bytes(), from, nodes, literals)
        }
        BorrowedFormatItem::Component(component) => put_component(component, from, nodes),
        BorrowedFormatItem::Compound(members) => write_compound(members, from, nodes, literals),
        BorrowedFormatItem::Optional(member) => write_optional(member, from, nodes, literals),
        BorrowedFormatItem::First(members) => write_first(members, from, nodes, literals),
    }
}

/// Writes items one after another from a position on, and then the node of all of them, as far as
/// there is room. `None` says that a `usize` can't count them.
#[cycle(write)]
#[inline(never)]
pub fn write_compound(
    members: &[BorrowedFormatItem<'_>],
    from: WritePosition,
    nodes: &mut [RawNode],
    literals: &mut [u8],
) -> Option<Written>
    ensures some { IfSome result (IsWritten (walked (compound (trees (item_trees members.now))))
        (reserve (compound (trees (item_trees members.now)))) from nodes.old nodes.new literals.old literals.new) }
    ensures none { result ≡ None → IsPast (walked (compound (trees (item_trees members.now)))) from }
{
    let inner = write_all(members, from, nodes, literals)?;
    let node = RawNode::compound(from.nodes, members.len(), inner.bytes);
    put(node, inner.bytes, inner.end, nodes)
}

/// Writes an item, and then the node that says that a parser may skip it.
#[cycle(write)]
#[inline(never)]
fn write_optional(
    member: &BorrowedFormatItem<'_>,
    from: WritePosition,
    nodes: &mut [RawNode],
    literals: &mut [u8],
) -> Option<Written>
    ensures some { IfSome result (IsWritten (walked (optional true (item_tree member.now)))
        (reserve (optional true (item_tree member.now))) from nodes.old nodes.new literals.old literals.new) }
    ensures none { result ≡ None → IsPast (walked (optional true (item_tree member.now))) from }
{
    let inner = write_item(member, from, nodes, literals)?;
    let node = RawNode::optional(from.nodes, true, inner.bytes);
    put(node, inner.bytes, inner.end, nodes)
}

/// Writes items one after another, and then the node that says that they are alternatives.
#[cycle(write)]
#[inline(never)]
fn write_first(
    members: &[BorrowedFormatItem<'_>],
    from: WritePosition,
    nodes: &mut [RawNode],
    literals: &mut [u8],
) -> Option<Written>
    ensures some { IfSome result (IsWritten (walked (first (trees (item_trees members.now))))
        (reserve (first (trees (item_trees members.now)))) from nodes.old nodes.new literals.old literals.new) }
    ensures none { result ≡ None → IsPast (walked (first (trees (item_trees members.now)))) from }
{
    let bytes = first_bytes(members);
    let inner = write_all(members, from, nodes, literals)?;
    let node = RawNode::first(from.nodes, members.len(), bytes);
    put(node, bytes, inner.end, nodes)
}

/// The bytes that the first alternative reserves, at most `usize::MAX`.
fn first_bytes(members: &[BorrowedFormatItem<'_>]) -> usize
    ensures { result ≡ kept_bytes (reserve (first (trees (item_trees members.now)))) }
{
    match members {
        [] => 0,
        [first, ..] => item_bytes(first),
    }
}

/// The sum, at most `usize::MAX`.
fn capped_sum(a: usize, b: usize) -> usize
    ensures { result ≡ kept_bytes (a + b) }
{
    a.saturating_add(b)
}
