//! How many bytes items take at most.

ghost use Rattle.std.specs.Prelude.{◌≡◌, ◌+◌};
ghost use Rattle.timefd_lang_component.specs.Reserved as spec;
ghost use Rattle.timefd_lang_component.specs.Reserved.{reserve, reserve_all};
ghost use Rattle.timefd_lang_component.specs.Tree.{trees};
ghost use Rattle.timefd_lang_node_list.specs.Item.Meaning.{item_tree, item_trees};
ghost use Rattle.timefd_lang_node_list.specs.Nodes.{kept_bytes};

use timefd_lang_component::Component;
use timefd_lang_component::reserved::reserved_bytes;
use timefd_lang_node_list::item::BorrowedFormatItem;

/// The greatest number of bytes that items of versions 1 and 2 and of strftime are written as, one
/// after another, at most `usize::MAX`. For a description of version 3 `max_bytes_needed` returns
/// it. A deprecated component, which no text has, counts 0 bytes. This call is this port's own.
#[cycle(bytes)]
pub fn items_bytes(items: &[BorrowedFormatItem<'_>]) -> usize
    ensures { result ≡ kept_bytes (reserve_all (trees (item_trees items.now))) }
{
    let mut bytes: usize = 0;
    'items: for at in 0..items.len() {
        bytes = capped_sum(bytes, item_bytes(&items[at]));
    }
    bytes
}

/// The greatest number of bytes that one item is written as, at most `usize::MAX`.
#[cycle(bytes)]
pub fn item_bytes(item: &BorrowedFormatItem<'_>) -> usize
    ensures { result ≡ kept_bytes (reserve (item_tree item.now)) }
{
    match *item {
        BorrowedFormatItem::Literal(bytes) => capped_sum(bytes.len(), 0),
        BorrowedFormatItem::StringLiteral(text) => capped_sum(text.len(), 0),
        BorrowedFormatItem::Component(component) => capped_sum(component_bytes(component), 0),
        BorrowedFormatItem::Compound(members) => items_bytes(members),
        BorrowedFormatItem::Optional(member) => item_bytes(member),
        BorrowedFormatItem::First(members) => match members {
            [] => 0,
            [first, ..] => item_bytes(first),
        },
    }
}

fn component_bytes(component: Component) -> usize
    ensures { result ≡ spec.reserved component }
{
    if component.modern() == component {
        reserved_bytes(component)
    } else {
        0
    }
}

fn capped_sum(a: usize, b: usize) -> usize
    ensures { result ≡ kept_bytes (a + b) }
{
    a.saturating_add(b)
}
