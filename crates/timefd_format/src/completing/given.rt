//! Whether a description shows only what was read of a date: its parts, walked from the last one to the first.

ghost use Rattle.std.specs.Prelude.{◌≡◌, ◌&&◌, true};
ghost use Rattle.timefd_lang_component.specs.Modern.{modern};
ghost use Rattle.timefd_lang_component.specs.Tree.{trees};
ghost use Rattle.timefd_lang_node_list.specs.Item.Meaning.{item_tree, item_trees};
ghost use Rattle.timefd_lang_node_list.specs.LeafMeaning.{leaf_tree};
ghost use Rattle.timefd_lang_node_list.specs.Leaves.{leaves, leaves_all};
ghost use Rattle.timefd_lang_node_list.specs.Views.{view_tree};
ghost use Rattle.timefd_format.specs.Completing.Given as spec;
ghost use Rattle.timefd_lang_warnings.specs.Parts.{parts};

use crate::completing::component::is_given;
use timefd_date_moment::fields::Fields;
use timefd_lang_component::Component;
use timefd_lang_node_list::item::BorrowedFormatItem;
use timefd_lang_node_list::{Leaf, View};
use timefd_lang_warnings::ReadDescription;

/// Whether the description shows the same of each date that has what was read: each component of a date that
/// it writes shows a part that was read. It takes no memory.
pub fn are_given(fields: &Fields, description: ReadDescription<'_, '_>) -> bool
    ensures { result ≡ spec.are_given fields.now (parts description.entry) }
{
    match description {
        ReadDescription::Version3(view) => is_view_given(fields, view),
        ReadDescription::Items(items) => are_items_given(fields, items, true),
    }
}

fn is_view_given(fields: &Fields, view: View<'_, '_>) -> bool
    ensures { result ≡ spec.with_parts fields.now (leaves (view_tree view.entry)) true }
{
    let mut given = true;
    let mut left = view.leaves();
    'leaves: while let Some((front, leaf)) = left.split_last() {
        given = is_leaf_given(fields, leaf, given);
        left = front;
    }
    given
}

/// Whether a part and those after it show only what was read, given whether those after it do.
fn is_leaf_given(fields: &Fields, leaf: Leaf<'_>, after: bool) -> bool
    ensures { result ≡ (spec.is_part_given fields.now (leaf_tree leaf.entry) && after) }
{
    match leaf {
        Leaf::Component(component) => is_component_given(fields, component, after),
        Leaf::Literal(_) => after,
    }
}

fn is_component_given(fields: &Fields, component: Component, after: bool) -> bool
    ensures { result ≡ (spec.is_given fields.now (modern component) && after) }
{
    is_given(fields, component.modern()) && after
}

#[cycle(parts)]
fn is_item_given(fields: &Fields, item: &BorrowedFormatItem<'_>, after: bool) -> bool
    ensures { result ≡ spec.with_parts fields.now (leaves (item_tree item.now)) after }
{
    match *item {
        BorrowedFormatItem::Literal(_) => after,
        BorrowedFormatItem::StringLiteral(_) => after,
        BorrowedFormatItem::Component(component) => is_component_given(fields, component, after),
        BorrowedFormatItem::Compound(items) => are_items_given(fields, items, after),
        BorrowedFormatItem::Optional(item) => is_item_given(fields, item, after),
        BorrowedFormatItem::First(items) => match items {
            [] => after,
            [first, ..] => is_item_given(fields, first, after),
        },
    }
}

#[cycle(parts)]
fn are_items_given(fields: &Fields, items: &[BorrowedFormatItem<'_>], after: bool) -> bool
    ensures { result ≡ spec.with_parts fields.now (leaves_all (trees (item_trees items.now))) after }
{
    let mut given = after;
    let mut left = items.len();
    'items: while left > 0 {
        left -= 1;
        given = is_item_given(fields, &items[left], given);
    }
    given
}
