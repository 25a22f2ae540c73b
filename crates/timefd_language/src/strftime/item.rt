//! The items that strftime gives.

ghost use Rattle.std.specs.Prelude.{◌≡◌, IsTrue};
ghost use Rattle.timefd_lang_node_list.specs.Item.Meaning.{item_tree, item_trees};
ghost use Rattle.timefd_lang_component.specs.Tree.{component, compound, literal, trees};
ghost use Rattle.timefd_language.specs.Strings.{are_of_strings, is_of_strings};

use timefd_lang_component::Component;
use timefd_lang_node_list::item::BorrowedFormatItem;

pub fn literal_item(text: &str) -> BorrowedFormatItem<'_>
    ensures tree { item_tree result ≡ literal text.now }
    ensures strings { IsTrue (is_of_strings result) }
{
    BorrowedFormatItem::StringLiteral(text)
}

pub fn component_item<'a>(value: Component) -> BorrowedFormatItem<'a>
    ensures tree { item_tree result ≡ component value }
    ensures strings { IsTrue (is_of_strings result) }
{
    BorrowedFormatItem::Component(value)
}

/// The items as one compound item.
pub fn compound_item<'a>(items: &'a [BorrowedFormatItem<'a>]) -> BorrowedFormatItem<'a>
    ensures tree { item_tree result ≡ compound (trees (item_trees items.now)) }
    ensures strings { IsTrue (are_of_strings items.now) → IsTrue (is_of_strings result) }
{
    BorrowedFormatItem::Compound(items)
}
