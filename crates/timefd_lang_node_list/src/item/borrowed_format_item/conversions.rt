//! Conversions from what an item may hold to the item and back, and equality with what it holds.

ghost use Rattle.std.specs.Prelude.{◌≡◌, ◌↔◌, IsTrue, IfOk, IfErr, Some, None};
ghost use Rattle.timefd_lang_node_list.specs.Item.Meaning.{item_tree, item_trees};
ghost use Rattle.timefd_lang_component.specs.Tree.{component_in, compound, trees, trees_in};

use super::{BorrowedFormatItem, DifferentVariant, same_all};
use timefd_lang_component::Component;

impl From<Component> for BorrowedFormatItem<'_> {
    ghost use Rattle.std.specs.Prelude.{◌≡◌};
    ghost use Rattle.timefd_lang_node_list.specs.Item.Meaning.{item_tree};
    ghost use Rattle.timefd_lang_component.specs.Tree.{component};

    ghost from_gives = { λ c item. item_tree item ≡ component c };

    fn from(component: Component) -> Self {
        BorrowedFormatItem::Component(component)
    }
}

impl<'a> From<&'a [BorrowedFormatItem<'a>]> for BorrowedFormatItem<'a> {
    ghost use Rattle.std.specs.Prelude.{◌≡◌};
    ghost use Rattle.timefd_lang_node_list.specs.Item.Meaning.{item_tree, item_trees};
    ghost use Rattle.timefd_lang_component.specs.Tree.{compound, trees};
    ghost use Rattle.timefd_lang_node_list.specs.declared.item.borrowed_format_item.BorrowedFormatItem.TheVariants.{Compound};

    ghost from_gives = { λ items item. record {
      content : item ≡ Compound items;
      meaning : item_tree item ≡ compound (trees (item_trees items.now));
    } };

    fn from(items: &'a [BorrowedFormatItem<'a>]) -> Self {
        BorrowedFormatItem::Compound(items)
    }
}

impl TryFrom<BorrowedFormatItem<'_>> for Component {
    ghost use Rattle.std.specs.Prelude.{◌≡◌, MatchResult, Some, None};
    ghost use Rattle.timefd_lang_node_list.specs.Item.Meaning.{item_tree};
    ghost use Rattle.timefd_lang_component.specs.Tree.{component_in};

    type Error = DifferentVariant;

    ghost try_from_gives = { λ item r. MatchResult r (λ c. component_in (item_tree item) ≡ Some c) (λ _. component_in (item_tree item) ≡ None) };

    fn try_from(item: BorrowedFormatItem<'_>) -> Result<Self, DifferentVariant> {
        match item {
            BorrowedFormatItem::Component(component) => Ok(component),
            _ => Err(DifferentVariant),
        }
    }
}

impl<'a> BorrowedFormatItem<'a> {
    /// The items of a compound, or an `Err` for any other variant. This is used instead of `TryFrom`
    /// for a slice.
    pub fn into_items(self) -> Result<&'a [BorrowedFormatItem<'a>], DifferentVariant>
        ensures content { IfOk result (λ items. self.entry ≡ BorrowedFormatItem.Compound items) }
        ensures ok { IfOk result (λ items. trees_in (item_tree self.entry) ≡ Some
            (trees (item_trees items.now))) }
        ensures err { IfErr result (λ e. trees_in (item_tree self.entry) ≡ None) }
    {
        match self {
            BorrowedFormatItem::Compound(items) => Ok(items),
            _ => Err(DifferentVariant),
        }
    }

    /// Whether this is `Component` of an equal component. This is used instead of `==` with a
    /// component.
    pub fn eq_component(&self, other: &Component) -> bool
        ensures { IsTrue result ↔ (component_in (item_tree self.now) ≡ Some other.now) }
    {
        match Component::try_from(*self) {
            Ok(component) => component == *other,
            Err(DifferentVariant) => false,
        }
    }

    /// Whether this is `Compound` of equal items. This is used instead of `==` with a slice.
    pub fn eq_items(&self, other: &[BorrowedFormatItem<'_>]) -> bool
        ensures { IsTrue result ↔ (trees_in (item_tree self.now) ≡ Some
            (trees (item_trees other.now))) }
    {
        match self.into_items() {
            Ok(items) => same_all(items, other),
            Err(DifferentVariant) => false,
        }
    }
}
