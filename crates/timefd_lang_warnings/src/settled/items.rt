//! Items of versions 1 and 2 and of strftime, from the last one to the first.

ghost use Rattle.std.specs.Prelude.{◌≡◌};
ghost use Rattle.timefd_lang_component.specs.Tree.{compound, trees};
ghost use Rattle.timefd_lang_node_list.specs.Item.Meaning.{item_tree, item_trees};
ghost use Rattle.timefd_lang_warnings.specs.Settling.Reached.{reached, reached_all};
ghost use Rattle.timefd_lang_warnings.specs.Settling.Settled as spec;

use crate::settled::bound::Bound;
use crate::settled::components::before_component;
use timefd_lang_node_list::item::BorrowedFormatItem;

/// Whether the items, one after another, read back everything that they write, as
/// [`is_settled`](crate::settled::is_settled) says. It takes no memory.
pub fn are_settled(items: &[BorrowedFormatItem<'_>]) -> bool
    ensures { result ≡ spec.is_settled (compound (trees (item_trees items.now))) }
{
    before_all(items, Bound::End).is_some()
}

/// What is known about the text of the item and the text that follows it, given what is known about
/// the latter. `None` if the item isn't settled there.
#[cycle(items)]
fn before(item: &BorrowedFormatItem<'_>, known: Bound) -> Option<Bound>
    ensures { result ≡ reached (item_tree item.now) known }
{
    match *item {
        BorrowedFormatItem::Literal(bytes) => Some(Bound::before_literal(bytes, known)),
        BorrowedFormatItem::StringLiteral(text) => {
            Some(Bound::before_literal(text.as_bytes(), known))
        }
        BorrowedFormatItem::Component(component) => before_component(component, known),
        BorrowedFormatItem::Compound(items) => before_all(items, known),
        BorrowedFormatItem::Optional(item) => before(item, known),
        BorrowedFormatItem::First(items) => match items {
            [] => Some(known),
            [first, ..] => before(first, known),
        },
    }
}

/// What is known about the text of items in turn and the text that follows them, given what is known
/// about the latter. `None` if one of them isn't settled. The last item is looked at first.
#[cycle(items)]
fn before_all(items: &[BorrowedFormatItem<'_>], known: Bound) -> Option<Bound>
    ensures { result ≡ reached_all (trees (item_trees items.now)) known }
{
    let mut reached = known;
    let mut left = items.len();
    'items: while left > 0 {
        left -= 1;
        reached = before(&items[left], reached)?;
    }
    Some(reached)
}
