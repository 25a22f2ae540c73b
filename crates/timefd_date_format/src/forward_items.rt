//! Items of versions 1 and 2 and of strftime, written one after another from the first one on.

ghost use Rattle.std.specs.Prelude.{◌≤◌, length};
ghost use Rattle.timefd_lang_component.specs.Tree.{trees};
ghost use Rattle.timefd_date_format.specs.Appends.{TriesToAppend};
ghost use Rattle.timefd_date_format.specs.Written.{written, written_all};
ghost use Rattle.timefd_lang_node_list.specs.Item.Meaning.{item_tree, item_trees};

use crate::forward::{append_plain, append_shown};
use timefd_date_moment::Moment;
use timefd_lang_node_list::item::BorrowedFormatItem;

/// Appends what items show, one after another, and returns the position after it. `None` if a component shows
/// nothing, or little room is left; then the bytes in front of `from` are as they were.
#[cycle(forward)]
#[tactic(auto, using(crate::proofs::ForwardLemmas::none_so_far, crate::proofs::ForwardLemmas::one_so_far, crate::proofs::ForwardLemmas::all_so_far, crate::proofs::ForwardLemmas::kept_so_far))]
pub(crate) fn append_items(
    moment: &Moment,
    items: &[BorrowedFormatItem<'_>],
    room: &mut [u8],
    from: usize,
) -> Option<usize>
    requires { from ≤ length room.old }
    ensures { TriesToAppend (written_all moment.now (trees (item_trees items.now))) room.old from
        room.new result }
{
    let mut at = from;
    let mut index = 0;
    'items: while index < items.len() {
        at = append_item(moment, &items[index], room, at)?;
        index += 1;
    }
    Some(at)
}

/// Appends what an item shows. `None` also if little room is left.
#[cycle(forward)]
fn append_item(
    moment: &Moment,
    item: &BorrowedFormatItem<'_>,
    room: &mut [u8],
    at: usize,
) -> Option<usize>
    requires { at ≤ length room.old }
    ensures { TriesToAppend (written moment.now (item_tree item.now)) room.old at room.new result }
{
    match *item {
        BorrowedFormatItem::Literal(bytes) => append_plain(bytes, room, at),
        BorrowedFormatItem::StringLiteral(text) => append_plain(text.as_bytes(), room, at),
        BorrowedFormatItem::Component(ref component) => append_shown(moment, component, room, at),
        BorrowedFormatItem::Compound(items) => append_items(moment, items, room, at),
        BorrowedFormatItem::Optional(item) => append_item(moment, item, room, at),
        BorrowedFormatItem::First(items) => match items {
            [] => Some(at),
            [first, ..] => append_item(moment, first, room, at),
        },
    }
}
