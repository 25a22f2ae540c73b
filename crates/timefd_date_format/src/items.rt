//! Writes by the items of versions 1 and 2 and of strftime: walks over slices from their end.

ghost use Rattle.std.specs.Prelude.{length};
ghost use Rattle.timefd_lang_component.specs.Tree.{trees};
ghost use Rattle.timefd_lang_node_list.specs.Item.Meaning.{item_tree, item_trees};
ghost use Rattle.timefd_date_format.specs.Writes.{IsIn, Writes};
ghost use Rattle.timefd_date_format.specs.Written.{written, written_all};

use crate::component::write_component;
use crate::cursor::{WriteCursor, put_on};
use timefd_date_moment::Moment;
use timefd_lang_node_list::item::BorrowedFormatItem;

/// Writes what an item shows of the moment in front of what is already written.
#[cycle(items)]
fn write(
    moment: Moment,
    item: &BorrowedFormatItem<'_>,
    buffer: &mut [u8],
    cursor: WriteCursor,
) -> WriteCursor
    requires { IsIn (length buffer.old) cursor }
    ensures { Writes (written moment (item_tree item.now)) buffer.old cursor buffer.new result }
{
    match *item {
        BorrowedFormatItem::Literal(bytes) => put_on(buffer, cursor, bytes),
        BorrowedFormatItem::StringLiteral(text) => put_on(buffer, cursor, text.as_bytes()),
        BorrowedFormatItem::Component(component) => {
            write_component(moment, component, buffer, cursor)
        }
        BorrowedFormatItem::Compound(items) => write_all(moment, items, buffer, cursor),
        BorrowedFormatItem::Optional(item) => write(moment, item, buffer, cursor),
        BorrowedFormatItem::First(items) => match items {
            [] => put_on(buffer, cursor, &[]),
            [first, ..] => write(moment, first, buffer, cursor),
        },
    }
}

/// Writes what items show one after another, the last one first.
#[cycle(items)]
pub(crate) fn write_all(
    moment: Moment,
    items: &[BorrowedFormatItem<'_>],
    buffer: &mut [u8],
    cursor: WriteCursor,
) -> WriteCursor
    requires { IsIn (length buffer.old) cursor }
    ensures { Writes (written_all moment (trees (item_trees items.now))) buffer.old cursor
        buffer.new result }
{
    let mut at = put_on(buffer, cursor, &[]);
    let mut left = items.len();
    'items: while left > 0 {
        left -= 1;
        at = write(moment, &items[left], buffer, at);
    }
    at
}
