//! The public functions that write at the end of a buffer.

ghost use Rattle.std.specs.Prelude.{◌≡◌, ◌≤◌, IfErr, IfOk, IsUtf8, drop, length};
ghost use Rattle.timefd_lang_component.specs.Reserved.{reserve};
ghost use Rattle.timefd_lang_component.specs.Tree.{trees};
ghost use Rattle.timefd_lang_node_list.specs.Item.Meaning.{item_trees};
ghost use Rattle.timefd_date_format.specs.Literals.{HaveUtf8Literals};
ghost use Rattle.timefd_date_format.specs.Outcomes.{IsOutcome};
ghost use Rattle.timefd_date_format.specs.Written.{shown, written, written_all};
ghost use Rattle.timefd_lang_node_list.specs.Views.{view_tree};

use crate::cursor::WriteCursor;
use crate::field::Unshown;
use crate::items;
use crate::put_field::put_field;
use crate::shown::field;
use crate::view::write_view;
use timefd_date_moment::Moment;
use timefd_lang_component::Component;
use timefd_lang_node_list::View;
use timefd_lang_node_list::item::BorrowedFormatItem;

/// Why nothing is written.
#[derive(Debug, Clone, Copy)]
pub enum FormatError {
    /// A component shows nothing of the value. It is the first one.
    Unshown(Unshown),
    /// The buffer has no room.
    Room,
}

/// Writes the moment by a description of version 3 at the end of the buffer, and returns the position where
/// the text begins.
pub fn write_description(
    moment: Moment,
    view: View<'_, '_>,
    buffer: &mut [u8],
) -> Result<usize, FormatError>
    ensures outcome { IsOutcome (written moment (view_tree view.entry)) buffer.old buffer.new
        result }
    ensures enough { reserve (view_tree view.entry) ≤ length buffer.old
        → IfErr result (λ error. ¬ (error ≡ FormatError.Room)) }
    ensures utf8 { IfOk result (λ at. IsUtf8 (drop at buffer.new)) }
{
    match write_view(moment, view, buffer) {
        WriteCursor::At(at) => Ok(at),
        WriteCursor::NoRoom => Err(FormatError::Room),
        WriteCursor::Unshown(unshown) => Err(FormatError::Unshown(unshown)),
    }
}

/// Writes the moment by items of version 1 or 2, or of strftime, at the end of the buffer, and returns the
/// position where the text begins.
pub fn write_items(
    moment: Moment,
    items: &[BorrowedFormatItem<'_>],
    buffer: &mut [u8],
) -> Result<usize, FormatError>
    ensures outcome { IsOutcome (written_all moment (trees (item_trees items.now))) buffer.old
        buffer.new result }
    ensures utf8 { HaveUtf8Literals (trees (item_trees items.now))
        → IfOk result (λ at. IsUtf8 (drop at buffer.new)) }
{
    let end = WriteCursor::At(buffer.len());
    match items::write_all(moment, items, buffer, end) {
        WriteCursor::At(at) => Ok(at),
        WriteCursor::NoRoom => Err(FormatError::Room),
        WriteCursor::Unshown(unshown) => Err(FormatError::Unshown(unshown)),
    }
}

/// Writes what one component shows of the moment at the end of the buffer, and returns the position where the
/// text begins. A deprecated component shows what its modern form does.
pub fn write_component(
    moment: Moment,
    component: Component,
    buffer: &mut [u8],
) -> Result<usize, FormatError>
    ensures outcome { IsOutcome (shown moment component) buffer.old buffer.new result }
    ensures utf8 { IfOk result (λ at. IsUtf8 (drop at buffer.new)) }
{
    let modern = component.modern();
    match field(moment, modern) {
        Ok(field) => match put_field(buffer, buffer.len(), field) {
            Some(at) => Ok(at),
            None => Err(FormatError::Room),
        },
        Err(lack) => Err(FormatError::Unshown(Unshown {
            component: modern,
            lack,
        })),
    }
}
