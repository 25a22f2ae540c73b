//! The public functions.

ghost use Rattle.std.specs.Prelude.{◌≡◌, Result, length, map};
ghost use Rattle.timefd_lang_component.specs.Tree.{compound, trees};
ghost use Rattle.timefd_lang_node_list.specs.Item.Meaning.{item_trees};
ghost use Rattle.timefd_lang_node_list.specs.LeafMeaning.{leaf_tree};
ghost use Rattle.timefd_lang_node_list.specs.Views.{view_tree};
ghost use Rattle.timefd_date_moment.specs.Fields.Reads as spec;
ghost use Rattle.timefd_date_moment.specs.Fields.Reads.{Fills};

use crate::fields::fault::{FieldFault, ReadError, UnreadReason};
use crate::fields::fields::{Fields, NO_FIELDS};
use crate::fields::{items, leaves, view};
use timefd_lang_node_list::item::BorrowedFormatItem;
use timefd_lang_node_list::{Leaf, View};

/// The fields that a text shows by a description of version 3. The error reports the first part that can't be
/// read, and the byte index where it begins. Allocates no memory, and takes stack in proportion to the
/// nesting of the description.
pub fn read_fields(view: View<'_, '_>, text: &str) -> Result<Fields, ReadError>
    ensures { result ≡ spec.fields_of (view_tree view.entry) text.now }
{
    let mut fields = NO_FIELDS;
    match fill_fields(view, text, &mut fields) {
        Ok(()) => Ok(fields),
        Err(error) => Err(error),
    }
}

/// Does what `read_fields` does, and overwrites `fields` with the result. After an error, `fields` may hold
/// anything.
pub fn fill_fields(view: View<'_, '_>, text: &str, fields: &mut Fields) -> Result<(), ReadError>
    ensures { Fills (spec.fields_of (view_tree view.entry) text.now) fields.new result }
{
    let bytes = text.as_bytes();
    *fields = NO_FIELDS;
    let read = view::read(view, bytes, fields);
    answer(bytes, read, fields)
}

/// The fields that a text shows by items of version 1 or 2, or of strftime. Errors are as in `read_fields`.
pub fn read_item_fields(items: &[BorrowedFormatItem<'_>], text: &str) -> Result<Fields, ReadError>
    ensures { result ≡ spec.fields_of (compound (trees (item_trees items.now))) text.now }
{
    let mut fields = NO_FIELDS;
    match fill_item_fields(items, text, &mut fields) {
        Ok(()) => Ok(fields),
        Err(error) => Err(error),
    }
}

/// Does what `read_item_fields` does, and overwrites `fields` with the result. After an error, `fields` may
/// hold anything.
pub fn fill_item_fields(
    items: &[BorrowedFormatItem<'_>],
    text: &str,
    fields: &mut Fields,
) -> Result<(), ReadError>
    ensures { Fills (spec.fields_of (compound (trees (item_trees items.now))) text.now) fields.new
        result }
{
    let bytes = text.as_bytes();
    *fields = NO_FIELDS;
    let read = items::read_all(items, bytes, fields);
    answer(bytes, read, fields)
}

/// Finds the fields that a text shows by components and literals, one after another, and overwrites `fields`
/// with them. After an error, `fields` may hold anything. Allocates no memory, and takes a constant amount of
/// stack.
pub fn fill_leaf_fields(
    leaves: &[Leaf<'_>],
    text: &str,
    fields: &mut Fields,
) -> Result<(), ReadError>
    ensures { Fills (spec.fields_of (compound (trees (map leaf_tree leaves.now))) text.now)
        fields.new result }
{
    let bytes = text.as_bytes();
    *fields = NO_FIELDS;
    let read = leaves::read_all(leaves, bytes, fields);
    answer(bytes, read, fields)
}

/// The result, from what is left of the text and the fields that were read.
fn answer(text: &[u8], read: Result<&[u8], FieldFault>, fields: &Fields) -> Result<(), ReadError>
    ensures { (reached : Result spec.Point FieldFault) → spec.Gives reached fields.now read.entry
        → Fills (spec.whole (length text.now) reached) fields.now result }
{
    match read {
        Ok(rest) => {
            if rest.len() == 0 {
                Ok(())
            } else {
                Err(ReadError {
                    reason: UnreadReason::Trailing,
                    index: text.len().saturating_sub(rest.len()),
                })
            }
        }
        Err(fault) => Err(ReadError {
            reason: fault.reason,
            index: text.len().saturating_sub(fault.left),
        }),
    }
}
