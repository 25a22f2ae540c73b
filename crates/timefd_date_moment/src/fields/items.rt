//! Reads by the items of versions 1 and 2 and of strftime.

ghost use Rattle.std.specs.Prelude.{None};
ghost use Rattle.timefd_lang_component.specs.Tree.{trees};
ghost use Rattle.timefd_lang_node_list.specs.Item.Meaning.{item_tree, item_trees};
ghost use Rattle.timefd_date_moment.specs.Fields.Reads as spec;
ghost use Rattle.timefd_date_moment.specs.Fields.Reads.{Gives, at};

use crate::fields::fault::FieldFault;
use crate::fields::fields::Fields;
use crate::fields::part::{read_component, read_literal};
use crate::fields::view::{earlier, none_reads};
use timefd_lang_node_list::item::BorrowedFormatItem;

/// Reads an item at the start of `rest`, and returns what follows it. After an `Err`, fields of the items in
/// front of the fault may have been read.
#[cycle(items)]
fn read<'t>(
    item: &BorrowedFormatItem<'_>,
    rest: &'t [u8],
    fields: &mut Fields,
) -> Result<&'t [u8], FieldFault>
    ensures { Gives (spec.read (item_tree item.now) (at rest.now fields.old)) fields.new result }
{
    match *item {
        BorrowedFormatItem::Literal(bytes) => read_literal(bytes, rest, fields),
        BorrowedFormatItem::StringLiteral(text) => read_literal(text.as_bytes(), rest, fields),
        BorrowedFormatItem::Component(component) => read_component(component, rest, fields),
        BorrowedFormatItem::Compound(items) => read_all(items, rest, fields),
        BorrowedFormatItem::Optional(item) => read_optional(item, rest, fields),
        BorrowedFormatItem::First(items) => read_first(items, rest, fields),
    }
}

/// Reads an item that may be missing. If it can't be read, the fields are as they were.
#[cycle(items)]
#[inline(never)]
fn read_optional<'t>(
    item: &BorrowedFormatItem<'_>,
    rest: &'t [u8],
    fields: &mut Fields,
) -> Result<&'t [u8], FieldFault>
    ensures { Gives (spec.perhaps (at rest.now fields.old) (spec.read (item_tree item.now)
        (at rest.now fields.old))) fields.new result }
{
    let without = *fields;
    match read(item, rest, fields) {
        Ok(left) => Ok(left),
        Err(_) => {
            *fields = without;
            Ok(rest)
        }
    }
}

/// Reads items, one after another.
#[cycle(items)]
pub(crate) fn read_all<'t>(
    items: &[BorrowedFormatItem<'_>],
    rest: &'t [u8],
    fields: &mut Fields,
) -> Result<&'t [u8], FieldFault>
    ensures { Gives (spec.read_all (trees (item_trees items.now)) (at rest.now fields.old))
        fields.new result }
{
    let mut left = rest;
    'items: for item in items {
        match read(item, left, fields) {
            Ok(after) => left = after,
            Err(fault) => return Err(fault),
        }
    }
    Ok(left)
}

/// Reads the first alternative that can be read. If none can, the fault is the one of the first alternative.
#[cycle(items)]
#[inline(never)]
fn read_first<'t>(
    alternatives: &[BorrowedFormatItem<'_>],
    rest: &'t [u8],
    fields: &mut Fields,
) -> Result<&'t [u8], FieldFault>
    ensures { Gives (spec.read_first None (trees (item_trees alternatives.now))
        (at rest.now fields.old)) fields.new result }
{
    let before = *fields;
    let mut first_fault = None;
    'alternatives: for alternative in alternatives {
        match read(alternative, rest, fields) {
            Ok(left) => return Ok(left),
            Err(fault) => {
                first_fault = earlier(first_fault, fault);
                *fields = before;
            }
        }
    }
    none_reads(rest, fields, first_fault)
}
