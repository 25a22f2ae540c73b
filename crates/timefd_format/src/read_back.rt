//! The moment that a text shows, read by a description.

ghost use Rattle.std.specs.Prelude.{◌≡◌, IfOk, IfSome, map};
ghost use Rattle.timefd_lang_node_list.specs.Item.Meaning.{item_tree, item_trees};
ghost use Rattle.timefd_lang_node_list.specs.LeafMeaning.{leaf_tree};
ghost use Rattle.timefd_date_moment.specs.Fields.Reads.{Fills, fields_of};
ghost use Rattle.timefd_format.specs.Absent.{absent_day};
ghost use Rattle.timefd_format.specs.ReadBack as spec;
ghost use Rattle.timefd_format.specs.ReadBack.{AreLeavesOf, IsMadeOf, IsOfRead, IsReadBack, IsWhole, now};

use crate::absent::absent_day;
use crate::moment::MomentError;
use crate::partial::partial_moment;
use std::alloc::{AllocError, Global};
use timefd_date_moment::Moment;
use timefd_date_moment::fields::{
    Fields, NO_FIELDS, ReadError, fill_fields, fill_item_fields, fill_leaf_fields, leaves_in_turn,
    numbers_shown,
};
use timefd_date_moment::reading::{Part, ValueError, moment, moment_of_numbers};
use timefd_lang_node_list::Leaf;
use timefd_lang_node_list::item::BorrowedFormatItem;
use timefd_parse::BorrowedOutput;

/// The components and literals of a description, if it is only a sequence of those. They are found once, so
/// that many texts can be read by them. An `Err` says that memory ran out.
pub fn leaves_of<'d>(
    alloc: Global,
    description: &'d BorrowedOutput<'_>,
) -> Result<Option<Vec<Leaf<'d>>>, AllocError>
    ensures { IfOk result (λ found. IfSome found (λ leaves. IsMadeOf description.now leaves.items)) }
{
    match description {
        BorrowedOutput::Items(items) => item_leaves(alloc, items),
        BorrowedOutput::Description(description) => leaves_in_turn(alloc, description.view()),
    }
}

// The items as components and literals. `None` if another one is among them, like a composite letter of strftime.
fn item_leaves<'d>(
    alloc: Global,
    items: &'d [BorrowedFormatItem<'_>],
) -> Result<Option<Vec<Leaf<'d>>>, AllocError>
    ensures { IfOk result (λ found. IfSome found
        (λ leaves. item_trees items.now ≡ map leaf_tree leaves.items)) }
{
    let mut leaves = Vec::new(alloc);
    'items: for item in items {
        match item_leaf(item) {
            Some(leaf) => leaves.push(leaf)?,
            None => return Ok(None),
        }
    }
    Ok(Some(leaves))
}

fn item_leaf<'d>(item: &'d BorrowedFormatItem<'_>) -> Option<Leaf<'d>>
    ensures { IfSome result (λ leaf. item_tree item.now ≡ leaf_tree leaf) }
{
    match *item {
        BorrowedFormatItem::Component(component) => Some(Leaf::Component(component)),
        BorrowedFormatItem::StringLiteral(text) => Some(Leaf::Literal(text)),
        BorrowedFormatItem::Literal(_)
        | BorrowedFormatItem::Compound(_)
        | BorrowedFormatItem::Optional(_)
        | BorrowedFormatItem::First(_) => None,
    }
}

/// The moment that a whole text shows, read by the description, or by its leaves if those were found. If it
/// gives part of a date, and the description to write by shows no more, the moment is one of those that agree
/// with it. Without a description to write by, it has to give a whole date.
///
/// An `Err` says which part doesn't match and the byte index where it begins, or why what was read isn't a
/// moment.
#[tactic(auto, using(crate::proofs::ReadBackLemmas::whole))]
pub fn moment_read(
    description: &BorrowedOutput<'_>,
    leaves: Option<&[Leaf<'_>]>,
    written: Option<&BorrowedOutput<'_>>,
    text: &str,
) -> Result<Moment, MomentError>
    requires { AreLeavesOf description.now leaves }
    ensures { IsReadBack description.now (now written.entry) text.now result }
{
    if let Some(moment) = moment_shown(description, leaves, text.as_bytes()) {
        return Ok(moment);
    }
    moment_by_fields(description, leaves, written, text)
}

/// The moment of a text with two-digit numbers and a four-digit year only, which is the fast case. `None` says
/// nothing about the text.
#[inline(never)]
pub fn moment_shown(
    description: &BorrowedOutput<'_>,
    leaves: Option<&[Leaf<'_>]>,
    text: &[u8],
) -> Option<Moment>
    requires { AreLeavesOf description.now leaves }
    ensures { IfSome result (IsWhole description.now text.now) }
{
    let numbers = numbers_shown(leaves?, text)?;
    moment_of_numbers(numbers)
}

// The moment of any text, by its fields.
#[inline(never)]
fn moment_by_fields(
    description: &BorrowedOutput<'_>,
    leaves: Option<&[Leaf<'_>]>,
    written: Option<&BorrowedOutput<'_>>,
    text: &str,
) -> Result<Moment, MomentError>
    requires { AreLeavesOf description.now leaves }
    ensures { IsReadBack description.now (now written.entry) text.now result }
{
    let mut fields = NO_FIELDS;
    match fill(description, leaves, text, &mut fields) {
        Ok(()) => moment_of_fields(&fields, written),
        Err(error) => Err(MomentError::Unread(error)),
    }
}

// The moment of what was read.
fn moment_of_fields(
    fields: &Fields,
    written: Option<&BorrowedOutput<'_>>,
) -> Result<Moment, MomentError>
    ensures { IsOfRead (now written.entry) fields.now result }
{
    match moment(fields) {
        Ok(moment) => Ok(moment),
        Err(ValueError::Missing(part)) => partial_moment(fields, part, written),
        Err(ValueError::Contradiction(part)) => Err(contradiction(fields, part)),
    }
}

// The parts that were read disagree. If there is no such day, the error says so.
fn contradiction(fields: &Fields, part: Part) -> MomentError
    ensures { result ≡ spec.contradiction (absent_day fields.now) part }
{
    match absent_day(fields) {
        Some(day) => MomentError::Absent(day),
        None => MomentError::Value(ValueError::Contradiction(part)),
    }
}

// Replaces these fields with those that the text shows.
fn fill(
    description: &BorrowedOutput<'_>,
    leaves: Option<&[Leaf<'_>]>,
    text: &str,
    fields: &mut Fields,
) -> Result<(), ReadError>
    requires { AreLeavesOf description.now leaves }
    ensures { Fills (fields_of (spec.tree_of description.now) text.now) fields.new result }
{
    if let Some(leaves) = leaves {
        return fill_leaf_fields(leaves, text, fields);
    }
    match description {
        BorrowedOutput::Items(items) => fill_item_fields(items, text, fields),
        BorrowedOutput::Description(description) => fill_fields(description.view(), text, fields),
    }
}
