//! Writes a moment by the text of a description.

ghost use Rattle.std.specs.Prelude.{◌≤◌, List};
ghost use Rattle.timefd_parse.specs.Tree.{Tree, trees};
ghost use Rattle.timefd_lang_fault.specs.Faults as spec;
ghost use Rattle.timefd_date_format.specs.Written.{written, written_all};
ghost use Rattle.timefd_lang_node_list.specs.Item.Meaning.{item_trees};
ghost use Rattle.timefd_lang_node_list.specs.Views.{view_tree};
ghost use Rattle.timefd_description.specs.Formatted.{IsRefusedFor, IsShownAs};
ghost use Rattle.timefd_items.specs.Description.{description_tree};
ghost use Rattle.timefd_language.specs.Grammar.{nesting_limit};
ghost use Rattle.timefd_parse.specs.Language.{FaultIn, SpellsIn};

use crate::format_error::{FormatTextError, of_parse_error, of_text_error};
use crate::strftime::unread_error;
use crate::writing::write_view;
use std::alloc::Global;
use timefd_date_format::{FormatError, format, format_items};
use timefd_date_moment::Moment;
use timefd_lang_node_list::View;
use timefd_lang_node_list::item::BorrowedFormatItem;
use timefd_parse::{
    BorrowedOutput, DescriptionVersion, FormatDescriptionV3, Language, NESTING_LIMIT,
    StrftimeTables, parse_all_borrowed, parse_strftime_all_borrowed,
};

// A description that reserves no more bytes is written here first.
const ROOM: usize = 128;

/// The bytes that a text of a language writes for the moment.
///
/// A text with a fault is refused for it, whatever the moment is and however little memory there is.
pub fn format_text<'a>(
    alloc: Global,
    language: Language,
    text: &'a str,
    moment: Moment,
) -> Result<Vec<u8>, FormatTextError<'a>>
    // A description writes what its items write, or names the first component that shows nothing,
    // unless memory runs out.
    ensures spelled { (list : List Tree) → SpellsIn language nesting_limit text.now list
        → IsShownAs (written_all moment (trees list)) result }

    // Any other text is refused for the fault that the rules assign.
    ensures refused { (f : spec.Fault) → FaultIn language nesting_limit text.now f
        → IsRefusedFor f result }
{
    format_text_within(alloc, language, NESTING_LIMIT, text, moment)
}

/// Does what `format_text` does, with descriptions nested at most `limit` deep: a text that nests deeper is refused.
pub fn format_text_within<'a>(
    alloc: Global,
    language: Language,
    limit: u8,
    text: &'a str,
    moment: Moment,
) -> Result<Vec<u8>, FormatTextError<'a>>
    requires { limit ≤ nesting_limit }

    // A description writes what its items write, or names the first component that shows nothing,
    // unless memory runs out.
    ensures spelled { (list : List Tree) → SpellsIn language limit text.now list
        → IsShownAs (written_all moment (trees list)) result }

    // Any other text is refused for the fault that the rules assign.
    ensures refused { (f : spec.Fault) → FaultIn language limit text.now f
        → IsRefusedFor f result }
{
    match language {
        Language::Version(version) => format_version(alloc, version, limit, text, moment),
        Language::Strftime => format_strftime(alloc, text, moment),
    }
}

fn format_version<'a>(
    alloc: Global,
    version: DescriptionVersion,
    limit: u8,
    text: &'a str,
    moment: Moment,
) -> Result<Vec<u8>, FormatTextError<'a>>
    requires { limit ≤ nesting_limit }
    ensures spelled { (list : List Tree)
        → SpellsIn (Language.Version version) limit text.now list
        → IsShownAs (written_all moment (trees list)) result }
    ensures refused { (f : spec.Fault)
        → FaultIn (Language.Version version) limit text.now f → IsRefusedFor f result }
{
    match parse_all_borrowed(alloc, version, limit, text) {
        Ok(BorrowedOutput::Items(items)) => shown_items(alloc, moment, &items),
        Ok(BorrowedOutput::Description(description)) => {
            shown_description(alloc, moment, &description)
        }
        Err(error) => Err(of_parse_error(error)),
    }
}

fn format_strftime<'a>(
    alloc: Global,
    text: &'a str,
    moment: Moment,
) -> Result<Vec<u8>, FormatTextError<'a>>
    ensures spelled { (list : List Tree) → SpellsIn Language.Strftime nesting_limit text.now list
        → IsShownAs (written_all moment (trees list)) result }
    ensures refused { (f : spec.Fault) → FaultIn Language.Strftime nesting_limit text.now f
        → IsRefusedFor f result }
{
    let tables = StrftimeTables::new();
    match parse_strftime_all_borrowed(alloc, &tables, text) {
        Ok(items) => shown_items(alloc, moment, &items),
        Err(_) => Err(of_parse_error(unread_error(text))),
    }
}

fn shown_items<'e>(
    alloc: Global,
    moment: Moment,
    items: &[BorrowedFormatItem<'_>],
) -> Result<Vec<u8>, FormatTextError<'e>>
    ensures { IsShownAs (written_all moment (trees (item_trees items.now))) result }
{
    match format_items(alloc, moment, items) {
        Ok(bytes) => Ok(bytes),
        Err(error) => Err(of_text_error(error)),
    }
}

fn shown_description<'e>(
    alloc: Global,
    moment: Moment,
    description: &FormatDescriptionV3<'_>,
) -> Result<Vec<u8>, FormatTextError<'e>>
    ensures { IsShownAs (written moment (description_tree description.now)) result }
{
    let view = description.view();
    if view.max_bytes_needed() <= ROOM {
        return short_text(alloc, moment, view, &mut [0; ROOM]);
    }
    long_text(alloc, moment, view)
}

// Writes the description over the front of `room`, and copies that.
#[tactic(auto, using(crate::proofs::FormatLemmas::front_shown, crate::proofs::FormatLemmas::unshown_front))]
fn short_text<'e>(
    alloc: Global,
    moment: Moment,
    view: View<'_, '_>,
    room: &mut [u8],
) -> Result<Vec<u8>, FormatTextError<'e>>
    ensures { IsShownAs (written moment (view_tree view.entry)) result }
{
    match write_view(&moment, view, room) {
        Ok(len) => match Vec::from_slice(alloc, &room[..len]) {
            Ok(bytes) => Ok(bytes),
            Err(error) => Err(FormatTextError::Memory(error)),
        },
        Err(FormatError::Unshown(unshown)) => Err(FormatTextError::Unshown(unshown)),
        Err(FormatError::Room) => long_text(alloc, moment, view),
    }
}

// Writes the description in as many bytes as it may need.
#[inline(never)]
fn long_text<'e>(
    alloc: Global,
    moment: Moment,
    view: View<'_, '_>,
) -> Result<Vec<u8>, FormatTextError<'e>>
    ensures { IsShownAs (written moment (view_tree view.entry)) result }
{
    match format(alloc, moment, view) {
        Ok(text) => Ok(text.into_bytes()),
        Err(error) => Err(of_text_error(error)),
    }
}
