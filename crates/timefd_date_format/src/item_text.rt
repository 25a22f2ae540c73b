//! What items write, in newly allocated memory.

ghost use Rattle.std.specs.Prelude.{IfOk, IfSome, IsUtf8, Ok};
ghost use Rattle.timefd_lang_component.specs.Tree.{trees};
ghost use Rattle.timefd_lang_node_list.specs.Item.Meaning.{item_trees};
ghost use Rattle.timefd_date_format.specs.Answers.{AreBytes};
ghost use Rattle.timefd_date_format.specs.Literals.{HaveUtf8Literals};
ghost use Rattle.timefd_date_format.specs.Sent.{IsSent};
ghost use Rattle.timefd_date_format.specs.Written.{written_all};

use crate::forward_items::append_items;
use crate::output::OutputError;
use crate::text::TextError;
use crate::write::{FormatError, write_items};
use std::alloc::{AllocError, Global};
use std::io;
use timefd_date_moment::Moment;
use timefd_lang_node_list::item::BorrowedFormatItem;

// A text is written here first. Few are longer.
const ROOM: usize = 128;

/// What items of version 1 or 2, or of strftime, show of the moment. It is bytes, since a literal of manually
/// built items may hold any. They are UTF-8 if all literals are.
#[tactic(auto, using(crate::proofs::SentLemmas::bytes_utf8))]
pub fn format_items(
    alloc: Global,
    moment: Moment,
    items: &[BorrowedFormatItem<'_>],
) -> Result<Vec<u8>, TextError>
    ensures answer { AreBytes (written_all moment (trees (item_trees items.now))) result }
    ensures utf8 { HaveUtf8Literals (trees (item_trees items.now))
        → IfOk result (λ bytes. IsUtf8 bytes.items) }
{
    match short_text(alloc, moment, items, &mut [0; ROOM]) {
        Some(answer) => answer,
        None => long_text(alloc, moment, items),
    }
}

/// Writes the items in `room`, and copies what they show. `None` if a component shows nothing, or if `room` has
/// few bytes to spare.
#[tactic(auto, using(crate::proofs::ForwardLemmas::front_is))]
fn short_text(
    alloc: Global,
    moment: Moment,
    items: &[BorrowedFormatItem<'_>],
    room: &mut [u8],
) -> Option<Result<Vec<u8>, TextError>>
    ensures answer { IfSome result (AreBytes (written_all moment (trees (item_trees items.now)))) }
{
    let len = append_items(&moment, items, room, 0)?;
    Some(copied(alloc, &room[..len]))
}

/// Bytes in newly allocated memory.
fn copied(alloc: Global, bytes: &[u8]) -> Result<Vec<u8>, TextError>
    ensures answer { AreBytes (Ok bytes.now) result }
{
    match Vec::from_slice(alloc, bytes) {
        Ok(bytes) => Ok(bytes),
        Err(error) => Err(TextError::Memory(error)),
    }
}

/// Writes the items in buffers of which each has twice the room of the one before, until the text fits.
#[inline(never)]
fn long_text(
    alloc: Global,
    moment: Moment,
    items: &[BorrowedFormatItem<'_>],
) -> Result<Vec<u8>, TextError>
    ensures answer { AreBytes (written_all moment (trees (item_trees items.now))) result }
{
    for doublings in 0..40u32 {
        if let Some(answer) = written_in(alloc, moment, items, 64 << doublings) {
            return answer;
        }
    }
    Err(TextError::Memory(AllocError))
}

/// Writes the items in a buffer of `room` bytes, or returns `None` if the text doesn't fit.
fn written_in(
    alloc: Global,
    moment: Moment,
    items: &[BorrowedFormatItem<'_>],
    room: usize,
) -> Option<Result<Vec<u8>, TextError>>
    ensures answer { IfSome result (AreBytes (written_all moment (trees (item_trees items.now)))) }
{
    let mut buffer = match vec![in alloc; 0u8; room] {
        Ok(buffer) => buffer,
        Err(error) => return Some(Err(TextError::Memory(error))),
    };
    match write_items(moment, items, &mut buffer) {
        Ok(at) => Some(copied(alloc, &buffer[at..])),
        Err(FormatError::Unshown(unshown)) => Some(Err(TextError::Unshown(unshown))),
        Err(FormatError::Room) => None,
    }
}

/// Writes what items show of the moment to an output, all at once. If a component shows nothing, or memory
/// runs out, nothing is written.
#[tactic(auto, using(crate::proofs::SentLemmas::bytes_sent))]
pub fn format_items_to<W: io::Write>(
    alloc: Global,
    moment: Moment,
    items: &[BorrowedFormatItem<'_>],
    output: &mut W,
) -> Result<(), OutputError>
    ensures { IsSent (written_all moment (trees (item_trees items.now))) (W.contents output.old)
        (W.contents output.new) result }
{
    match format_items(alloc, moment, items) {
        Ok(bytes) => match output.write_all(&bytes) {
            Ok(()) => Ok(()),
            Err(error) => Err(OutputError::Io(error)),
        },
        Err(TextError::Unshown(unshown)) => Err(OutputError::Unshown(unshown)),
        Err(TextError::Memory(error)) => Err(OutputError::Memory(error)),
    }
}
