//! The text of a moment, written on a line of its own.

ghost use Rattle.std.specs.Prelude.{◌≡◌, ◌≤◌, IfErr, IfOk, IfSome, Ok, length, take};
ghost use Rattle.timefd_format.specs.declared.frame.LineFrame.TheVariants as frames;
ghost use Rattle.timefd_format.specs.Frames.{IsFailure};
ghost use Rattle.timefd_format.specs.ReadBack.{AreLeavesOf};
ghost use Rattle.timefd_format.specs.Written.{EndsWith, EndsWithLine, IsLine, IsLineOf, IsSent, written_of};
ghost use Rattle.timefd_date_format.specs.Answers.{AreBytes};

use crate::frame::send;
use crate::outcome::RunError;
use std::alloc::{AllocError, Global};
use timefd_bin_streams::Sink;
use timefd_date_format::{
    FormatError, TextError, Unshown, append_leaves, append_literal, format, format_items,
    write_description, write_items, write_leaves,
};
use timefd_date_moment::Moment;
use timefd_lang_node_list::Leaf;
use timefd_parse::BorrowedOutput;

/// The text of the moment by the description, in memory of its own.
pub fn shown(
    alloc: Global,
    moment: Moment,
    description: &BorrowedOutput<'_>,
) -> Result<Vec<u8>, TextError>
    ensures { AreBytes (written_of moment description.now) result }
{
    match description {
        BorrowedOutput::Items(items) => format_items(alloc, moment, items),
        BorrowedOutput::Description(description) => {
            match format(alloc, moment, description.view()) {
                Ok(text) => Ok(text.into_bytes()),
                Err(error) => Err(error),
            }
        }
    }
}

/// The text of the moment, and a newline.
fn line_of(
    alloc: Global,
    moment: Moment,
    description: &BorrowedOutput<'_>,
) -> Result<Vec<u8>, TextError>
    ensures { IsLine (written_of moment description.now) result }
{
    let mut line = shown(alloc, moment, description)?;
    match line.push(b'\n') {
        Ok(()) => Ok(line),
        Err(_) => Err(TextError::Memory(AllocError)),
    }
}

/// Writes the text of the moment to the end of the room, and returns the index where it begins.
#[tactic(auto, using(crate::proofs::LineLemmas::ends, crate::proofs::LineLemmas::ends_by_leaves))]
pub fn text_in(
    moment: Moment,
    description: &BorrowedOutput<'_>,
    leaves: Option<&[Leaf<'_>]>,
    room: &mut [u8],
) -> Result<usize, FormatError>
    requires { AreLeavesOf description.now leaves }
    ensures { EndsWith (written_of moment description.now) room.new result }
{
    if let Some(leaves) = leaves {
        return write_leaves(moment, leaves, room);
    }
    match description {
        BorrowedOutput::Items(items) => write_items(moment, items, room),
        BorrowedOutput::Description(description) => {
            write_description(moment, description.view(), room)
        }
    }
}

/// Writes the text of the moment and a newline to the end of the room, and returns the index where it
/// begins.
#[tactic(auto, using(crate::proofs::LineLemmas::line_ends))]
fn line_in(
    moment: Moment,
    description: &BorrowedOutput<'_>,
    leaves: Option<&[Leaf<'_>]>,
    room: &mut [u8],
) -> Result<usize, FormatError>
    requires { AreLeavesOf description.now leaves }
    ensures { EndsWithLine (written_of moment description.now) room.new result }
{
    match room.split_last_mut() {
        Some((newline, front)) => {
            *newline = b'\n';
            text_in(moment, description, leaves, front)
        }
        None => Err(FormatError::Room),
    }
}

/// Writes the line of a moment. `Some` is the component that can't show the moment; nothing is written
/// then. If the room is too small, memory is allocated for the line.
#[tactic(auto, using(crate::proofs::LineLemmas::line_sent))]
pub fn write_line<W: Sink>(
    alloc: Global,
    moment: Moment,
    description: &BorrowedOutput<'_>,
    leaves: Option<&[Leaf<'_>]>,
    room: &mut [u8],
    output: &mut W,
) -> Result<Option<Unshown>, RunError>
    requires { AreLeavesOf description.now leaves }
    ensures sent { IfOk result (IsSent frames.Line (written_of moment description.now)
        (W.contents output.old) (W.contents output.new)) }
    ensures error { IfErr result (IsFailure (W.has_failed output.new)) }
{
    if let Some(end) = line_in_front(&moment, description, leaves, room) {
        send(&room[..end], output)?;
        return Ok(None);
    }
    match line_in(moment, description, leaves, room) {
        Ok(at) => {
            send(&room[at..], output)?;
            Ok(None)
        }
        Err(FormatError::Unshown(unshown)) => Ok(Some(unshown)),
        Err(FormatError::Room) => write_long_line(alloc, moment, description, output),
    }
}

/// Writes the text of the moment by its leaves to the front of the room, and returns the index where it
/// ends. This is the fast way. `None` says only that it can't be taken, and nothing about the moment.
#[inline(never)]
#[tactic(auto, using(crate::proofs::FrontLemmas::text_put, crate::proofs::FrontLemmas::text_within))]
pub fn text_in_front(
    moment: &Moment,
    description: &BorrowedOutput<'_>,
    leaves: Option<&[Leaf<'_>]>,
    room: &mut [u8],
) -> Option<usize>
    requires { AreLeavesOf description.now leaves }
    ensures within { IfSome result (λ end. end ≤ length room.new) }
    ensures text { IfSome result (λ end. written_of moment.now description.now ≡ Ok (take end room.new)) }
{
    append_leaves(moment, leaves?, room, 0)
}

/// Writes the text of the moment and a newline to the front of the room, and returns the index after the
/// newline. `None` says only that this fast way can't be taken, and nothing about the moment: so it is
/// where fewer than 32 bytes are left after the text.
#[inline(never)]
#[tactic(auto, using(crate::proofs::FrontLemmas::line_put, crate::proofs::FrontLemmas::line_within))]
fn line_in_front(
    moment: &Moment,
    description: &BorrowedOutput<'_>,
    leaves: Option<&[Leaf<'_>]>,
    room: &mut [u8],
) -> Option<usize>
    requires { AreLeavesOf description.now leaves }
    ensures within { IfSome result (λ end. end ≤ length room.new) }
    ensures line { IfSome result (λ end. IsLineOf (written_of moment.now description.now)
        (take end room.new)) }
{
    let end = append_leaves(moment, leaves?, room, 0)?;
    if room.len() - end < 32 {
        return None;
    }
    append_literal(b"\n", room, end)
}

// Writes a line that is too long for the room: it gets memory of its own.
fn write_long_line<W: Sink>(
    alloc: Global,
    moment: Moment,
    description: &BorrowedOutput<'_>,
    output: &mut W,
) -> Result<Option<Unshown>, RunError>
    ensures sent { IfOk result (IsSent frames.Line (written_of moment description.now)
        (W.contents output.old) (W.contents output.new)) }
    ensures error { IfErr result (IsFailure (W.has_failed output.new)) }
{
    match line_of(alloc, moment, description) {
        Ok(line) => {
            send(&line, output)?;
            Ok(None)
        }
        Err(TextError::Unshown(unshown)) => Ok(Some(unshown)),
        Err(TextError::Memory(_)) => Err(RunError::Memory),
    }
}
