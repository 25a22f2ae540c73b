//! What is written around a moment's text, and what is written instead of it.

ghost use Rattle.std.specs.Prelude.{◌≡◌, ◌++◌, IfErr, OnOk};
ghost use Rattle.std.specs.Io.KnownBytes.{Appends};
ghost use Rattle.timefd_format.specs.declared.otherwise.Otherwise.TheVariants as otherwise;
ghost use Rattle.timefd_format.specs.declared.frame.LineFrame.TheVariants as frames;
ghost use Rattle.timefd_format.specs.Frames as spec;
ghost use Rattle.timefd_format.specs.Frames.{EndsOnlyAsAsked, IsWriteFailure, Replaces};

use crate::otherwise::Otherwise;
use crate::outcome::RunError;
use timefd_bin_streams::{Failed, Sink};

/// A field of a record of comma-separated values, byte for byte, with what is before and after it.
#[derive(Clone, Copy)]
pub struct Cell<'a> {
    /// The fields before it, with their commas.
    pub front: &'a [u8],
    /// The field, with its quotes if it has some.
    pub field: &'a [u8],
    /// The comma after it and all that follows, with the end of the line.
    pub after: &'a [u8],
}

/// Where the text of a moment is written.
#[derive(Clone, Copy)]
pub enum LineFrame<'a> {
    /// On a line of its own.
    Line,
    /// Instead of a field.
    Field(Cell<'a>),
}

/// A text that should be a moment, and where the moment is written.
#[derive(Clone, Copy)]
pub struct MomentText<'a> {
    /// The number of its line, if the text came from a line.
    pub line: Option<u64>,
    /// The text.
    pub text: &'a [u8],
    /// Where the moment is written.
    pub frame: LineFrame<'a>,
}

/// Writes some bytes.
pub fn send<W: Sink>(bytes: &[u8], output: &mut W) -> Result<(), RunError>
    ensures sent { OnOk result (Appends (W.contents output.old) (W.contents output.new) bytes.now) }
    ensures error { IfErr result (IsWriteFailure (W.has_failed output.new)) }
{
    match output.put_all(bytes) {
        Ok(()) => Ok(()),
        Err(Failed) => Err(RunError::Write),
    }
}

// Writes these pieces, one after another.
#[tactic(auto, using(crate::proofs::FrameLemmas::in_turn))]
fn send_both<W: Sink>(first: &[u8], second: &[u8], output: &mut W) -> Result<(), RunError>
    ensures sent { OnOk result (Appends (W.contents output.old) (W.contents output.new)
        (first.now ++ second.now)) }
    ensures error { IfErr result (IsWriteFailure (W.has_failed output.new)) }
{
    send(first, output)?;
    send(second, output)
}

/// Writes what the option `--else` asks for instead of a moment. `Err(RunError::Refused)` says that it
/// asks for the end of the run; nothing is written then.
pub fn replace<W: Sink>(
    otherwise: Otherwise,
    entry: MomentText<'_>,
    output: &mut W,
) -> Result<(), RunError>
    ensures replaced { OnOk result (Replaces otherwise entry.entry.frame entry.entry.text.now (W.contents output.old)
        (W.contents output.new)) }
    ensures ends { IfErr result (EndsOnlyAsAsked otherwise (W.has_failed output.new)) }
{
    match otherwise {
        Otherwise::Nothing => Ok(()),
        Otherwise::Keep => keep(entry, output),
        Otherwise::Empty => empty(entry.frame, output),
        Otherwise::Fail => Err(RunError::Refused),
    }
}

// Writes the text as it was read.
fn keep<W: Sink>(entry: MomentText<'_>, output: &mut W) -> Result<(), RunError>
    ensures sent { OnOk result (Appends (W.contents output.old) (W.contents output.new)
        (spec.kept entry.entry.frame entry.entry.text.now)) }
    ensures error { IfErr result (IsWriteFailure (W.has_failed output.new)) }
{
    match entry.frame {
        LineFrame::Line => send_both(entry.text, b"\n", output),
        LineFrame::Field(cell) => send_around(cell, cell.field, output),
    }
}

// Writes an empty line, or a record whose field is empty.
fn empty<W: Sink>(frame: LineFrame<'_>, output: &mut W) -> Result<(), RunError>
    ensures sent { OnOk result (Appends (W.contents output.old) (W.contents output.new)
        (spec.emptied frame.entry)) }
    ensures error { IfErr result (IsWriteFailure (W.has_failed output.new)) }
{
    match frame {
        LineFrame::Line => send(b"\n", output),
        LineFrame::Field(cell) => send_both(cell.front, cell.after, output),
    }
}

// Writes a record with these bytes as its field.
#[tactic(auto, using(crate::proofs::FrameLemmas::in_turn))]
fn send_around<W: Sink>(cell: Cell<'_>, field: &[u8], output: &mut W) -> Result<(), RunError>
    ensures sent { OnOk result (Appends (W.contents output.old) (W.contents output.new)
        (cell.entry.front.now ++ (field.now ++ cell.entry.after.now))) }
    ensures error { IfErr result (IsWriteFailure (W.has_failed output.new)) }
{
    send(cell.front, output)?;
    send_both(field, cell.after, output)
}
