//! One text that should be a moment, and what becomes of it.

ghost use Rattle.std.specs.Prelude.{◌≡◌, false, IfErr, IfOk, OnOk};
ghost use Rattle.timefd_format.specs.Frames.{EndsOnlyAsAsked, IsFailure};
ghost use Rattle.timefd_format.specs.LineReports.{ReportsMoment, ReportsOutcome, ReportsWord};
ghost use Rattle.timefd_format.specs.ReadBack.{AreLeavesOf};
ghost use Rattle.timefd_format.specs.Sources.{AreLeavesIn};
ghost use Rattle.timefd_format.specs.Written.{IsOne, IsOneOfMoment, IsSent, IsTallyOf, written_of};

use crate::field::write_field;
use crate::frame::{LineFrame, MomentText, replace};
use crate::line::write_line;
use crate::message::{NOT_TEXT, unread_message, unshown_message};
use crate::otherwise::Otherwise;
use crate::outcome::{RunError, WordOutcome, WordTally};
use crate::report::report;
use crate::source::{MomentSource, moment_in};
use std::alloc::Global;
use std::str;
use timefd_bin_streams::Sink;
use timefd_date_format::Unshown;
use timefd_date_moment::Moment;
use timefd_lang_node_list::Leaf;
use timefd_parse::BorrowedOutput;

/// Takes one text and returns what it adds to the tally. Writes its moment; or reports why there is none,
/// with the number of its line, and writes what `--else` asks for instead. The leaves are those of the source
/// and of the description. The room should have space for the written text; if it is too small, memory is
/// allocated.
///
/// `Err(RunError::Refused)` says that there is no moment, and that `--else` asks for the end of the run.
/// Other errors say that memory ran out or that the output failed.
pub fn tally_one<W: Sink, E: Sink>(
    alloc: Global,
    source: &MomentSource<'_>,
    source_leaves: Option<&[Leaf<'_>]>,
    description: &BorrowedOutput<'_>,
    leaves: Option<&[Leaf<'_>]>,
    otherwise: Otherwise,
    entry: MomentText<'_>,
    room: &mut [u8],
    output: &mut W,
    errors: &mut E,
) -> Result<WordTally, RunError>
    requires source { AreLeavesIn source.now source_leaves }
    requires written { AreLeavesOf description.now leaves }
    ensures one { IfOk result (IsTallyOf otherwise source.now description.now entry.entry.frame entry.entry.text.now
        (W.contents output.old) (W.contents output.new)) }
    ensures read { IfOk result (λ tally. tally.has_failed ≡ false) }
    ensures reports { OnOk result (ReportsWord source.now description.now entry.entry.line entry.entry.text.now
        (E.contents errors.old) (E.contents errors.new) (E.has_failed errors.old) (E.has_failed errors.new)) }
    ensures ends { IfErr result (EndsOnlyAsAsked otherwise (W.has_failed output.new)) }
{
    let outcome = write_one(
        alloc,
        source,
        source_leaves,
        description,
        leaves,
        otherwise,
        entry,
        room,
        output,
        errors,
    )?;
    Ok(WordTally::of(outcome))
}

// Writes the moment that a text names or shows, or reports why there is none.
#[inline(always)]
#[tactic(auto, using(crate::proofs::LineReportLemmas::unread_reported))]
fn write_one<W: Sink, E: Sink>(
    alloc: Global,
    source: &MomentSource<'_>,
    source_leaves: Option<&[Leaf<'_>]>,
    description: &BorrowedOutput<'_>,
    leaves: Option<&[Leaf<'_>]>,
    otherwise: Otherwise,
    entry: MomentText<'_>,
    room: &mut [u8],
    output: &mut W,
    errors: &mut E,
) -> Result<WordOutcome, RunError>
    requires source { AreLeavesIn source.now source_leaves }
    requires written { AreLeavesOf description.now leaves }
    ensures one { IfOk result (IsOne otherwise source.now description.now entry.entry.frame entry.entry.text.now
        (W.contents output.old) (W.contents output.new)) }
    ensures reports { IfOk result (λ outcome. ReportsOutcome source.now entry.entry.line entry.entry.text.now outcome
        (E.contents errors.old) (E.contents errors.new) (E.has_failed errors.old) (E.has_failed errors.new)) }
    ensures ends { IfErr result (EndsOnlyAsAsked otherwise (W.has_failed output.new)) }
{
    let Ok(text) = str::from_utf8(entry.text) else {
        report(alloc, errors, NOT_TEXT.as_bytes())?;
        replace(otherwise, entry, output)?;
        return Ok(WordOutcome::NotText);
    };
    match moment_in(source, source_leaves, description, text) {
        Ok(moment) => write_moment(
            alloc,
            moment,
            description,
            leaves,
            otherwise,
            entry,
            text,
            room,
            output,
            errors,
        ),
        Err(error) => {
            let message = unread_message(alloc, source, entry.line, text, error)?;
            report(alloc, errors, message.as_bytes())?;
            replace(otherwise, entry, output)?;
            Ok(WordOutcome::Unread(error))
        }
    }
}

// Writes the moment of a text, or reports which component can't show it.
#[tactic(auto, using(crate::proofs::LineReportLemmas::nothing_reported, crate::proofs::LineReportLemmas::unshown_reported))]
fn write_moment<W: Sink, E: Sink>(
    alloc: Global,
    moment: Moment,
    description: &BorrowedOutput<'_>,
    leaves: Option<&[Leaf<'_>]>,
    otherwise: Otherwise,
    entry: MomentText<'_>,
    text: &str,
    room: &mut [u8],
    output: &mut W,
    errors: &mut E,
) -> Result<WordOutcome, RunError>
    requires { AreLeavesOf description.now leaves }
    ensures one { IfOk result (IsOneOfMoment otherwise entry.entry.frame entry.entry.text.now moment description.now
        (W.contents output.old) (W.contents output.new)) }
    ensures reports { IfOk result (λ outcome. ReportsMoment text.now outcome
        (E.contents errors.old) (E.contents errors.new) (E.has_failed errors.old) (E.has_failed errors.new)) }
    ensures ends { IfErr result (EndsOnlyAsAsked otherwise (W.has_failed output.new)) }
{
    match write_in(
        alloc,
        moment,
        description,
        leaves,
        entry.frame,
        room,
        output,
    )? {
        None => Ok(WordOutcome::Written(moment)),
        Some(unshown) => {
            let message = unshown_message(alloc, text, unshown)?;
            report(alloc, errors, message.as_bytes())?;
            replace(otherwise, entry, output)?;
            Ok(WordOutcome::Unshown(moment, unshown))
        }
    }
}

// Writes a moment where its text belongs. `Some` is the component that can't show it; nothing is written
// then.
fn write_in<W: Sink>(
    alloc: Global,
    moment: Moment,
    description: &BorrowedOutput<'_>,
    leaves: Option<&[Leaf<'_>]>,
    frame: LineFrame<'_>,
    room: &mut [u8],
    output: &mut W,
) -> Result<Option<Unshown>, RunError>
    requires { AreLeavesOf description.now leaves }
    ensures sent { IfOk result (IsSent frame.entry (written_of moment description.now)
        (W.contents output.old) (W.contents output.new)) }
    ensures error { IfErr result (IsFailure (W.has_failed output.new)) }
{
    match frame {
        LineFrame::Line => write_line(alloc, moment, description, leaves, room, output),
        LineFrame::Field(cell) => {
            write_field(alloc, moment, description, leaves, cell, room, output)
        }
    }
}
