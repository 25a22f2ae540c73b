//! A byte-order mark at the front of a file.

ghost use Rattle.std.specs.Prelude.{◌≡◌, ◌&&◌, IfErr, IfOk, OnOk};
ghost use Rattle.timefd_lint.specs.Causes.{IsCausedBy};
ghost use Rattle.timefd_lint.specs.Marks.{Notes, has_mark};
ghost use Rattle.timefd_lint.specs.Marks as spec;

use crate::line::{LintError, write};
use crate::options::RunOptions;
use std::alloc::{AllocError, Global};
use timefd_bin_streams::Sink;
use timefd_lint_drawing::{FindingSeverity, Origin, Style, note_as};

// The code of the note.
const CODE: &str = "byte-order-mark";

const SENTENCE: &str =
    "a byte-order mark is a literal of the first description, and hides a comment mark";

fn begins_with_mark(text: &[u8]) -> bool
    ensures { result ≡ has_mark text.now }
{
    text.starts_with(b"\xef\xbb\xbf")
}

/// Notes a byte-order mark at the front of a text, if the text is the first of its file.
#[tactic(auto, using(crate::proofs::MarkLemmas::noted, crate::proofs::MarkLemmas::not_noted))]
pub fn note_mark<W: Sink>(
    alloc: Global,
    options: RunOptions<'_>,
    origin: Origin<'_>,
    is_first: bool,
    text: &[u8],
    writer: &mut W,
) -> Result<(), LintError>
    ensures noted { OnOk result (Notes (is_first && has_mark text.now) options.entry.reporting.style
        origin.entry (W.contents writer.old) (W.contents writer.new)) }
    ensures unwritten { IfErr result (IsCausedBy (W.has_failed writer.new)) }
{
    if is_first && begins_with_mark(text) {
        let message = warning(alloc, options.reporting.style, origin)?;
        write(writer, &message)?;
    }
    Ok(())
}

// The note, in the chosen format.
fn warning(alloc: Global, style: Style, origin: Origin<'_>) -> Result<Vec<u8>, AllocError>
    ensures { IfOk result (λ message. message.items ≡ spec.mark_note style origin.entry) }
{
    note_as(
        alloc,
        FindingSeverity::Warning,
        style,
        origin,
        CODE,
        SENTENCE,
    )
}
