//! Notes on values of keys that are rewritten.

ghost use Rattle.std.specs.Prelude.{◌≡◌, ◌++◌, [], IfOk, OnOk, string_bytes};
ghost use Rattle.timefd_lint.specs.ValueNotes as spec;

use crate::limited::push_text_note;
use std::alloc::{AllocError, Global};
use std::str;
use timefd_lint_drawing::shown::safe;
use timefd_lint_drawing::{Position, position_of};
use timefd_lint_rewrite::LineChange;
use timefd_lint_scan::SourceDescription;
use timefd_lint_sources::FIRST_LINE;
use timefd_lint_sources::rewriting::{Change, Outcome, value_change};

/// A line for each of these values of a file whose new text no string can hold: it says where the value is. An `Err` says
/// that memory ran out.
#[tactic(auto, using(crate::proofs::ValueNoteLemmas::all_said))]
pub fn unwritable(
    alloc: Global,
    file: &str,
    source: &str,
    values: &[SourceDescription],
    outcomes: &[Outcome],
) -> Result<String, AllocError>
    ensures { IfOk result (λ notes. string_bytes notes
        ≡ spec.unwritable file.now source.now values.now outcomes.now) }
{
    let file = safe(alloc, file)?;
    let mut notes = String::new(alloc);
    'values: for at in 0..values.len().min(outcomes.len()) {
        push_unwritable(alloc, &file, source, &values[at], outcomes[at], &mut notes)?;
    }
    Ok(notes)
}

// Appends the note on a value, if its new text can't be written.
fn push_unwritable(
    alloc: Global,
    file: &str,
    source: &str,
    value: &SourceDescription,
    outcome: Outcome,
    notes: &mut String,
) -> Result<(), AllocError>
    ensures { OnOk result (string_bytes notes.new
        ≡ string_bytes notes.old ++ spec.note_if outcome file.now source.now value.now.piece.start) }
{
    if is_unwritable(outcome) {
        notes.push_str(&note(alloc, file, source, value.piece.start)?)?;
    }
    Ok(())
}

fn is_unwritable(outcome: Outcome) -> bool
    ensures { result ≡ spec.is_unwritable outcome }
{
    match outcome {
        Outcome::NotALiteral => true,
        Outcome::PassedOver
        | Outcome::Same
        | Outcome::Rewritten
        | Outcome::Refused
        | Outcome::WithItems
        | Outcome::NotText
        | Outcome::ByHand => false,
    }
}

fn note(alloc: Global, file: &str, source: &str, start: usize) -> Result<String, AllocError>
    ensures { IfOk result (λ note. string_bytes note ≡ spec.note file.now source.now start) }
{
    let Position { line, column } = position_of(alloc, FIRST_LINE, source, start)?;
    format!(in alloc; "{file}:{line}:{column}: change manually: no string can hold its new text\n")
}

/// A line for each of these values of a file whose format and text of version 3 write the same for some moments alone: it
/// says for which. An `Err` says that memory ran out.
#[tactic(auto, using(crate::proofs::ValueNoteLemmas::none_yet, crate::proofs::ValueNoteLemmas::one_more, crate::proofs::ValueNoteLemmas::at_last))]
pub fn limits_of_values(
    alloc: Global,
    change: Change,
    file: &str,
    source: &str,
    values: &[SourceDescription],
) -> Result<String, AllocError>
    ensures { IfOk result (λ notes. spec.AreLimits change file.now source.now values.now [] (string_bytes notes)) }
{
    let file = safe(alloc, file)?;
    let mut notes = String::new(alloc);
    for value in values {
        push_limits_of(alloc, change, &file, source, value, &mut notes)?;
    }
    Ok(notes)
}

// Appends the note on the limits of a value, if there is one.
#[tactic(auto, using(crate::proofs::ValueNoteLemmas::of_other, crate::proofs::ValueNoteLemmas::of_no_text, crate::proofs::ValueNoteLemmas::of_own, crate::proofs::ValueNoteLemmas::of_none))]
fn push_limits_of(
    alloc: Global,
    change: Change,
    file: &str,
    source: &str,
    value: &SourceDescription,
    notes: &mut String,
) -> Result<(), AllocError>
    ensures { OnOk result (spec.AddsLimits change file.now source.now value.now (string_bytes notes.old)
        (string_bytes notes.new)) }
{
    match value_change(change, value.dialect) {
        Some(LineChange::Other(dialect)) => {
            let Ok(text) = str::from_utf8(value.unescaped.text.as_slice()) else {
                return Ok(());
            };
            let line = position_of(alloc, FIRST_LINE, source, value.piece.start)?.line;
            push_text_note(alloc, dialect, file, line, text, notes)
        }
        Some(LineChange::Own(_layout)) => Ok(()),
        None => Ok(()),
    }
}
