//! Notes on descriptions that would be converted but have to be changed manually.

ghost use Rattle.std.specs.Prelude.{◌≡◌, ◌++◌, [], IfOk, OnOk, option_map, string_bytes};
ghost use Rattle.std.specs.List.{list_any};
ghost use Rattle.timefd_lint.specs.Manual as spec;

mod call;
mod literal;
mod reason;
mod text;

use crate::manual::literal::literal_of;
use crate::manual::reason::{reason, with_items};
use crate::manual::text::new_text;
use std::alloc::{AllocError, Global};
use timefd_lint_drawing::position_of;
use timefd_lint_drawing::shown::safe;
use timefd_lint_scan::{OwnCall, SourceDescription, descriptions_of};
use timefd_lint_sources::FIRST_LINE;
use timefd_lint_sources::rewriting::{Change, Outcome};
use timefd_parse::DescriptionVersion;

/// One line for each description of a source, with these calls of its project, that has to be changed manually: no number says its version, its
/// literal can't hold the converted text, or no conversion takes it. The line says where the description is,
/// why it stays, and what it would become. There is none where files are mended.
///
/// An `Err` says that memory ran out.
pub fn notes(
    alloc: Global,
    change: Change,
    name: &str,
    source: &str,
    calls: &[OwnCall],
    outcomes: &[Outcome],
) -> Result<String, AllocError>
    ensures { IfOk result (λ notes. spec.AreNotes change name.now source.now calls.now outcomes.now
        (string_bytes notes)) }
{
    let Some(version) = version_of(change) else {
        return Ok(String::new(alloc));
    };
    if !any_wants_hand(outcomes) {
        return Ok(String::new(alloc));
    }
    let descriptions = descriptions_of(alloc, source, calls)?;
    notes_on(
        alloc,
        change,
        version,
        name,
        source,
        &descriptions,
        outcomes,
    )
}

// The version that descriptions are converted to. `None` if the change converts nothing.
fn version_of(change: Change) -> Option<&'static str>
    ensures { option_map (λ version. version.now) result ≡ spec.version_of change }
{
    match change {
        Change::Mended(_) => None,
        Change::Least(DescriptionVersion::One) => Some("1"),
        Change::Least(DescriptionVersion::Two) => Some("2"),
        Change::Least(DescriptionVersion::Three) | Change::Normal => Some("3"),
    }
}

fn any_wants_hand(outcomes: &[Outcome]) -> bool
    ensures { result ≡ list_any spec.wants_hand outcomes.now }
{
    outcomes.iter().any(|it| wants_hand(*it))
}

fn wants_hand(outcome: Outcome) -> bool
    ensures { result ≡ spec.wants_hand outcome }
{
    match outcome {
        Outcome::ByHand | Outcome::NotALiteral | Outcome::WithItems => true,
        Outcome::PassedOver
        | Outcome::Same
        | Outcome::Rewritten
        | Outcome::Refused
        | Outcome::NotText => false,
    }
}

// The notes on descriptions with these outcomes, in order.
fn notes_on(
    alloc: Global,
    change: Change,
    version: &str,
    name: &str,
    source: &str,
    descriptions: &[SourceDescription],
    outcomes: &[Outcome],
) -> Result<String, AllocError>
    ensures { IfOk result (λ notes. spec.AreNotesOn change version.now name.now source.now
        descriptions.now outcomes.now [] (string_bytes notes)) }
{
    let mut notes = String::new(alloc);
    let count = descriptions.len().min(outcomes.len());
    'each: for index in 0..count {
        push_note_on(
            alloc,
            change,
            version,
            name,
            source,
            &descriptions[index],
            outcomes[index],
            &mut notes,
        )?;
    }
    Ok(notes)
}

// Appends the note on a description with this outcome, if there is one.
fn push_note_on(
    alloc: Global,
    change: Change,
    version: &str,
    name: &str,
    source: &str,
    description: &SourceDescription,
    outcome: Outcome,
    notes: &mut String,
) -> Result<(), AllocError>
    ensures { OnOk result (spec.AddsNote change version.now name.now source.now description.now outcome
        (string_bytes notes.old) (string_bytes notes.new)) }
{
    match outcome {
        Outcome::WithItems => {
            let why = with_items(alloc, version)?;
            push_note(alloc, name, source, description, &why, notes)
        }
        Outcome::ByHand | Outcome::NotALiteral => {
            push_reason(alloc, change, version, name, source, description, notes)
        }
        Outcome::PassedOver
        | Outcome::Same
        | Outcome::Rewritten
        | Outcome::Refused
        | Outcome::NotText => Ok(()),
    }
}

// Appends why a description stays, and what it would become. Nothing if it would become no text.
fn push_reason(
    alloc: Global,
    change: Change,
    version: &str,
    name: &str,
    source: &str,
    description: &SourceDescription,
    notes: &mut String,
) -> Result<(), AllocError>
    ensures { OnOk result (spec.AddsReason change version.now name.now source.now description.now
        (string_bytes notes.old) (string_bytes notes.new)) }
{
    let Some(new) = new_text(alloc, change, description)? else {
        return Ok(());
    };
    let literal = literal_of(alloc, source, description, &new)?;
    let literal = safe(alloc, &literal)?;
    let why = reason(alloc, version, source, description, &literal)?;
    push_note(alloc, name, source, description, &why, notes)
}

// Appends the line that says where a description is, and why it stays.
fn push_note(
    alloc: Global,
    name: &str,
    source: &str,
    description: &SourceDescription,
    why: &str,
    notes: &mut String,
) -> Result<(), AllocError>
    ensures { OnOk result (string_bytes notes.new
        ≡ string_bytes notes.old ++ spec.note name.now source.now description.now why.now) }
{
    let note = note(alloc, name, source, description, why)?;
    notes.push_str(&note)
}

// The line that says where a description is, and why it stays.
fn note(
    alloc: Global,
    name: &str,
    source: &str,
    description: &SourceDescription,
    why: &str,
) -> Result<String, AllocError>
    ensures { IfOk result (λ note. string_bytes note
        ≡ spec.note name.now source.now description.now why.now) }
{
    let position = position(alloc, name, source, description)?;
    format!(in alloc; "{position}: change manually: {why}\n")
}

// Where a literal begins.
fn position(
    alloc: Global,
    name: &str,
    source: &str,
    description: &SourceDescription,
) -> Result<String, AllocError>
    ensures { IfOk result (λ position. string_bytes position
        ≡ spec.position name.now source.now description.now) }
{
    let file = safe(alloc, name)?;
    let at = position_of(alloc, FIRST_LINE, source, description.piece.start)?;
    place(alloc, &file, at.line, at.column)
}

// A place in a file, as `FILE:LINE:COLUMN`.
fn place(alloc: Global, file: &str, line: u64, column: usize) -> Result<String, AllocError>
    ensures { IfOk result (λ place. string_bytes place ≡ spec.place file.now line column) }
{
    format!(in alloc; "{file}:{line}:{column}")
}
