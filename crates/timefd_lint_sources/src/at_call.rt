//! The note at a call that takes a description by name.

ghost use Rattle.std.specs.Prelude.{◌≡◌, IfOk};
ghost use Rattle.timefd_lint_drawing.specs.Counted.{IsCounted};
ghost use Rattle.timefd_lint_drawing.specs.Findings.{located_of};
ghost use Rattle.timefd_lint_sources.specs.Calls as spec;

use crate::reported::{FIRST_LINE, SourceText};
use std::alloc::{AllocError, Global};
use timefd_lint_drawing::{
    Counter, FindingKind, FindingLocation, FindingSeverity, FindingWords, Format, Style, drawn_at,
    reported_position_from,
};
use timefd_lint_scan::SourceDescription;

/// The code of such a note.
const CODE: &str = "call";

const MESSAGE: &str = "this call takes the text by its name";

/// The note at the call that takes a description by name. It is empty if the description is in the call
/// itself, and in forms where everything that is reported has the code of an error or a warning. An `Err` says
/// that memory ran out.
pub fn call_note(
    alloc: Global,
    style: Style,
    source: SourceText<'_>,
    from: Counter,
    description: &SourceDescription,
) -> Result<Vec<u8>, AllocError>
    requires { IsCounted 1 source.text.now from }
    ensures { IfOk result (λ note. note.items ≡ spec.call_note style source.entry description.now) }
{
    match description.call {
        Some(at) => note_at(alloc, style, source, from, at),
        None => Ok(Vec::new(alloc)),
    }
}

fn note_at(
    alloc: Global,
    style: Style,
    source: SourceText<'_>,
    from: Counter,
    at: usize,
) -> Result<Vec<u8>, AllocError>
    requires { IsCounted 1 source.text.now from }
    ensures { IfOk result (λ note. note.items ≡ spec.note_at style source.entry at) }
{
    if !style.format.shows_asides() {
        return Ok(Vec::new(alloc));
    }
    shown_note(alloc, style, source, from, at)
}

fn shown_note(
    alloc: Global,
    style: Style,
    source: SourceText<'_>,
    from: Counter,
    at: usize,
) -> Result<Vec<u8>, AllocError>
    requires { IsCounted 1 source.text.now from }
    ensures { IfOk result (λ note. note.items ≡ spec.shown_note style source.entry at) }
{
    let location = located(alloc, style.format, source, from, at)?;
    let finding = FindingWords {
        severity: FindingSeverity::Note,
        kind: FindingKind::Aside,
        code: CODE,
        message: MESSAGE,
        help: None,
        replacement: None,
    };
    drawn_at(alloc, style, location, finding)
}

// Where the name is.
fn located<'a>(
    alloc: Global,
    format: Format,
    source: SourceText<'a>,
    from: Counter,
    at: usize,
) -> Result<FindingLocation<'a, 'a>, AllocError>
    requires { IsCounted 1 source.text.now from }
    ensures { IfOk result (λ location. located_of location ≡ spec.located format source.entry at) }
{
    let start = reported_position_from(alloc, format, FIRST_LINE, source.text, from, at)?;
    Ok(FindingLocation {
        file: source.file,
        start,
        end: None,
        bytes: None,
        line: None,
    })
}
