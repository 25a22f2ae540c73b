//! What the linter reports about one warning.

ghost use Rattle.std.specs.Prelude.{◌≡◌, IfOk, string_bytes};
ghost use Rattle.timefd_lint_drawing.specs.Findings.{located_of};
ghost use Rattle.timefd_lint_warnings.specs.Messages as spec;

use crate::hint::help_on;
use std::alloc::{AllocError, Global};
use timefd_lang_warnings::{Level, Warning};
use timefd_lint_diagnosis::Span;
use timefd_lint_drawing::shown::columns;
use timefd_lint_drawing::{
    FindingKind, FindingLocation, FindingSeverity, FindingWords, Format, Line, Origin, Position,
    Style, drawn_at, line_of,
};

/// The message about a warning on a text that begins at this column of its line, in the requested
/// format. The text is the part `span` of `whole`. An `Err` says that memory ran out.
pub fn message(
    alloc: Global,
    style: Style,
    origin: Origin<'_>,
    whole: &str,
    span: Span,
    text: &str,
    column: usize,
    level: Level,
    warning: Warning,
) -> Result<Vec<u8>, AllocError>
    ensures { IfOk result (λ reported. reported.items
        ≡ spec.message style origin.entry whole.now span text.now column level warning) }
{
    let help = help_on(alloc, warning, text)?;
    let location = located(alloc, style.format, origin, whole, span, column)?;
    let finding = FindingWords {
        severity: severity(level),
        kind: FindingKind::Labelled,
        code: warning.name(),
        message: warning.sentence(),
        help: Some(&help),
        replacement: None,
    };
    drawn_at(alloc, style, location, finding)
}

// The severity of a warning with this level.
fn severity(level: Level) -> FindingSeverity
    ensures { result ≡ spec.severity level }
{
    match level {
        Level::Allowed => FindingSeverity::Note,
        Level::Warned => FindingSeverity::Warning,
        Level::Denied => FindingSeverity::Error,
    }
}

// Where a warning is: it is about the whole text, and so has no bytes.
fn located<'f, 't>(
    alloc: Global,
    format: Format,
    origin: Origin<'f>,
    whole: &'t str,
    span: Span,
    column: usize,
) -> Result<FindingLocation<'f, 't>, AllocError>
    ensures { IfOk result (λ location. located_of location
        ≡ spec.located format origin.entry whole.entry.now span column) }
{
    let line = line_of(whole, span);
    Ok(FindingLocation {
        file: origin.file,
        start: Position {
            line: origin.line,
            column,
        },
        end: end_of(alloc, format, origin.line, column, line)?,
        bytes: None,
        line: Some(line),
    })
}

// The position of what follows the text in its first line, if the form has it.
fn end_of(
    alloc: Global,
    format: Format,
    number: u64,
    column: usize,
    line: Line<'_>,
) -> Result<Option<Position>, AllocError>
    ensures { IfOk result (λ end. end ≡ spec.end_of format number column line.entry.at.now) }
{
    if !format.shows_part_end() {
        return Ok(None);
    }
    Ok(Some(Position {
        line: number,
        column: column.saturating_add(columns(alloc, line.at)?),
    }))
}
