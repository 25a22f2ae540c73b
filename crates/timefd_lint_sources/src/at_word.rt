//! A message on a word in a comment.

ghost use Rattle.std.specs.Prelude.{◌≡◌, IfOk};
ghost use Rattle.timefd_lint_drawing.specs.Counted.{IsCounted};
ghost use Rattle.timefd_lint_drawing.specs.Findings.{located_of};
ghost use Rattle.timefd_lint_sources.specs.AtWord as spec;

use crate::reported::{FIRST_LINE, SourceText};
use std::alloc::{AllocError, Global};
use timefd_lint_diagnosis::Span;
use timefd_lint_drawing::{
    Counter, FindingKind, FindingLocation, FindingSeverity, FindingWords, Format, Style, drawn_at,
    line_of, reported_position_from,
};

/// The message on these bytes of a source, at the position of the first one. `from` says how far lines are counted. An
/// `Err` says that memory ran out.
pub fn message_at(
    alloc: Global,
    style: Style,
    source: SourceText<'_>,
    from: Counter,
    span: Span,
    code: &str,
    sentence: &str,
) -> Result<Vec<u8>, AllocError>
    requires { IsCounted 1 source.text.now from }
    ensures { IfOk result (λ message. message.items
        ≡ spec.message style source.entry span code.now sentence.now) }
{
    let location = located(alloc, style.format, source, from, span)?;
    let finding = FindingWords {
        severity: FindingSeverity::Error,
        kind: FindingKind::Fault,
        code,
        message: sentence,
        help: None,
        replacement: None,
    };
    drawn_at(alloc, style, location, finding)
}

// Where the word is.
fn located<'a>(
    alloc: Global,
    format: Format,
    source: SourceText<'a>,
    from: Counter,
    span: Span,
) -> Result<FindingLocation<'a, 'a>, AllocError>
    requires { IsCounted 1 source.text.now from }
    ensures { IfOk result (λ location. located_of location ≡ spec.located format source.entry span) }
{
    let start = reported_position_from(alloc, format, FIRST_LINE, source.text, from, span.start)?;
    Ok(FindingLocation {
        file: source.file,
        start,
        end: None,
        bytes: None,
        line: Some(line_of(source.text, span)),
    })
}
