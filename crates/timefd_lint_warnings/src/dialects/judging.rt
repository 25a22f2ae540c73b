//! What the linter says of a format of another language.

ghost use Rattle.std.specs.Prelude.{◌≡◌, IfOk};
ghost use Rattle.timefd_lint_drawing.specs.Counted.{IsCounted};
ghost use Rattle.timefd_lint_drawing.specs.Findings.{said_of};
ghost use Rattle.timefd_lint_warnings.specs.Dialects.Judging as spec;

use std::alloc::{AllocError, Global};
use timefd_lang_dialect::{Found, RefusedPart};
use timefd_lint_diagnosis::Span;
use timefd_lint_drawing::{
    Counter, FindingKind, FindingSeverity, FindingWords, Origin, Style, drawn_at, part_at, part_end,
};

/// The message on a trap that is in this part of the text. `from` says how far the lines of the text are counted. An
/// `Err` says that memory ran out.
pub fn trap_drawn(
    alloc: Global,
    style: Style,
    origin: Origin<'_>,
    text: &str,
    from: Counter,
    found: Found,
) -> Result<Vec<u8>, AllocError>
    requires { IsCounted origin.line text.now from }
    ensures { IfOk result (λ message. message.items
        ≡ spec.trap_drawn style origin.entry text.now found) }
{
    let finding = FindingWords {
        severity: FindingSeverity::Warning,
        kind: FindingKind::Labelled,
        code: found.trap.name(),
        message: found.trap.sentence(),
        help: Some(found.trap.cure()),
        replacement: None,
    };
    let span = Span {
        start: found.start,
        end: found.end,
    };
    drawn(alloc, style, origin, text, from, span, finding)
}

/// The message on a part that has no text of version 3, at this position of the text. Where the part ends isn't known, so
/// only its start is reported. `from` says how far the lines of the text are counted. An `Err` says that memory ran out.
pub fn refusal_drawn(
    alloc: Global,
    style: Style,
    origin: Origin<'_>,
    text: &str,
    from: Counter,
    refusal: RefusedPart,
) -> Result<Vec<u8>, AllocError>
    requires { IsCounted origin.line text.now from }
    ensures { IfOk result (λ message. message.items
        ≡ spec.refusal_drawn style origin.entry text.now refusal.reason refusal.index) }
{
    let finding = FindingWords {
        severity: FindingSeverity::Error,
        kind: FindingKind::Labelled,
        code: refusal.reason.name(),
        message: refusal.reason.sentence(),
        help: Some(refusal.reason.cure()),
        replacement: None,
    };
    let span = Span {
        start: refusal.index,
        end: refusal.index,
    };
    drawn(alloc, style, origin, text, from, span, finding)
}

// What is found in a part of a text, in the form that is asked for.
fn drawn(
    alloc: Global,
    style: Style,
    origin: Origin<'_>,
    text: &str,
    from: Counter,
    span: Span,
    finding: FindingWords<'_, '_>,
) -> Result<Vec<u8>, AllocError>
    requires { IsCounted origin.line text.now from }
    ensures { IfOk result (λ message. message.items
        ≡ spec.drawn style origin.entry text.now span (said_of finding.entry)) }
{
    let end = part_end(alloc, style.format, origin, text, from, span.end)?;
    let location = part_at(alloc, end, style.format, origin, text, from, span)?;
    drawn_at(alloc, style, location, finding)
}
