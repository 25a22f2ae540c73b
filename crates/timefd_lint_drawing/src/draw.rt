//! Writes diagnostics in the form that is asked for.

ghost use Rattle.std.specs.Prelude.{◌≡◌, ◌≢◌, ◌++◌, [], Some, flat_map, IfOk, OnOk, option_map, string_bytes};
ghost use Rattle.timefd_lint_drawing.specs.Counted.{IsCounted};
ghost use Rattle.timefd_lint_drawing.specs.Drawing as spec;
ghost use Rattle.timefd_lint_drawing.specs.Findings.{located_of, said_of};

use crate::counter::{Counter, none_counted};
use crate::finding::{FindingKind, FindingLocation, FindingWords, is_further};
use crate::form::{Format, SentenceStyle, drawn_at};
use crate::help_text::help_text;
use crate::position::{Origin, Position, line_of, reported_position_from};
use crate::sentence::{reported_sentence, shown_sentence};
use crate::severity::FindingSeverity;
use std::alloc::{AllocError, Global};
use timefd_lint_diagnosis::{Diagnostic, Span, code_of};

/// How diagnostics look.
#[derive(Clone, Copy)]
pub struct Style {
    /// How each diagnostic is written.
    pub format: Format,
    /// Whether drawings are coloured.
    pub is_colored: bool,
}

/// The diagnostic of a text, in the form that is asked for. An `Err` says that memory ran out.
pub fn drawn(
    alloc: Global,
    style: Style,
    origin: Origin<'_>,
    text: &str,
    diagnostic: &Diagnostic,
) -> Result<Vec<u8>, AllocError>
    ensures exact { IfOk result (λ message. message.items
        ≡ spec.drawn style origin.entry text.now diagnostic.now) }
    ensures some { IfOk result (λ message. message.items ≢ []) }
{
    let from = none_counted(origin.line);
    drawn_as(
        alloc,
        FindingKind::Fault,
        style,
        origin,
        text,
        from,
        diagnostic,
    )
}

/// The first diagnostic of a text, and after it each further one. An `Err` says that memory ran out.
pub fn drawn_all(
    alloc: Global,
    style: Style,
    origin: Origin<'_>,
    text: &str,
    diagnostic: &Diagnostic,
    further: &[Diagnostic],
) -> Result<Vec<u8>, AllocError>
    ensures { IfOk result (λ message. message.items
        ≡ spec.drawn_all style origin.entry text.now diagnostic.now further.now) }
{
    let from = none_counted(origin.line);
    drawn_all_from(alloc, style, origin, text, from, diagnostic, further)
}

/// Does what `drawn_all` does, with lines counted on from `from`. An `Err` says that memory ran out.
pub fn drawn_all_from(
    alloc: Global,
    style: Style,
    origin: Origin<'_>,
    text: &str,
    from: Counter,
    diagnostic: &Diagnostic,
    further: &[Diagnostic],
) -> Result<Vec<u8>, AllocError>
    requires { IsCounted origin.line text.now from }
    ensures { IfOk result (λ message. message.items
        ≡ spec.drawn_all style origin.entry text.now diagnostic.now further.now) }
{
    let mut message = drawn_as(
        alloc,
        FindingKind::Fault,
        style,
        origin,
        text,
        from,
        diagnostic,
    )?;
    push_further(alloc, style, origin, text, from, further, &mut message)?;
    Ok(message)
}

fn push_further(
    alloc: Global,
    style: Style,
    origin: Origin<'_>,
    text: &str,
    from: Counter,
    further: &[Diagnostic],
    message: &mut Vec<u8>,
) -> Result<(), AllocError>
    requires { IsCounted origin.line text.now from }
    ensures { OnOk result (message.new.items ≡ message.old.items
        ++ flat_map (spec.drawn_further style origin.entry text.now) further.now) }
{
    for diagnostic in further {
        let more = drawn_as(
            alloc,
            FindingKind::Further,
            style,
            origin,
            text,
            from,
            diagnostic,
        )?;
        message.extend_from_slice(&more)?;
    }
    Ok(())
}

fn drawn_as(
    alloc: Global,
    kind: FindingKind,
    style: Style,
    origin: Origin<'_>,
    text: &str,
    from: Counter,
    diagnostic: &Diagnostic,
) -> Result<Vec<u8>, AllocError>
    requires { IsCounted origin.line text.now from }
    ensures exact { IfOk result (λ message. message.items
        ≡ spec.drawn_as kind style origin.entry text.now diagnostic.now) }
    ensures some { IfOk result (λ message. message.items ≢ []) }
{
    let end = fault_end(alloc, style.format, origin, text, from, diagnostic.span.end)?;
    let location = part_at(
        alloc,
        end,
        style.format,
        origin,
        text,
        from,
        diagnostic.span,
    )?;
    let message = sentence_in(alloc, style.format, kind, diagnostic)?;
    let help = help_text(alloc, diagnostic.help)?;
    let finding = FindingWords {
        severity: FindingSeverity::Error,
        kind,
        code: code_of(diagnostic),
        message: &message,
        help: Some(&help),
        replacement: diagnostic.help.nearest(),
    };
    drawn_at(alloc, style, location, finding)
}

// The position of what follows a fault, if the form has it.
fn fault_end(
    alloc: Global,
    format: Format,
    origin: Origin<'_>,
    text: &str,
    from: Counter,
    index: usize,
) -> Result<Option<Position>, AllocError>
    requires { IsCounted origin.line text.now from }
    ensures { IfOk result (λ end. end ≡ spec.fault_end format origin.entry text.now index) }
{
    end_if(
        alloc,
        format.shows_fault_end(),
        format,
        origin,
        text,
        from,
        index,
    )
}

/// The position of what follows a part of a format of another language, if the form has it. An `Err` says that memory ran out.
pub fn part_end(
    alloc: Global,
    format: Format,
    origin: Origin<'_>,
    text: &str,
    from: Counter,
    index: usize,
) -> Result<Option<Position>, AllocError>
    requires { IsCounted origin.line text.now from }
    ensures { IfOk result (λ end. end ≡ spec.part_end format origin.entry text.now index) }
{
    end_if(
        alloc,
        format.shows_part_end(),
        format,
        origin,
        text,
        from,
        index,
    )
}

// The position of what follows a part, if it is shown.
fn end_if(
    alloc: Global,
    is_shown: bool,
    format: Format,
    origin: Origin<'_>,
    text: &str,
    from: Counter,
    index: usize,
) -> Result<Option<Position>, AllocError>
    requires { IsCounted origin.line text.now from }
    ensures { IfOk result (λ end. end ≡ spec.end_if is_shown format origin.entry text.now index) }
{
    if is_shown {
        let end = reported_position_from(alloc, format, origin.line, text, from, index)?;
        return Ok(Some(end));
    }
    Ok(None)
}

/// Where a part of a text is. `from` says how far the lines of the text are counted. An `Err` says that memory ran out.
pub fn part_at<'f, 't>(
    alloc: Global,
    end: Option<Position>,
    format: Format,
    origin: Origin<'f>,
    text: &'t str,
    from: Counter,
    span: Span,
) -> Result<FindingLocation<'f, 't>, AllocError>
    requires { IsCounted origin.line text.now from }
    ensures { IfOk result (λ location. located_of location
        ≡ spec.part_at end format origin.entry text.entry.now span) }
{
    let start = reported_position_from(alloc, format, origin.line, text, from, span.start)?;
    Ok(FindingLocation {
        file: origin.file,
        start,
        end,
        bytes: Some(span),
        line: Some(line_of(text, span)),
    })
}

// The sentence of a fault, as the form shows it.
fn sentence_in(
    alloc: Global,
    format: Format,
    kind: FindingKind,
    diagnostic: &Diagnostic,
) -> Result<String, AllocError>
    ensures { IfOk result (λ sentence. string_bytes sentence
        ≡ spec.sentence_in format kind diagnostic.now) }
{
    match format.sentences() {
        SentenceStyle::Shown => shown_sentence(alloc, &diagnostic.fault),
        SentenceStyle::Reported => reported_sentence(alloc, is_further(kind), &diagnostic.fault),
        SentenceStyle::Whole => format!(in alloc; "{}", diagnostic.fault),
    }
}

/// What is wrong with a file or a line in which no description was looked for. An `Err` says that memory ran
/// out.
pub fn note(
    alloc: Global,
    style: Style,
    origin: Origin<'_>,
    code: &str,
    message: &str,
) -> Result<Vec<u8>, AllocError>
    ensures exact { IfOk result (λ note. note.items
        ≡ spec.note style origin.entry code.now message.now) }
    ensures some { IfOk result (λ note. note.items ≢ []) }
{
    note_as(alloc, FindingSeverity::Error, style, origin, code, message)
}

/// A note of this severity on a file or a line. An `Err` says that memory ran out.
pub fn note_as(
    alloc: Global,
    severity: FindingSeverity,
    style: Style,
    origin: Origin<'_>,
    code: &str,
    message: &str,
) -> Result<Vec<u8>, AllocError>
    ensures exact { IfOk result (λ note. note.items
        ≡ spec.note_as severity style origin.entry code.now message.now) }
    ensures some { IfOk result (λ note. note.items ≢ []) }
{
    let location = FindingLocation {
        file: origin.file,
        start: Position {
            line: origin.line,
            column: 1,
        },
        end: None,
        bytes: None,
        line: None,
    };
    let finding = FindingWords {
        severity,
        kind: FindingKind::Fault,
        code,
        message,
        help: None,
        replacement: None,
    };
    drawn_at(alloc, style, location, finding)
}
