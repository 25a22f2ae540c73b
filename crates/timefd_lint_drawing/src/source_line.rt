//! The line of a text with a span, and carets under it.

ghost use Rattle.std.specs.Prelude.{◌≡◌, ◌++◌, IfOk, OnOk, string_bytes};
ghost use Rattle.timefd_lint_drawing.specs.Sources as spec;
ghost use Rattle.timefd_lint_drawing.specs.Lines as lines;

use crate::lines::{Paint, push_bar_line, push_caret_line, push_text_line};
use crate::position::Line;
use crate::rows::{carets, digit_count, spaces};
use crate::shown::{is_shown_as_it_is, shown_end, shown_start};
use std::alloc::{AllocError, Global};
use unicode_width::UnicodeWidthStr;

// The most characters that are shown of the text before a span, of the span, and of the text after it.
const MOST_SHOWN: usize = 40;

/// As many spaces as the number of a line has digits. An `Err` says that memory ran out.
pub fn margin(alloc: Global, line: u64) -> Result<String, AllocError>
    ensures { IfOk result (λ margin. string_bytes margin ≡ spec.margin line) }
{
    let digits = digit_count(line);
    match spaces(digits) {
        Some(margin) => String::from_str(alloc, margin),
        None => " ".repeat(alloc, digits),
    }
}

/// Appends the line with a span, and carets of this colour under the span. A long part is cut. An `Err` says that memory ran
/// out.
pub fn push_source(
    alloc: Global,
    out: &mut String,
    is_colored: bool,
    paint: Paint,
    number: u64,
    margin: &str,
    line: Line<'_>,
) -> Result<(), AllocError>
    requires { margin.now ≡ spec.margin number }
    ensures { OnOk result (string_bytes out.new ≡ string_bytes out.old
        ++ spec.source is_colored paint number line.entry.before.now line.entry.at.now line.entry.after.now) }
{
    if is_shown_as_it_is(line.before, MOST_SHOWN)
        && is_shown_as_it_is(line.at, MOST_SHOWN)
        && is_shown_as_it_is(line.after, MOST_SHOWN)
    {
        return push_source_of(alloc, out, is_colored, paint, number, margin, line);
    }
    let before = shown_start(alloc, line.before, MOST_SHOWN)?;
    let at = shown_end(alloc, line.at, MOST_SHOWN)?;
    let after = shown_end(alloc, line.after, MOST_SHOWN)?;
    let shown = Line {
        before: &before,
        at: &at,
        after: &after,
    };
    push_source_of(alloc, out, is_colored, paint, number, margin, shown)
}

// The line with the span, from its three parts as they are shown, and the carets.
fn push_source_of(
    alloc: Global,
    out: &mut String,
    is_colored: bool,
    paint: Paint,
    number: u64,
    margin: &str,
    line: Line<'_>,
) -> Result<(), AllocError>
    requires { margin.now ≡ spec.margin number }
    ensures { OnOk result (string_bytes out.new ≡ string_bytes out.old
        ++ spec.source_of is_colored paint number line.entry.before.now line.entry.at.now line.entry.after.now) }
{
    let (indent, under) = (line.before.width(), line.at.width().max(1));
    if let (Some(indent), Some(carets)) = (spaces(indent), carets(under)) {
        return push_lines(out, is_colored, paint, number, margin, line, indent, carets);
    }
    let indent = " ".repeat(alloc, indent)?;
    let carets = "^".repeat(alloc, under)?;
    push_lines(
        out, is_colored, paint, number, margin, line, &indent, &carets,
    )
}

// The three lines, from the indent and the carets below the text.
fn push_lines(
    out: &mut String,
    is_colored: bool,
    paint: Paint,
    number: u64,
    margin: &str,
    line: Line<'_>,
    indent: &str,
    carets: &str,
) -> Result<(), AllocError>
    ensures { OnOk result (string_bytes out.new ≡ string_bytes out.old
        ++ (lines.bar_line is_colored margin.now
        ++ (lines.text_line is_colored number line.entry.before.now line.entry.at.now line.entry.after.now
        ++ lines.caret_line is_colored paint margin.now indent.now carets.now))) }
{
    push_bar_line(out, is_colored, margin)?;
    push_text_line(out, is_colored, number, line.before, line.at, line.after)?;
    push_caret_line(out, is_colored, paint, margin, indent, carets)
}
