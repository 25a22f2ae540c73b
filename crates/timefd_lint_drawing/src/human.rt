//! A finding as a drawing.

ghost use Rattle.std.specs.Prelude.{◌≡◌, ◌++◌, IfOk, OnOk, option_map, string_bytes};
ghost use Rattle.timefd_lint_drawing.specs.Findings.{located_of, said_of};
ghost use Rattle.timefd_lint_drawing.specs.Findings.{cut_of};
ghost use Rattle.timefd_lint_drawing.specs.Human as spec;

use crate::finding::{FindingKind, FindingLocation, FindingWords, is_further};
use crate::lines::{push_head, push_help_lines, push_position_line};
use crate::position::Line;
use crate::severity::{paint, word};
use crate::source_line::{margin, push_source};
use std::alloc::{AllocError, Global};

// Room for the drawing of a short line.
const ROOM: usize = 256;

/// The drawing of a finding: its sentence, its position, the line with carets under the part, and the help. An `Err` says
/// that memory ran out.
pub fn human(
    alloc: Global,
    is_colored: bool,
    location: FindingLocation<'_, '_>,
    finding: FindingWords<'_, '_>,
) -> Result<String, AllocError>
    ensures { IfOk result (λ drawing. string_bytes drawing
        ≡ spec.human is_colored (located_of location.entry) (said_of finding.entry)) }
{
    drawing(
        alloc,
        is_painted(finding.kind, is_colored),
        location,
        finding,
    )
}

fn drawing(
    alloc: Global,
    is_colored: bool,
    location: FindingLocation<'_, '_>,
    finding: FindingWords<'_, '_>,
) -> Result<String, AllocError>
    ensures { IfOk result (λ drawing. string_bytes drawing
        ≡ spec.drawing is_colored (located_of location.entry) (said_of finding.entry)) }
{
    let mut out = String::with_capacity(alloc, ROOM)?;
    push_first(&mut out, is_colored, finding)?;
    push_below(alloc, &mut out, is_colored, location, finding)?;
    out.push_str("\n")?;
    Ok(out)
}

// Whether the drawing has colours.
fn is_painted(kind: FindingKind, is_colored: bool) -> bool
    ensures { result ≡ spec.is_painted kind is_colored }
{
    match kind {
        FindingKind::Fault | FindingKind::Further | FindingKind::Labelled => is_colored,
        FindingKind::Aside => false,
    }
}

// The first line.
fn push_first(
    out: &mut String,
    is_colored: bool,
    finding: FindingWords<'_, '_>,
) -> Result<(), AllocError>
    ensures { OnOk result (string_bytes out.new ≡ string_bytes out.old
        ++ spec.head_by finding.entry.kind is_colored (said_of finding.entry)) }
{
    match finding.kind {
        FindingKind::Fault | FindingKind::Further | FindingKind::Labelled => push_head(
            out,
            is_colored,
            finding.severity,
            finding.code,
            finding.message,
        ),
        FindingKind::Aside => push_plain_head(out, finding),
    }
}

// `note: SENTENCE`
fn push_plain_head(out: &mut String, finding: FindingWords<'_, '_>) -> Result<(), AllocError>
    ensures { OnOk result (string_bytes out.new ≡ string_bytes out.old
        ++ spec.plain_head (said_of finding.entry)) }
{
    out.push_str(word(finding.severity))?;
    out.push_str(": ")?;
    out.push_str(finding.message)?;
    out.push_str("\n")
}

// What is below the sentence.
fn push_below(
    alloc: Global,
    out: &mut String,
    is_colored: bool,
    location: FindingLocation<'_, '_>,
    finding: FindingWords<'_, '_>,
) -> Result<(), AllocError>
    ensures { OnOk result (string_bytes out.new ≡ string_bytes out.old
        ++ spec.below is_colored (located_of location.entry) (said_of finding.entry)) }
{
    match location.line {
        Some(line) => push_part(alloc, out, is_colored, location, line, finding),
        None => push_position_line(alloc, out, is_colored, " ", location.file, location.start),
    }
}

// The position, the line with carets, and the help.
fn push_part(
    alloc: Global,
    out: &mut String,
    is_colored: bool,
    location: FindingLocation<'_, '_>,
    line: Line<'_>,
    finding: FindingWords<'_, '_>,
) -> Result<(), AllocError>
    ensures { OnOk result (string_bytes out.new ≡ string_bytes out.old
        ++ spec.part is_colored (located_of location.entry) (cut_of line.entry) (said_of finding.entry)) }
{
    let margin = margin(alloc, location.start.line)?;
    push_position_line(
        alloc,
        out,
        is_colored,
        &margin,
        location.file,
        location.start,
    )?;
    push_source(
        alloc,
        out,
        is_colored,
        paint(finding.severity),
        location.start.line,
        &margin,
        line,
    )?;
    push_help(out, is_colored, &margin, finding)
}

fn push_help(
    out: &mut String,
    is_colored: bool,
    margin: &str,
    finding: FindingWords<'_, '_>,
) -> Result<(), AllocError>
    ensures { OnOk result (string_bytes out.new ≡ string_bytes out.old
        ++ spec.helped is_colored margin.now (said_of finding.entry)) }
{
    match finding.help {
        Some(help) => push_help_lines(out, is_further(finding.kind), is_colored, margin, help),
        None => Ok(()),
    }
}
