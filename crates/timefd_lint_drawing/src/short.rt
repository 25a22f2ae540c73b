//! A finding on one line, as editors read it.

ghost use Rattle.std.specs.Prelude.{◌≡◌, IfOk, option_map, string_bytes};
ghost use Rattle.timefd_lint_drawing.specs.Findings.{located_of, said_of};
ghost use Rattle.timefd_lint_drawing.specs.Short as spec;

use crate::finding::{FindingKind, FindingLocation, FindingWords};
use crate::position::Position;
use crate::severity::word;
use crate::shown::safe;
use std::alloc::{AllocError, Global};

// Room for the numbers of a line, and for what is between its parts.
const ROOM: usize = 32;

/// `FILE:LINE:COLUMN: SENTENCE`, where the sentence may begin as in `warning[CODE]: ` or `note: `. An `Err` says that memory ran out.
pub fn short(
    alloc: Global,
    location: FindingLocation<'_, '_>,
    finding: FindingWords<'_, '_>,
) -> Result<String, AllocError>
    ensures { IfOk result (λ line. string_bytes line
        ≡ spec.short (located_of location.entry) (said_of finding.entry)) }
{
    match finding.kind {
        FindingKind::Fault | FindingKind::Further => {
            short_line(alloc, location.file, location.start, finding.message)
        }
        FindingKind::Labelled => {
            let sentence = labelled(alloc, finding)?;
            short_line(alloc, location.file, location.start, &sentence)
        }
        FindingKind::Aside => {
            let sentence = aside(alloc, finding)?;
            short_line(alloc, location.file, location.start, &sentence)
        }
    }
}

// `warning[CODE]: SENTENCE`
fn labelled(alloc: Global, finding: FindingWords<'_, '_>) -> Result<String, AllocError>
    ensures { IfOk result (λ text. string_bytes text ≡ spec.labelled (said_of finding.entry)) }
{
    let (severity, code, message) = (word(finding.severity), finding.code, finding.message);
    format!(in alloc; "{severity}[{code}]: {message}")
}

// `note: SENTENCE`
fn aside(alloc: Global, finding: FindingWords<'_, '_>) -> Result<String, AllocError>
    ensures { IfOk result (λ text. string_bytes text ≡ spec.aside (said_of finding.entry)) }
{
    let (severity, message) = (word(finding.severity), finding.message);
    format!(in alloc; "{severity}: {message}")
}

fn short_line(
    alloc: Global,
    file: &str,
    position: Position,
    sentence: &str,
) -> Result<String, AllocError>
    ensures { IfOk result (λ line. string_bytes line
        ≡ spec.short_line file.now position.line position.column sentence.now) }
{
    let name = safe(alloc, file)?;
    let Position { line, column } = position;
    let room = sentence
        .len()
        .saturating_add(name.len())
        .saturating_add(ROOM);
    let mut out = String::with_capacity(alloc, room)?;
    write!(out, "{name}:{line}:{column}: {sentence}\n")?;
    Ok(out)
}
