//! The messages on what is wrong with a format of another language or library.

ghost use Rattle.std.specs.Prelude.{◌≡◌, ◌++◌, IfOk, OnOk, flat_map};
ghost use Rattle.timefd_lint_drawing.specs.Counted.{IsCounted};
ghost use Rattle.timefd_lint_sources.specs.Others as spec;

use crate::at_call::call_note;
use crate::reported::{FIRST_LINE, SourceText};
use std::alloc::{AllocError, Global};
use timefd_lang_dialect::{Found, RefusedPart};
use timefd_lint_drawing::{Counter, Origin, Style};
use timefd_lint_scan::{SourceDescription, index_in_source};
use timefd_lint_warnings::dialects::{refusal_drawn, trap_drawn};

/// The message on the part that is refused, and a note at a call that takes the format by name. An `Err` says that
/// memory ran out.
pub fn refusal_in(
    alloc: Global,
    style: Style,
    source: SourceText<'_>,
    from: Counter,
    description: &SourceDescription,
    refusal: RefusedPart,
) -> Result<Vec<u8>, AllocError>
    requires { IsCounted 1 source.text.now from }
    ensures { IfOk result (λ message. message.items
        ≡ spec.refusal_in style source.entry description.now refusal.reason refusal.index) }
{
    let origin = Origin {
        file: source.file,
        line: FIRST_LINE,
    };
    let placed = RefusedPart {
        reason: refusal.reason,
        index: index_in_source(description, refusal.index),
    };
    let mut message = refusal_drawn(alloc, style, origin, source.text, from, placed)?;
    let note = call_note(alloc, style, source, from, description)?;
    message.extend_from_slice(&note)?;
    Ok(message)
}

/// A message on each trap of a format, at its position in the source. An `Err` says that memory ran out.
pub fn traps_in(
    alloc: Global,
    style: Style,
    source: SourceText<'_>,
    from: Counter,
    description: &SourceDescription,
    found: &[Found],
) -> Result<Vec<u8>, AllocError>
    requires { IsCounted 1 source.text.now from }
    ensures { IfOk result (λ message. message.items
        ≡ flat_map (spec.trap_in style source.entry description.now) found.now) }
{
    let mut message = Vec::new(alloc);
    push_traps(alloc, style, source, from, description, found, &mut message)?;
    Ok(message)
}

// Appends a message on each trap.
fn push_traps(
    alloc: Global,
    style: Style,
    source: SourceText<'_>,
    from: Counter,
    description: &SourceDescription,
    found: &[Found],
    message: &mut Vec<u8>,
) -> Result<(), AllocError>
    requires { IsCounted 1 source.text.now from }
    ensures { OnOk result (message.new.items ≡ message.old.items
        ++ flat_map (spec.trap_in style source.entry description.now) found.now) }
{
    for trap in found {
        let more = trap_in(alloc, style, source, from, description, *trap)?;
        message.extend_from_slice(&more)?;
    }
    Ok(())
}

// The message on a trap, at its position in the source.
fn trap_in(
    alloc: Global,
    style: Style,
    source: SourceText<'_>,
    from: Counter,
    description: &SourceDescription,
    found: Found,
) -> Result<Vec<u8>, AllocError>
    requires { IsCounted 1 source.text.now from }
    ensures { IfOk result (λ message. message.items ≡ spec.trap_in style source.entry description.now found) }
{
    let origin = Origin {
        file: source.file,
        line: FIRST_LINE,
    };
    let placed = Found {
        trap: found.trap,
        start: index_in_source(description, found.start),
        end: index_in_source(description, found.end),
    };
    trap_drawn(alloc, style, origin, source.text, from, placed)
}
