//! The messages on what is wrong with a description, at its position in its source.

ghost use Rattle.std.specs.Prelude.{◌≡◌, IfOk, map};
ghost use Rattle.timefd_lint_drawing.specs.Counted.{IsCounted};
ghost use Rattle.timefd_lint_sources.specs.Judged.{text_of};
ghost use Rattle.timefd_lint_sources.specs.Whole as spec;

use crate::accepted::accepted;
use crate::at_call::call_note;
use crate::judgement::TextJudgement;
use crate::other::{refusal_in, traps_in};
use crate::placed::all_placed_in;
use crate::reported::{FIRST_LINE, Reporting, SourceText};
use std::alloc::{AllocError, Global};
use timefd_lint_diagnosis::Diagnostic;
use timefd_lint_drawing::{Counter, Origin, Style, drawn_all_from};
use timefd_lint_scan::SourceDescription;

/// The tree of a description, if it is asked for, and a message on all that is wrong with it. `from` says how far lines are
/// counted. An `Err` says that memory ran out.
pub fn drawn(
    alloc: Global,
    reporting: Reporting,
    source: SourceText<'_>,
    from: Counter,
    description: &SourceDescription,
    text: &str,
    judgement: TextJudgement,
) -> Result<Vec<u8>, AllocError>
    requires counted { IsCounted 1 source.text.now from }
    requires text { text.now ≡ text_of description.now }
    ensures { IfOk result (λ message. spec.IsDrawn reporting source.entry description.now judgement message.items) }
{
    let style = reporting.style;
    match judgement {
        TextJudgement::Accepted(language, found) => {
            accepted(
                alloc,
                reporting,
                source,
                from,
                description,
                language,
                text,
                found,
            )
        }
        TextJudgement::Faulty(faults) => faults_in(alloc, style, source, from, description, faults),
        TextJudgement::Right(traps) => traps_in(alloc, style, source, from, description, &traps),
        TextJudgement::Refused(part) => refusal_in(alloc, style, source, from, description, part),
    }
}

// The drawings of the faults of a description, and a note at a call that takes it by name.
fn faults_in(
    alloc: Global,
    style: Style,
    source: SourceText<'_>,
    from: Counter,
    description: &SourceDescription,
    faults: Vec<Diagnostic>,
) -> Result<Vec<u8>, AllocError>
    requires { IsCounted 1 source.text.now from }
    ensures { IfOk result (λ message. message.items
        ≡ spec.drawing_of style source.entry description.now (map (spec.placed_in description.now) faults.items)) }
{
    let placed = all_placed_in(alloc, description, faults)?;
    placed_drawn(alloc, style, source, from, description, &placed)
}

// The drawings of these faults, if there are any, and a note at a call that takes the description by name.
fn placed_drawn(
    alloc: Global,
    style: Style,
    source: SourceText<'_>,
    from: Counter,
    description: &SourceDescription,
    faults: &[Diagnostic],
) -> Result<Vec<u8>, AllocError>
    requires { IsCounted 1 source.text.now from }
    ensures { IfOk result (λ message. message.items
        ≡ spec.drawing_of style source.entry description.now faults.now) }
{
    let [first, further @ ..] = faults else {
        return Ok(Vec::new(alloc));
    };
    let origin = Origin {
        file: source.file,
        line: FIRST_LINE,
    };
    let mut message = drawn_all_from(alloc, style, origin, source.text, from, first, further)?;
    let note = call_note(alloc, style, source, from, description)?;
    message.extend_from_slice(&note)?;
    Ok(message)
}
