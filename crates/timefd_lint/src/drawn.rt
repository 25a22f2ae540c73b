//! The message on what is wrong with a text that stands alone.

ghost use Rattle.std.specs.Prelude.{◌≡◌, ◌++◌, IfOk, OnOk, flat_map};
ghost use Rattle.timefd_lint.specs.Reported as spec;
ghost use Rattle.timefd_lint_warnings.specs.Dialects.Judging as judging;

use std::alloc::{AllocError, Global};
use timefd_lang_dialect::Found;
use timefd_lang_warnings::Levels;
use timefd_lint_diagnosis::{Diagnostic, Span};
use timefd_lint_drawing::{Origin, Style, drawn_all, none_counted};
use timefd_lint_sources::{Reporting, TextJudgement, levels_of, tree_with_warnings};
use timefd_lint_warnings::dialects::{refusal_drawn, trap_drawn};
use timefd_parse::Language;

/// The tree of a text, if it is asked for, and a message on all that is wrong with it. An `Err` says that memory ran out.
pub fn drawn(
    alloc: Global,
    reporting: Reporting,
    origin: Origin<'_>,
    text: &str,
    judgement: &TextJudgement,
) -> Result<Vec<u8>, AllocError>
    ensures { IfOk result (λ message. spec.IsDrawn reporting origin.entry text.now judgement.now message.items) }
{
    let style = reporting.style;
    match judgement {
        TextJudgement::Accepted(language, found) => {
            accepted_drawn(alloc, reporting, origin, text, *language, *found)
        }
        TextJudgement::Faulty(faults) => faults_drawn(alloc, style, origin, text, faults),
        TextJudgement::Right(traps) => traps_drawn(alloc, style, origin, text, traps),
        TextJudgement::Refused(part) => {
            let from = none_counted(origin.line);
            refusal_drawn(alloc, style, origin, text, from, *part)
        }
    }
}

fn accepted_drawn(
    alloc: Global,
    reporting: Reporting,
    origin: Origin<'_>,
    text: &str,
    language: Language,
    found: Option<Levels>,
) -> Result<Vec<u8>, AllocError>
    ensures { IfOk result (λ message. spec.IsAcceptedDrawn reporting origin.entry text.now language found message.items) }
{
    let span = Span {
        start: 0,
        end: text.len(),
    };
    let levels = levels_of(found);
    tree_with_warnings(
        alloc, reporting, origin, text, span, text, 1, language, levels,
    )
}

fn faults_drawn(
    alloc: Global,
    style: Style,
    origin: Origin<'_>,
    text: &str,
    faults: &[Diagnostic],
) -> Result<Vec<u8>, AllocError>
    ensures { IfOk result (λ message. message.items ≡ spec.faults_drawn style origin.entry text.now faults.now) }
{
    let [first, further @ ..] = faults else {
        return Ok(Vec::new(alloc));
    };
    drawn_all(alloc, style, origin, text, first, further)
}

fn traps_drawn(
    alloc: Global,
    style: Style,
    origin: Origin<'_>,
    text: &str,
    traps: &[Found],
) -> Result<Vec<u8>, AllocError>
    ensures { IfOk result (λ message. message.items
        ≡ flat_map (judging.trap_drawn style origin.entry text.now) traps.now) }
{
    let mut message = Vec::new(alloc);
    for trap in traps {
        let more = trap_drawn(alloc, style, origin, text, none_counted(origin.line), *trap)?;
        message.extend_from_slice(&more)?;
    }
    Ok(message)
}
