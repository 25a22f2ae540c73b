//! What the linter reports about an accepted text.

ghost use Rattle.std.specs.Prelude.{◌≡◌, IfOk};
ghost use Rattle.timefd_lint_drawing.specs.Counted.{IsCounted};
ghost use Rattle.timefd_lint_explain.specs.Lines.{IsExplainedIf};
ghost use Rattle.timefd_lint_sources.specs.Judged.{text_of};
ghost use Rattle.timefd_lint_sources.specs.Judgements as spec;
ghost use Rattle.timefd_lint_sources.specs.Whole.{IsTreeAndWarnings, IsTreeWithWarnings};

use crate::judgement::levels_of;
use crate::reported::{FIRST_LINE, Reporting, SourceText};
use std::alloc::{AllocError, Global};
use timefd_lang_warnings::Levels;
use timefd_lint_diagnosis::Span;
use timefd_lint_drawing::{Counter, Origin, reported_position_from};
use timefd_lint_explain::explained;
use timefd_lint_scan::SourceDescription;
use timefd_lint_warnings::messages_at;
use timefd_parse::Language;

/// The tree of an accepted description, if it is asked for, and a message on each of these warnings. An `Err` says that
/// memory ran out.
#[tactic(auto, using(crate::proofs::ReportedLemmas::nothing_reported))]
pub fn accepted(
    alloc: Global,
    reporting: Reporting,
    source: SourceText<'_>,
    from: Counter,
    description: &SourceDescription,
    language: Language,
    text: &str,
    found: Option<Levels>,
) -> Result<Vec<u8>, AllocError>
    requires text { text.now ≡ text_of description.now }
    requires counted { IsCounted 1 source.text.now from }
    ensures { IfOk result (λ message. IsTreeAndWarnings language reporting source.entry description.now
        (spec.levels_of found) message.items) }
{
    if !reporting.explains && found.is_none() {
        return Ok(Vec::new(alloc));
    }
    at_literal(
        alloc,
        reporting,
        source,
        from,
        description,
        language,
        text,
        levels_of(found),
    )
}

// The tree and the warnings of a description, at the position of its literal.
fn at_literal(
    alloc: Global,
    reporting: Reporting,
    source: SourceText<'_>,
    from: Counter,
    description: &SourceDescription,
    language: Language,
    text: &str,
    found: Levels,
) -> Result<Vec<u8>, AllocError>
    requires text { text.now ≡ text_of description.now }
    requires counted { IsCounted 1 source.text.now from }
    ensures { IfOk result (λ message. IsTreeAndWarnings language reporting source.entry description.now
        found message.items) }
{
    let format = reporting.style.format;
    let position = reported_position_from(
        alloc,
        format,
        FIRST_LINE,
        source.text,
        from,
        description.piece.start,
    )?;
    let origin = Origin {
        file: source.file,
        line: position.line,
    };
    let span = Span {
        start: description.piece.start,
        end: description.piece.end,
    };
    tree_with_warnings(
        alloc,
        reporting,
        origin,
        source.text,
        span,
        text,
        position.column,
        language,
        found,
    )
}

/// The tree of an accepted text, if it is asked for, and a message on each of these warnings. The text is the part `span` of
/// `whole`, and begins at this column of its line. An `Err` says that memory ran out.
pub fn tree_with_warnings(
    alloc: Global,
    reporting: Reporting,
    origin: Origin<'_>,
    whole: &str,
    span: Span,
    text: &str,
    column: usize,
    language: Language,
    found: Levels,
) -> Result<Vec<u8>, AllocError>
    ensures { IfOk result (λ message. IsTreeWithWarnings reporting origin.entry whole.now span text.now column
        language found message.items) }
{
    let mut message = tree_of(alloc, reporting.explains, language, origin, text)?;
    let style = reporting.style;
    let reported = messages_at(alloc, style, origin, whole, span, text, column, found)?;
    message.extend_from_slice(&reported)?;
    Ok(message)
}

// The tree of an accepted text, if it is asked for.
fn tree_of(
    alloc: Global,
    explains: bool,
    language: Language,
    origin: Origin<'_>,
    text: &str,
) -> Result<Vec<u8>, AllocError>
    ensures { IfOk result (λ tree. IsExplainedIf explains language origin.entry.file.now origin.entry.line
        text.now tree.items) }
{
    if explains {
        let tree = explained(alloc, language, origin, text)?;
        Ok(tree.into_bytes())
    } else {
        Ok(Vec::new(alloc))
    }
}
