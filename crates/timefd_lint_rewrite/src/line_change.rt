//! What a line is changed to.

ghost use Rattle.std.specs.Prelude.{◌≡◌, IfOk, IfSome, None, string_bytes};
ghost use Rattle.timefd_lint_rewrite.specs.LineChanges.{IsChanged, IsUnchangeable};
ghost use Rattle.timefd_lint_rewrite.specs.declared.line_change.LineChange.TheVariants as spec;

use crate::layout::{Layout, lay_out};
use std::alloc::{AllocError, Global};
use timefd_lang_dialect::{Dialect, DialectError, to_version_three};
use timefd_parse::ParseError;

/// How lines are changed.
#[derive(Clone, Copy)]
pub enum LineChange {
    /// Lines in a language of `time` are laid out in another version, or mended.
    Own(Layout),
    /// Formats of another language or library become texts of version 3.
    Other(Dialect),
}

/// The text that a line with this text is changed to; `None` if the line is refused. An `Err` says that memory ran out.
pub fn changed_text(
    alloc: Global,
    change: LineChange,
    text: &str,
) -> Result<Option<String>, AllocError>
    ensures changed { IfOk result (λ answer. IfSome answer
        (λ new. IsChanged change text.now (string_bytes new))) }
    ensures refused { IfOk result (λ answer. answer ≡ None → IsUnchangeable change text.now) }
{
    match change {
        LineChange::Own(layout) => laid_out(alloc, layout, text),
        LineChange::Other(dialect) => converted(alloc, dialect, text),
    }
}

// The text in the layout; `None` if the language refuses the text.
#[tactic(auto, using(crate::proofs::LineChangeLemmas::of_fault))]
fn laid_out(alloc: Global, layout: Layout, text: &str) -> Result<Option<String>, AllocError>
    ensures changed { IfOk result (λ answer. IfSome answer
        (λ new. IsChanged (spec.Own layout) text.now (string_bytes new))) }
    ensures refused { IfOk result (λ answer. answer ≡ None → IsUnchangeable (spec.Own layout) text.now) }
{
    match lay_out(alloc, layout, text) {
        Ok(answer) => Ok(Some(answer)),
        Err(ParseError::Invalid(_fault)) => Ok(None),
        Err(ParseError::Memory(error)) => Err(error),
    }
}

// The text of version 3; `None` if a part of the format has none.
#[tactic(auto, using(crate::proofs::LineChangeLemmas::of_pieces, crate::proofs::LineChangeLemmas::of_refusal))]
fn converted(alloc: Global, dialect: Dialect, text: &str) -> Result<Option<String>, AllocError>
    ensures changed { IfOk result (λ answer. IfSome answer
        (λ new. IsChanged (spec.Other dialect) text.now (string_bytes new))) }
    ensures refused { IfOk result (λ answer. answer ≡ None → IsUnchangeable (spec.Other dialect) text.now) }
{
    match to_version_three(alloc, dialect, text) {
        Ok(answer) => Ok(Some(answer.text)),
        Err(DialectError::Refused(_refusal)) => Ok(None),
        Err(DialectError::Memory(error)) => Err(error),
    }
}
