//! The text that a description becomes in a layout.

ghost use Rattle.std.specs.Prelude.{◌≡◌, IfOk, IfSome, None, string_bytes};
ghost use Rattle.timefd_parse.specs.Faults.{Fault};
ghost use Rattle.timefd_lint_rewrite.specs.Layouts.{IsRefusedFor};
ghost use Rattle.timefd_lint_sources.specs.Judged.{text_of};
ghost use Rattle.timefd_lint_sources.specs.Rewriting.Written.{BecomesBy};

use crate::judged::taking;
use crate::rewriting::aside::converted_around;
use std::alloc::{AllocError, Global};
use timefd_lint_rewrite::{Layout, lay_out};
use timefd_lint_scan::SourceDescription;
use timefd_parse::ParseError;

/// The text that a description with this text becomes. `None` if the layout refuses it, and no items can be set aside. An
/// `Err` says that memory ran out.
#[tactic(auto, using(crate::proofs::RewritingLemmas::AnswerLemmas::converts))]
pub fn text_by(
    alloc: Global,
    layout: Layout,
    description: &SourceDescription,
    text: &str,
) -> Result<Option<String>, AllocError>
    requires text { text.now ≡ text_of description.now }
    ensures becomes { IfOk result (λ found. IfSome found
        (λ new. BecomesBy layout description.now (string_bytes new))) }
    ensures refused { IfOk result (λ found. found ≡ None → (f : Fault) × IsRefusedFor layout text.now f) }
{
    match lay_out(alloc, layout, text) {
        Ok(new) => Ok(Some(new)),
        Err(ParseError::Invalid(_)) => around_items(alloc, layout, description, text),
        Err(ParseError::Memory(error)) => Err(error),
    }
}

// The text that a description becomes if its items are set aside, and the layout refuses it as it is.
fn around_items(
    alloc: Global,
    layout: Layout,
    description: &SourceDescription,
    text: &str,
) -> Result<Option<String>, AllocError>
    requires text { text.now ≡ text_of description.now }
    requires refused { (f : Fault) × IsRefusedFor layout text.now f }
    ensures becomes { IfOk result (λ found. IfSome found
        (λ new. BecomesBy layout description.now (string_bytes new))) }
    ensures refused { IfOk result (λ found. found ≡ None → (f : Fault) × IsRefusedFor layout text.now f) }
{
    match taking(description.items, description.dialect) {
        Some(version) => converted_around(alloc, version, layout, text),
        None => Ok(None),
    }
}
