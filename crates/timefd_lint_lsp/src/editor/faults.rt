//! The faults of a description.

ghost use Rattle.std.specs.Prelude.{◌≡◌, IfOk, OnOk, false, string_bytes, true};
ghost use Rattle.timefd_lint_lsp.specs.Editor.Each.{Adds, AreOf};
ghost use Rattle.timefd_lint_lsp.specs.Editor.Findings.{AreFaults, IsFault, fault_words};
ghost use Rattle.timefd_lint_lsp.specs.Editor.Positions.{IsCounted};

use crate::editor::finding::{DocumentSpot, Finding, Severity, push};
use std::alloc::{AllocError, Global};
use timefd_lint_diagnosis::{Diagnostic, code_of};
use timefd_lint_drawing::help_text::help_text;
use timefd_lint_drawing::{reported_sentence, with_help};
use timefd_lint_scan::index_in_source;

/// Adds the first one of these faults of a description, and then its further ones. An `Err` says that memory ran out.
#[tactic(auto, using(crate::proofs::EditorLemmas::FindingLemmas::no_faults))]
pub fn push_faults(
    alloc: Global,
    spot: DocumentSpot<'_>,
    faults: &[Diagnostic],
    found: &mut Vec<Finding>,
) -> Result<(), AllocError>
    requires { IsCounted spot.text.now spot.counter }
    ensures { OnOk result (Adds (AreFaults spot.entry.text.now spot.entry.description.now faults.now)
        found.old.items found.new.items) }
{
    let [first, further @ ..] = faults else {
        return Ok(());
    };
    push_fault(alloc, spot, false, first, found)?;
    push_further(alloc, spot, further, found)
}

#[tactic(auto, using(crate::proofs::EditorLemmas::EachLemmas::at_first, crate::proofs::EditorLemmas::EachLemmas::at_last))]
fn push_further(
    alloc: Global,
    spot: DocumentSpot<'_>,
    further: &[Diagnostic],
    found: &mut Vec<Finding>,
) -> Result<(), AllocError>
    requires { IsCounted spot.text.now spot.counter }
    ensures { OnOk result (Adds (AreOf (IsFault spot.entry.text.now spot.entry.description.now true) further.now)
        found.old.items found.new.items) }
{
    for diagnostic in further {
        push_fault(alloc, spot, true, diagnostic, found)?;
    }
    Ok(())
}

// Adds a fault, at its bytes in the document.
fn push_fault(
    alloc: Global,
    spot: DocumentSpot<'_>,
    is_further: bool,
    diagnostic: &Diagnostic,
    found: &mut Vec<Finding>,
) -> Result<(), AllocError>
    requires { IsCounted spot.text.now spot.counter }
    ensures { OnOk result (Adds (IsFault spot.entry.text.now spot.entry.description.now is_further diagnostic.now)
        found.old.items found.new.items) }
{
    let message = words_on(alloc, is_further, diagnostic)?;
    let start = index_in_source(spot.description, diagnostic.span.start);
    let end = index_in_source(spot.description, diagnostic.span.end);
    let code = code_of(diagnostic);
    push(found, spot, start, end, Severity::Error, code, message)
}

/// The words for a fault: a sentence, and what helps. An `Err` says that memory ran out.
pub fn words_on(
    alloc: Global,
    is_further: bool,
    diagnostic: &Diagnostic,
) -> Result<String, AllocError>
    ensures { IfOk result (λ words. string_bytes words ≡ fault_words is_further diagnostic.now) }
{
    let sentence = reported_sentence(alloc, is_further, &diagnostic.fault)?;
    let help = help_text(alloc, diagnostic.help)?;
    with_help(alloc, &sentence, &help)
}
