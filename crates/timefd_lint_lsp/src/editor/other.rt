//! What is wrong with a format of another language or library.

ghost use Rattle.std.specs.Prelude.{◌≡◌, IfOk, OnOk, string_bytes};
ghost use Rattle.timefd_lang_dialect.specs.Reasons as reasons;
ghost use Rattle.timefd_lang_dialect.specs.TrapWords as trap_words;
ghost use Rattle.timefd_lint_drawing.specs.Findings.{with_help as helped};
ghost use Rattle.timefd_lint_lsp.specs.Editor.Each.{Adds, AreOf};
ghost use Rattle.timefd_lint_lsp.specs.Editor.Others.{IsRefusal, IsTrap};
ghost use Rattle.timefd_lint_lsp.specs.Editor.Positions.{IsCounted};

use crate::editor::finding::{DocumentSpot, Finding, Severity, push};
use std::alloc::{AllocError, Global};
use timefd_lang_dialect::{Found, RefusedPart};
use timefd_lint_drawing::with_help;
use timefd_lint_scan::index_in_source;

/// Adds a part that is refused. Where it ends isn't known, so the finding is where it begins. An `Err` says that memory ran
/// out.
pub fn push_refusal(
    alloc: Global,
    spot: DocumentSpot<'_>,
    refusal: RefusedPart,
    found: &mut Vec<Finding>,
) -> Result<(), AllocError>
    requires { IsCounted spot.text.now spot.counter }
    ensures { OnOk result (Adds (IsRefusal spot.entry.text.now spot.entry.description.now refusal)
        found.old.items found.new.items) }
{
    let index = index_in_source(spot.description, refusal.index);
    let (code, message) = (refusal.reason.name(), words_of_refusal(alloc, refusal)?);
    push(found, spot, index, index, Severity::Error, code, message)
}

fn words_of_refusal(alloc: Global, refusal: RefusedPart) -> Result<String, AllocError>
    ensures { IfOk result (λ words. string_bytes words
        ≡ helped (reasons.sentence refusal.reason) (reasons.cure refusal.reason)) }
{
    with_help(alloc, refusal.reason.sentence(), refusal.reason.cure())
}

/// Adds these traps of a format. An `Err` says that memory ran out.
#[tactic(auto, using(crate::proofs::EditorLemmas::EachLemmas::at_first, crate::proofs::EditorLemmas::EachLemmas::one_more_at, crate::proofs::EditorLemmas::EachLemmas::at_last))]
pub fn push_traps(
    alloc: Global,
    spot: DocumentSpot<'_>,
    all: &[Found],
    found: &mut Vec<Finding>,
) -> Result<(), AllocError>
    requires { IsCounted spot.text.now spot.counter }
    ensures { OnOk result (Adds (AreOf (IsTrap spot.entry.text.now spot.entry.description.now) all.now)
        found.old.items found.new.items) }
{
    for trap in all {
        push_trap(alloc, spot, *trap, found)?;
    }
    Ok(())
}

// Adds a trap, at its directive.
fn push_trap(
    alloc: Global,
    spot: DocumentSpot<'_>,
    trap: Found,
    found: &mut Vec<Finding>,
) -> Result<(), AllocError>
    requires { IsCounted spot.text.now spot.counter }
    ensures { OnOk result (Adds (IsTrap spot.entry.text.now spot.entry.description.now trap)
        found.old.items found.new.items) }
{
    let start = index_in_source(spot.description, trap.start);
    let end = index_in_source(spot.description, trap.end);
    let (code, message) = (trap.trap.name(), words_of_trap(alloc, trap)?);
    push(found, spot, start, end, Severity::Warning, code, message)
}

fn words_of_trap(alloc: Global, trap: Found) -> Result<String, AllocError>
    ensures { IfOk result (λ words. string_bytes words
        ≡ helped (trap_words.sentence trap.trap) (trap_words.cure trap.trap)) }
{
    with_help(alloc, trap.trap.sentence(), trap.trap.cure())
}
