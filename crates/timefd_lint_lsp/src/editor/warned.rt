//! What is reported about a description as a whole: its warnings, and that it isn't UTF-8.

ghost use Rattle.std.specs.Prelude.{OnOk};
ghost use Rattle.timefd_lint_lsp.specs.Editor.Each.{Adds, AreOf};
ghost use Rattle.timefd_lint_lsp.specs.Editor.Finding.{AreWarnings, IsAtLiteral, IsNote, IsReported, IsWarned, IsWarnedAt};
ghost use Rattle.timefd_lint_lsp.specs.Editor.Positions.{IsCounted};

use crate::editor::finding::{DocumentSpot, Finding, Severity, push};
use std::alloc::{AllocError, Global};
use timefd_lang_warnings::{Level, Levels, Warning};

/// Adds the warnings of a description, in the order of their codes. An `Err` says that memory ran out.
pub fn push_warnings(
    alloc: Global,
    spot: DocumentSpot<'_>,
    warned: Levels,
    found: &mut Vec<Finding>,
) -> Result<(), AllocError>
    requires { IsCounted spot.text.now spot.counter }
    ensures { OnOk result (Adds (AreWarnings spot.entry.text.now spot.entry.description.now warned)
        found.old.items found.new.items) }
{
    push_each(alloc, spot, warned, Warning::all(), found)
}

#[tactic(auto, using(crate::proofs::EditorLemmas::EachLemmas::at_first, crate::proofs::EditorLemmas::EachLemmas::one_more_at, crate::proofs::EditorLemmas::EachLemmas::at_last))]
fn push_each(
    alloc: Global,
    spot: DocumentSpot<'_>,
    warned: Levels,
    warnings: &[Warning],
    found: &mut Vec<Finding>,
) -> Result<(), AllocError>
    requires { IsCounted spot.text.now spot.counter }
    ensures { OnOk result (Adds (AreOf (IsWarned spot.entry.text.now spot.entry.description.now warned) warnings.now)
        found.old.items found.new.items) }
{
    for warning in warnings {
        push_warning(alloc, spot, warned, *warning, found)?;
    }
    Ok(())
}

fn push_warning(
    alloc: Global,
    spot: DocumentSpot<'_>,
    warned: Levels,
    warning: Warning,
    found: &mut Vec<Finding>,
) -> Result<(), AllocError>
    requires { IsCounted spot.text.now spot.counter }
    ensures { OnOk result (Adds (IsWarned spot.entry.text.now spot.entry.description.now warned warning)
        found.old.items found.new.items) }
{
    push_at_level(alloc, spot, warned.level_of(warning), warning, found)
}

// Adds a warning, if it isn't allowed.
#[tactic(auto, using(crate::proofs::EditorLemmas::WarningLemmas::allowed))]
fn push_at_level(
    alloc: Global,
    spot: DocumentSpot<'_>,
    level: Level,
    warning: Warning,
    found: &mut Vec<Finding>,
) -> Result<(), AllocError>
    requires { IsCounted spot.text.now spot.counter }
    ensures { OnOk result (Adds (IsWarnedAt spot.entry.text.now spot.entry.description.now level warning)
        found.old.items found.new.items) }
{
    match level {
        Level::Allowed => Ok(()),
        Level::Warned => push_reported(alloc, spot, Severity::Warning, warning, found),
        Level::Denied => push_reported(alloc, spot, Severity::Error, warning, found),
    }
}

fn push_reported(
    alloc: Global,
    spot: DocumentSpot<'_>,
    severity: Severity,
    warning: Warning,
    found: &mut Vec<Finding>,
) -> Result<(), AllocError>
    requires { IsCounted spot.text.now spot.counter }
    ensures { OnOk result (Adds (IsReported spot.entry.text.now spot.entry.description.now severity warning)
        found.old.items found.new.items) }
{
    push_at_literal(
        alloc,
        spot,
        severity,
        warning.name(),
        warning.sentence(),
        found,
    )
}

/// Adds that a description isn't UTF-8. An `Err` says that memory ran out.
pub fn push_note(
    alloc: Global,
    spot: DocumentSpot<'_>,
    found: &mut Vec<Finding>,
) -> Result<(), AllocError>
    requires { IsCounted spot.text.now spot.counter }
    ensures { OnOk result (Adds (IsNote spot.entry.text.now spot.entry.description.now)
        found.old.items found.new.items) }
{
    push_at_literal(
        alloc,
        spot,
        Severity::Error,
        "not-text",
        "the bytes aren't UTF-8",
        found,
    )
}

// Adds a finding about a description as a whole, at its literal.
fn push_at_literal(
    alloc: Global,
    spot: DocumentSpot<'_>,
    severity: Severity,
    code: &'static str,
    message: &str,
    found: &mut Vec<Finding>,
) -> Result<(), AllocError>
    requires { IsCounted spot.text.now spot.counter }
    ensures { OnOk result (Adds (IsAtLiteral spot.entry.text.now spot.entry.description.now
        severity code.now message.now) found.old.items found.new.items) }
{
    let message = String::from_str(alloc, message)?;
    let piece = spot.description.piece;
    push(found, spot, piece.start, piece.end, severity, code, message)
}
