//! What is wrong in a document, and where.

ghost use Rattle.std.specs.Prelude.{OnOk, string_bytes};
ghost use Rattle.timefd_lint_lsp.specs.Editor.Each.{Adds};
ghost use Rattle.timefd_lint_lsp.specs.Editor.Finding.{IsOne};
ghost use Rattle.timefd_lint_lsp.specs.Editor.Positions.{IsCounted};

use crate::editor::counter::{DocumentCounter, range_from};
use crate::editor::position::DocumentRange;
use std::alloc::AllocError;
use timefd_lint_scan::SourceDescription;

/// How bad a finding is.
#[derive(Clone, Copy)]
pub enum Severity {
    /// A fault, or a denied warning.
    Error,
    /// Any other warning.
    Warning,
}

/// Something that is wrong.
#[derive(Drop)]
pub struct Finding {
    /// Where it is in the document.
    pub range: DocumentRange,
    /// How bad it is.
    pub severity: Severity,
    /// The stable name of its kind.
    pub code: &'static str,
    /// A sentence about it.
    pub message: String,
}

/// A description of a document, and how far the document is counted.
#[derive(Clone, Copy)]
pub struct DocumentSpot<'a> {
    /// The document's text.
    pub text: &'a str,
    /// The description, which is in that document.
    pub description: &'a SourceDescription,
    /// How far the document is counted.
    pub counter: DocumentCounter,
}

/// Adds a finding for the bytes of a document from one index up to another. An `Err` says that memory ran out.
pub fn push_at(
    found: &mut Vec<Finding>,
    text: &str,
    counter: DocumentCounter,
    start: usize,
    end: usize,
    severity: Severity,
    code: &'static str,
    message: String,
) -> Result<(), AllocError>
    requires { IsCounted text.now counter }
    ensures { OnOk result (Adds (IsOne text.now start end severity code.now (string_bytes message))
        found.old.items found.new.items) }
{
    let range = range_from(text, counter, start, end);
    Ok(found.push(Finding {
        range,
        severity,
        code,
        message,
    })?)
}

/// Adds a finding for the bytes from one index up to another of a description's document. An `Err` says that memory ran
/// out.
pub fn push(
    found: &mut Vec<Finding>,
    spot: DocumentSpot<'_>,
    start: usize,
    end: usize,
    severity: Severity,
    code: &'static str,
    message: String,
) -> Result<(), AllocError>
    requires { IsCounted spot.text.now spot.counter }
    ensures { OnOk result (Adds (IsOne spot.entry.text.now start end severity code.now (string_bytes message))
        found.old.items found.new.items) }
{
    push_at(
        found,
        spot.text,
        spot.counter,
        start,
        end,
        severity,
        code,
        message,
    )
}
