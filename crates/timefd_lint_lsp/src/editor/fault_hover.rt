//! What is shown for the fault of a description.

ghost use Rattle.std.specs.Prelude.{◌≡◌, IfOk};
ghost use Rattle.timefd_lint_lsp.specs.Editor.FaultHovers.{IsFaultHover};
ghost use Rattle.timefd_lint_lsp.specs.Editor.FaultHovers as spec;

use crate::editor::counter::{none_counted, range_from};
use crate::editor::faults::words_on;
use crate::editor::position::DocumentRange;
use std::alloc::{AllocError, Global};
use timefd_lint_diagnosis::Diagnostic;
use timefd_lint_scan::{SourceDescription, index_in_source};

/// What is shown for a part of a description, or for its fault.
#[derive(Drop)]
pub struct Hover {
    /// Where the part or the fault is.
    pub range: DocumentRange,
    /// For a part: what it is, how many bytes it reserves, and an example of what it writes, in two lines. For a
    /// fault: a sentence, and what helps.
    pub text: String,
}

/// Whether an index of the document is at one of the bytes at fault, or where such a byte is missing.
pub fn is_at_fault(description: &SourceDescription, diagnostic: &Diagnostic, index: usize) -> bool
    ensures { result ≡ spec.is_at_fault description.now diagnostic.now index }
{
    let start = index_in_source(description, diagnostic.span.start);
    let end = index_in_source(description, diagnostic.span.end);
    index == start || (start <= index && index < end)
}

/// What is shown for the fault of a description. An `Err` says that memory ran out.
pub fn fault_hover(
    alloc: Global,
    text: &str,
    description: &SourceDescription,
    diagnostic: &Diagnostic,
) -> Result<Hover, AllocError>
    ensures { IfOk result (IsFaultHover text.now description.now diagnostic.now) }
{
    let start = index_in_source(description, diagnostic.span.start);
    let end = index_in_source(description, diagnostic.span.end);
    Ok(Hover {
        range: range_from(text, none_counted(text), start, end),
        text: words_on(alloc, false, diagnostic)?,
    })
}
