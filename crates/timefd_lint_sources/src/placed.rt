//! Diagnostics with their spans in the source.

ghost use Rattle.std.specs.Prelude.{◌≡◌, IfOk, map};
ghost use Rattle.timefd_lint_sources.specs.Whole as spec;

use std::alloc::{AllocError, Global};
use timefd_lint_diagnosis::{Diagnostic, Span};
use timefd_lint_scan::{SourceDescription, index_in_source};

/// These diagnostics with their spans in the source. An `Err` says that memory ran out.
pub fn all_placed_in(
    alloc: Global,
    description: &SourceDescription,
    diagnostics: Vec<Diagnostic>,
) -> Result<Vec<Diagnostic>, AllocError>
    ensures { IfOk result (λ placed. placed.items
        ≡ map (spec.placed_in description.now) diagnostics.items) }
{
    let mut placed = Vec::new(alloc);
    for diagnostic in diagnostics {
        placed.push(placed_in(description, diagnostic))?;
    }
    Ok(placed)
}

/// A diagnostic of a description, with its span in the source.
pub fn placed_in(description: &SourceDescription, diagnostic: Diagnostic) -> Diagnostic
    ensures { result ≡ spec.placed_in description.now diagnostic }
{
    let mut placed = diagnostic;
    placed.span = Span {
        start: index_in_source(description, placed.span.start),
        end: index_in_source(description, placed.span.end),
    };
    placed
}
