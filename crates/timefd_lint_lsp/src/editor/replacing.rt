//! A document in which an editor replaces a range.

ghost use Rattle.std.specs.Prelude.{◌≡◌, IfOk, option_map, string_bytes};
ghost use Rattle.std.specs.Str.{IsCharBoundary};
ghost use Rattle.timefd_lint_lsp.specs.Editor.Positions.{index_of};
ghost use Rattle.timefd_lint_lsp.specs.Editor.Replacing as spec;

use crate::editor::position::{DocumentPosition, DocumentRange, index_of};
use crate::editor::walk::CountingWalk;
use std::alloc::{AllocError, Global};

/// The text with `new` in place of a range. A character after the end of a line is taken for that end. `None`
/// if the range isn't in the text: there is no such line, or the range ends before it begins. An `Err` says that
/// memory ran out.
pub fn replaced(
    alloc: Global,
    text: &str,
    range: DocumentRange,
    new: &str,
) -> Result<Option<String>, AllocError>
    ensures { IfOk result (λ changed. option_map string_bytes changed ≡ spec.replaced text.now range new.now) }
{
    let start = boundary_of(text, range.start);
    let end = boundary_of(text, range.end);
    if !has_lines(text, range) || end < start {
        return Ok(None);
    }
    let front = &text[..start];
    let back = &text[end..];
    let changed = joined(alloc, front, new, back)?;
    Ok(Some(changed))
}

fn joined(alloc: Global, front: &str, new: &str, back: &str) -> Result<String, AllocError>
    ensures { IfOk result (λ joined. string_bytes joined ≡ spec.joined front.now new.now back.now) }
{
    format!(in alloc; "{front}{new}{back}")
}

// The byte index of a position, which is between two characters.
#[tactic(auto, using(crate::proofs::EditorLemmas::BoundaryLemmas::at_boundary))]
fn boundary_of(text: &str, position: DocumentPosition) -> usize
    ensures index { result ≡ index_of text.now position }
    ensures boundary { IsCharBoundary text.now result }
{
    index_of(text, position)
}

// Whether a text has the lines of a range.
fn has_lines(text: &str, range: DocumentRange) -> bool
    ensures { result ≡ spec.has_lines text.now range }
{
    let last = CountingWalk::start().through(text.as_bytes()).position.line;
    range.start.line <= last && range.end.line <= last
}
