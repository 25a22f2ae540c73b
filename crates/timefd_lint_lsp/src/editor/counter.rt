//! Positions in a document. Counting goes on from an earlier position, as counting from the start for each
//! would be slow.

ghost use Rattle.std.specs.Prelude.{◌≡◌, ◌≤◌, length, take};
ghost use Rattle.timefd_lint_lsp.specs.Editor.Positions.{IsCounted};
ghost use Rattle.timefd_lint_lsp.specs.Editor.Positions as spec;

use crate::editor::position::{DocumentPosition, DocumentRange, char_start};
use crate::editor::walk::CountingWalk;

/// How far a document is counted.
#[derive(Clone, Copy)]
pub struct DocumentCounter {
    /// The byte index up to which it is counted.
    pub at: usize,
    /// The walk up to that index.
    pub walk: CountingWalk,
}

/// A counter at the start of a document.
pub fn none_counted(text: &str) -> DocumentCounter
    ensures { IsCounted text.now result }
{
    DocumentCounter {
        at: 0,
        walk: CountingWalk::start(),
    }
}

/// Counts a document up to an index. Counting goes on from `from`, unless that is after the index.
pub fn counted(text: &str, from: DocumentCounter, index: usize) -> DocumentCounter
    requires { IsCounted text.now from }
    ensures counted { IsCounted text.now result }
    ensures position { result.walk.position ≡ spec.position_of text.now index }
{
    let bytes = text.as_bytes();
    let at = char_start(bytes, index).min(bytes.len());
    DocumentCounter {
        at,
        walk: walk_to(text, from, at),
    }
}

#[tactic(auto, using(crate::proofs::EditorLemmas::WalkLemmas::walked_on))]
fn walk_to(text: &str, from: DocumentCounter, at: usize) -> CountingWalk
    requires counted { IsCounted text.now from }
    requires within { at ≤ length text.now }
    ensures { result ≡ spec.walked spec.start (take at text.now) }
{
    let bytes = text.as_bytes();
    if at < from.at {
        return CountingWalk::start().through(&bytes[..at]);
    }
    from.walk.through(&bytes[from.at..at])
}

/// The range between two byte indices of a document.
pub fn range_from(text: &str, from: DocumentCounter, start: usize, end: usize) -> DocumentRange
    requires { IsCounted text.now from }
    ensures { result ≡ spec.range_of text.now start end }
{
    let first = counted(text, from, start);
    let last = counted(text, first, end);
    DocumentRange {
        start: first.walk.position,
        end: last.walk.position,
    }
}
