//! Positions in a document, as editors count them.

ghost use Rattle.std.specs.Prelude.{◌≡◌, ◌≤◌, length, slice_index};
ghost use Rattle.timefd_lint_lsp.specs.Editor.Positions as spec;

use crate::editor::walk::{CountingWalk, goes_on};

/// A position in a document, as the Language Server Protocol counts it: lines from 0, each ended by `\n`,
/// `\r\n` or `\r`, and UTF-16 code units from the start of the line.
#[derive(Clone, Copy, PartialEq, Eq)]
pub struct DocumentPosition {
    pub line: usize,
    pub character: usize,
}

/// The text from one position up to another.
#[derive(Clone, Copy, PartialEq, Eq)]
pub struct DocumentRange {
    pub start: DocumentPosition,
    pub end: DocumentPosition,
}

/// The position of the byte at an index. An index inside of a character gives the character's start, and one
/// after the text gives the text's end. The `\n` of `\r\n` is at the start of the next line.
pub fn position_of(text: &str, index: usize) -> DocumentPosition
    ensures { result ≡ spec.position_of text.now index }
{
    let bytes = text.as_bytes();
    let start = char_start(bytes, index).min(bytes.len());
    CountingWalk::start().through(&bytes[..start]).position
}

/// The byte index of a position. If the line is shorter, it is the index after the line's last character. If
/// the text has fewer lines, it is the text's length. A position between the two units of a character gives
/// the character's start.
pub fn index_of(text: &str, position: DocumentPosition) -> usize
    ensures index { result ≡ spec.index_of text.now position }
    ensures within { result ≤ length text.now }
{
    let bytes = text.as_bytes();
    let mut walk = CountingWalk::start();
    for (index, byte) in bytes.iter().enumerate() {
        if walk.stops_at(position, *byte) {
            return index;
        }
        walk = walk.step(*byte);
    }
    bytes.len()
}

/// The start of the character that an index is inside of, or the index itself if it isn't inside of one.
#[tactic(auto, using(crate::proofs::EditorLemmas::WalkLemmas::char_start_at, crate::proofs::EditorLemmas::WalkLemmas::char_start_back))]
pub fn char_start(text: &[u8], index: usize) -> usize
    ensures { result ≡ spec.char_start text.now index }
{
    let mut start = index;
    'back: while start > 0 {
        if !is_inside(text, start) {
            return start;
        }
        start -= 1;
    }
    0
}

// Whether the byte at an index continues a character.
fn is_inside(text: &[u8], index: usize) -> bool
    ensures { result ≡ spec.goes_on (slice_index text.now index) }
{
    index < text.len() && goes_on(text[index])
}
